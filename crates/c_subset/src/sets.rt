//! Reads argument sets, and the sets of the decoder's union.

ghost use Rattle.std.specs.Prelude.{true, ◌≡◌, option_map};
ghost use Rattle.c_tokens.specs.Gives.{Gives};
ghost use Rattle.c_tokens.specs.Parsing.{many};
ghost use Rattle.c_subset.specs.SetParsing.{arg_at, is_inside, member_at, set_at, starts_set, sets_at, union_set_at, union_at};

use c_tokens::{ReadFault, Token, Tokens, name_at, name_behind_at};
use dt_values::{CType, Member, MemberList, Name, SetDef};
use std::alloc::Global;

/// The name S of the word `arg_S` that stands first.
#[tactic(auto, unfolding(crate::specs::SetParsing::arg_at))]
pub(crate) fn arg_at(tokens: &mut Tokens) -> Option<Name>
    ensures { option_map (λ s. (s, tokens.new)) result ≡ arg_at tokens.old }
{
    name_behind_at(b"arg_", tokens)
}

/// Whether no brace closes here.
#[tactic(auto, unfolding(crate::specs::SetParsing::is_inside))]
pub(crate) fn is_inside(tokens: &Tokens) -> bool
    ensures { result ≡ is_inside tokens.now }
{
    !tokens.begins(&[Token::Mark(b'}')])
}

#[tactic(auto, unfolding(crate::specs::SetParsing::member_at))]
fn member_at(tokens: &mut Tokens) -> Result<Member, ReadFault>
    ensures { Gives (λ m. (m, tokens.new)) result (member_at tokens.old) }
{
    let ctype = name_at(tokens).ok_or(ReadFault::NotSubset)?;
    let name = name_at(tokens).ok_or(ReadFault::NotSubset)?;
    tokens
        .take(&[Token::Mark(b';')])
        .ok_or(ReadFault::NotSubset)?;
    Ok(Member {
        ctype: CType::of(ctype),
        name,
    })
}

fn members_at(alloc: Global, tokens: &mut Tokens) -> Result<Vec<Member>, ReadFault>
    ensures { Gives (λ ms. (ms.items, tokens.new)) result (many is_inside member_at tokens.old) }
{
    let mut members = Vec::new(alloc);
    'more: while is_inside(tokens) {
        let Member { ctype, name } = member_at(tokens)?;
        members.push(Member { ctype, name })?;
    }
    Ok(members)
}

#[tactic(auto, unfolding(crate::specs::SetParsing::set_at))]
fn set_at(alloc: Global, tokens: &mut Tokens) -> Result<SetDef, ReadFault>
    ensures { Gives (λ s. (s, tokens.new)) result (set_at tokens.old) }
{
    tokens
        .take(&[
            Token::Word(b"typedef"),
            Token::Word(b"struct"),
            Token::Mark(b'{'),
        ])
        .ok_or(ReadFault::NotSubset)?;
    let members = members_at(alloc, tokens)?;
    tokens
        .take(&[Token::Mark(b'}')])
        .ok_or(ReadFault::NotSubset)?;
    let name = arg_at(tokens).ok_or(ReadFault::NotSubset)?;
    tokens
        .take(&[Token::Mark(b';')])
        .ok_or(ReadFault::NotSubset)?;
    Ok(SetDef {
        name,
        members: MemberList::of(members),
        outside: false,
    })
}

#[tactic(auto, unfolding(crate::specs::SetParsing::starts_set))]
fn starts_set(tokens: &Tokens) -> bool
    ensures { result ≡ starts_set tokens.now }
{
    tokens.begins(&[
        Token::Word(b"typedef"),
        Token::Word(b"struct"),
        Token::Mark(b'{'),
    ])
}

/// The argument sets that stand first.
pub(crate) fn sets_at(alloc: Global, tokens: &mut Tokens) -> Result<Vec<SetDef>, ReadFault>
    ensures { Gives (λ ss. (ss.items, tokens.new)) result (sets_at tokens.old) }
{
    let mut sets = Vec::new(alloc);
    'more: while starts_set(tokens) {
        sets.push(set_at(alloc, tokens)?)?;
    }
    Ok(sets)
}

#[tactic(auto, unfolding(crate::specs::SetParsing::union_set_at))]
fn union_set_at(tokens: &mut Tokens) -> Result<Name, ReadFault>
    ensures { Gives (λ s. (s, tokens.new)) result (union_set_at tokens.old) }
{
    let set = arg_at(tokens).ok_or(ReadFault::NotSubset)?;
    let name = name_behind_at(b"f_", tokens).ok_or(ReadFault::NotSubset)?;
    tokens
        .take(&[Token::Mark(b';')])
        .ok_or(ReadFault::NotSubset)?;
    if set == name {
        Ok(set)
    } else {
        Err(ReadFault::NotSubset)
    }
}

fn union_sets_at(alloc: Global, tokens: &mut Tokens) -> Result<Vec<Name>, ReadFault>
    ensures { Gives (λ ss. (ss.items, tokens.new)) result (many is_inside union_set_at tokens.old) }
{
    let mut sets = Vec::new(alloc);
    'more: while is_inside(tokens) {
        sets.push(union_set_at(tokens)?)?;
    }
    Ok(sets)
}

/// The sets of the decoder's union, which stands first where there are patterns. Without them nothing is read.
#[tactic(auto, unfolding(crate::specs::SetParsing::union_at))]
pub(crate) fn union_at(
    alloc: Global,
    has_patterns: bool,
    tokens: &mut Tokens,
) -> Result<Vec<Name>, ReadFault>
    ensures { Gives (λ ss. (ss.items, tokens.new)) result (union_at has_patterns tokens.old) }
{
    if has_patterns {
        some_union_at(alloc, tokens)
    } else {
        Ok(Vec::new(alloc))
    }
}

#[tactic(auto, unfolding(crate::specs::SetParsing::union_at))]
fn some_union_at(alloc: Global, tokens: &mut Tokens) -> Result<Vec<Name>, ReadFault>
    ensures { Gives (λ ss. (ss.items, tokens.new)) result (union_at true tokens.old) }
{
    tokens
        .take(&[Token::Word(b"union"), Token::Mark(b'{')])
        .ok_or(ReadFault::NotSubset)?;
    let sets = union_sets_at(alloc, tokens)?;
    match tokens.take(&[Token::Mark(b'}'), Token::Word(b"u"), Token::Mark(b';')]) {
        None => Err(ReadFault::NotSubset),
        Some(()) => Ok(sets),
    }
}
