//! Reads the statements that have no block, and the heads of those that have one.

ghost use Rattle.std.specs.Prelude.{◌≡◌, option_map};
ghost use Rattle.c_tokens.specs.Gives.{Gives};
ghost use Rattle.c_tokens.specs.Parsing.{after, begins};
ghost use Rattle.c_subset.specs.View.{stmt_of};
ghost use Rattle.c_subset.specs.StmtParsing.{live_open, call_end, live_set_at, extract_at, prefixed_call_at, call_at, assign_at, if_open, if_head_at};

use crate::joined::name_behind_both_at;
use crate::program::Stmt;
use c_exprs::set_assignment_at;
use c_tokens::{ReadFault, Token, Tokens, hexadecimal_at, name_behind_at};
use dt_values::{Name, Width};
use std::alloc::Global;

// Takes `(ctx, &u.`.
fn take_live_open(tokens: &mut Tokens) -> Option<()>
    ensures { option_map (λ _. tokens.new) result ≡ after live_open tokens.old }
{
    tokens.take(&[
        Token::Mark(b'('),
        Token::Word(b"ctx"),
        Token::Mark(b','),
        Token::Mark(b'&'),
        Token::Word(b"u"),
        Token::Mark(b'.'),
    ])
}

// The set S of the word `f_S`.
#[tactic(auto, unfolding(crate::specs::StmtParsing::live_set_at))]
fn live_set_at(tokens: &mut Tokens) -> Option<Name>
    ensures { option_map (λ s. (s, tokens.new)) result ≡ live_set_at tokens.old }
{
    name_behind_at(b"f_", tokens)
}

/// The extraction `F_extract_FORMAT(ctx, &u.f_SET, insn);`, with F the decoder's name.
#[tactic(auto, unfolding(crate::specs::StmtParsing::extract_at))]
pub(crate) fn extract_at(decoder: &Name, tokens: &mut Tokens) -> Option<Stmt>
    ensures { option_map (λ s. (stmt_of s, tokens.new)) result ≡ extract_at decoder.now tokens.old }
{
    let format = name_behind_both_at(decoder, b"_extract_", tokens)?;
    take_live_open(tokens)?;
    let set = live_set_at(tokens)?;
    tokens.take(&[
        Token::Mark(b','),
        Token::Word(b"insn"),
        Token::Mark(b')'),
        Token::Mark(b';'),
    ])?;
    Some(Stmt::Extract { format, set })
}

// Takes `)) return true;`.
fn take_call_end(tokens: &mut Tokens) -> Option<()>
    ensures { option_map (λ _. tokens.new) result ≡ after call_end tokens.old }
{
    tokens.take(&[
        Token::Mark(b')'),
        Token::Mark(b')'),
        Token::Word(b"return"),
        Token::Word(b"true"),
        Token::Mark(b';'),
    ])
}

#[tactic(auto, unfolding(crate::specs::StmtParsing::prefixed_call_at))]
fn prefixed_call_at(prefix: &Name, tokens: &mut Tokens) -> Option<Stmt>
    ensures { option_map (λ s. (stmt_of s, tokens.new)) result ≡ prefixed_call_at prefix.now tokens.old }
{
    tokens.take(&[Token::Word(b"if"), Token::Mark(b'(')])?;
    let pattern = name_behind_both_at(prefix, b"_", tokens)?;
    take_live_open(tokens)?;
    let set = live_set_at(tokens)?;
    take_call_end(tokens)?;
    Some(Stmt::Call { pattern, set })
}

/// The call `if (P_PATTERN(ctx, &u.f_SET)) return true;`, with P the prefix. Without a prefix there is none.
pub(crate) fn call_at(prefix: &Option<Name>, tokens: &mut Tokens) -> Option<Stmt>
    ensures { option_map (λ s. (stmt_of s, tokens.new)) result ≡ call_at prefix.now tokens.old }
{
    match prefix {
        Some(prefix) => prefixed_call_at(prefix, tokens),
        None => None,
    }
}

/// The assignment `u.f_SET.ARG = VALUE;`.
#[tactic(auto, unfolding(crate::specs::StmtParsing::assign_at))]
pub(crate) fn assign_at(alloc: Global, width: Width, tokens: &mut Tokens) -> Result<Stmt, ReadFault>
    ensures { Gives (λ s. (stmt_of s, tokens.new)) result (assign_at width tokens.old) }
{
    let ((set, arg), value) = set_assignment_at(alloc, width, tokens)?;
    Ok(Stmt::Assign { set, arg, value })
}

/// Whether an `if` with a block stands first.
pub(crate) fn begins_if(tokens: &Tokens) -> bool
    ensures { result ≡ begins if_open tokens.now }
{
    tokens.begins(&[
        Token::Word(b"if"),
        Token::Mark(b'('),
        Token::Mark(b'('),
        Token::Word(b"insn"),
        Token::Mark(b'&'),
    ])
}

// Takes `if ((insn &`.
fn take_if_open(tokens: &mut Tokens) -> Option<()>
    ensures { option_map (λ _. tokens.new) result ≡ after if_open tokens.old }
{
    tokens.take(&[
        Token::Word(b"if"),
        Token::Mark(b'('),
        Token::Mark(b'('),
        Token::Word(b"insn"),
        Token::Mark(b'&'),
    ])
}

/// The mask and the value of `if ((insn & MASK) == VALUE) {`.
#[tactic(auto, unfolding(crate::specs::StmtParsing::if_head_at))]
pub(crate) fn if_head_at(width: Width, tokens: &mut Tokens) -> Option<(u64, u64)>
    ensures { option_map (λ x. (x, tokens.new)) result ≡ if_head_at width tokens.old }
{
    take_if_open(tokens)?;
    let mask = hexadecimal_at(width, tokens)?;
    tokens.take(&[Token::Mark(b')'), Token::DoubleEquals])?;
    let value = hexadecimal_at(width, tokens)?;
    tokens.take(&[Token::Mark(b')'), Token::Mark(b'{')])?;
    Some((mask, value))
}
