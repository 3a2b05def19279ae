//! Reads the line of an argument set.

ghost use Rattle.std.specs.Prelude.{◌≡◌, ◌++◌, ◌∷◌, [], ℕ, None, List, IsTrue, length, All, IfOk, IfErr, OnOk, OnErr};
ghost use Rattle.std.specs.List.{list_any};
ghost use Rattle.dt_values.specs.Types.{is_text};
ghost use Rattle.dt_lines.specs.Spans.{IsWithin, AreSpans, text_at};
ghost use Rattle.dt_fields.specs.SetLines.{begins_set, empty_set, line_set, set_faults, set_line_faults, set_of, set_token_faults, set_token_rows, set_with_token, whole_set_faults};
ghost use Rattle.dt_values.specs.Members.{has_member};
ghost use Rattle.dt_fields.specs.SetTokens.{argument, set_token};
ghost use Rattle.dt_values.specs.SetsByName.{set_at};
ghost use Rattle.dt_fields.specs.TokenView.{set_of_draft};
ghost use Rattle.dt_fields.specs.View.{DefBroken, TokenBroken, texts_at};

use crate::fault::{DefFault, Detail, refuse};
use crate::head::{marked_name, split_line};
use crate::number::is_keyword;
use crate::rule::Rule;
use crate::set_tokens::{SetToken, set_token};
use crate::sets::Sets;
use dt_lines::{Logical, Span};
use dt_values::set::has_member;
use dt_values::{MOST_ARGUMENTS, Member, MemberList, Name, SetDef};
use std::alloc::Global;

/// Puts the set of a line last in the table. The line is one of `source`, and begins with `&` and a name. `patterns`
/// has the names of the patterns before it.
pub fn args_line(
    alloc: Global,
    sets: &mut Sets,
    patterns: &[Name],
    source: &[u8],
    line: &Logical,
) -> Result<(), DefFault>
    requires spans { AreSpans (length source.now) line.now.tokens }
    requires set { IsTrue (begins_set (texts_at source.now line.now.tokens)) }
    ensures added { OnOk result (sets.new ≡ sets.old ++ line_set (texts_at source.now line.now.tokens) ∷ []) }
    ensures kept { OnOk result
        (set_line_faults sets.old patterns.now (texts_at source.now line.now.tokens) ≡ []) }
    ensures broken { IfErr result (λ fault. DefBroken source.now fault
        (set_line_faults sets.old patterns.now (texts_at source.now line.now.tokens))) }
    ensures unchanged { OnErr result (sets.new ≡ sets.old) }
{
    let (first, rest) = split_line(line.tokens.items());
    let name = marked_name(b'&', first.text(source));
    define_set(alloc, sets, patterns, source, name, rest)
}

// Puts the set of this name and these tokens of `source` last in the table.
#[tactic(auto, using(crate::proofs::FirstFaults::broken_prefix, crate::proofs::SetLines::name_of_set))]
fn define_set(
    alloc: Global,
    sets: &mut Sets,
    patterns: &[Name],
    source: &[u8],
    name: Name,
    tokens: &[Span],
) -> Result<(), DefFault>
    requires { All (IsWithin (length source.now)) tokens.now }
    ensures added { OnOk result (sets.new ≡ sets.old ++ set_of name (texts_at source.now tokens.now) ∷ []) }
    ensures kept { OnOk result (set_faults sets.old patterns.now name (texts_at source.now tokens.now) ≡ []) }
    ensures broken { IfErr result (λ fault. DefBroken source.now fault
        (set_faults sets.old patterns.now name (texts_at source.now tokens.now))) }
    ensures unchanged { OnErr result (sets.new ≡ sets.old) }
{
    let set = read_set(alloc, source, name, tokens)?;
    check_name(sets, patterns, name)?;
    sets.add(set)?;
    Ok(())
}

// What the tokens of a line have made of its set so far.
#[derive(Drop)]
struct SetDraft {
    name: Name,
    members: Vec<Member>,
    outside: bool,
}

// The set of this name and these tokens.
#[tactic(auto, using(crate::proofs::SetLines::broken_here))]
fn read_set(alloc: Global, source: &[u8], name: Name, tokens: &[Span]) -> Result<SetDef, DefFault>
    requires { All (IsWithin (length source.now)) tokens.now }
    ensures set { IfOk result (λ set. set ≡ set_of name (texts_at source.now tokens.now)) }
    ensures kept { OnOk result (set_token_faults (empty_set name) (texts_at source.now tokens.now) ≡ []) }
    ensures broken { IfErr result (λ fault. DefBroken source.now fault
        (set_token_faults (empty_set name) (texts_at source.now tokens.now))) }
{
    let mut draft = SetDraft {
        name,
        members: Vec::new(alloc),
        outside: false,
    };
    for token in tokens {
        read_token(&mut draft, source, *token)?;
    }
    Ok(set_of_draft(draft))
}

// The set that tokens have made.
fn set_of_draft(draft: SetDraft) -> SetDef
    ensures { result ≡ set_of_draft draft }
{
    SetDef {
        name: draft.name,
        members: MemberList::of(draft.members),
        outside: draft.outside,
    }
}

// Adds a token to a set.
fn read_token(draft: &mut SetDraft, source: &[u8], token: Span) -> Result<(), DefFault>
    requires { IsWithin (length source.now) token }
    ensures set { OnOk result (set_of_draft draft.new
        ≡ set_with_token (set_of_draft draft.old) (set_token (text_at source.now token))) }
    ensures kept { let text = text_at source.now token in
        OnOk result (set_token_rows (set_of_draft draft.old) text (set_token text) ≡ []) }
    ensures broken { let text = text_at source.now token in IfErr result (λ fault.
        DefBroken source.now fault (set_token_rows (set_of_draft draft.old) text (set_token text))) }
{
    match set_token(token.text(source)) {
        SetToken::Outside => {
            draft.outside = true;
            Ok(())
        }
        SetToken::Argument(member) => read_argument(draft, token, member),
        SetToken::Other => Err(DefFault::Broken(Rule::A1, Detail::Text(token))),
    }
}

// Adds an argument to a set.
fn read_argument(draft: &mut SetDraft, token: Span, member: Member) -> Result<(), DefFault>
    ensures set { OnOk result (set_of_draft draft.new ≡ set_with_token (set_of_draft draft.old) (argument member)) }
    ensures kept { (text : List ℕ)
        → OnOk result (set_token_rows (set_of_draft draft.old) text (argument member) ≡ []) }
    ensures broken { IfErr result (λ fault. TokenBroken token fault
        (λ text. set_token_rows (set_of_draft draft.old) text (argument member))) }
{
    let Member { ctype, name } = member;
    let members = draft.members.as_slice();
    let count = members.len();
    refuse(is_keyword(name.bytes()), Rule::A4, Detail::Text(token))?;
    refuse(has_member(members, &name), Rule::A2, Detail::Text(token))?;
    refuse(count >= MOST_ARGUMENTS, Rule::A5, Detail::Text(token))?;
    draft.members.push(Member { ctype, name })?;
    Ok(())
}

// Refuses a name that a set or a pattern has.
fn check_name(sets: &Sets, patterns: &[Name], name: Name) -> Result<(), DefFault>
    ensures new { OnOk result (set_at sets.now name ≡ None) }
    ensures kept { OnOk result (whole_set_faults sets.now patterns.now name ≡ []) }
    ensures broken { (source : List ℕ) → IfErr result
        (λ fault. DefBroken source fault (whole_set_faults sets.now patterns.now name)) }
{
    let is_taken = sets.get(name).is_some() || has_name(patterns, name);
    refuse(is_taken, Rule::A3, Detail::Named(name))
}

// Whether the name is one of these.
fn has_name(names: &[Name], name: Name) -> bool
    ensures { result ≡ list_any (is_text name) names.now }
{
    names.iter().any(|other| name == *other)
}
