//! The rules of structure: groups, indentation, first tokens.

ghost use Rattle.std.specs.Prelude.{◌≡◌, ◌==◌, ◌*◌, ◌-◌, ◌++◌, ◌∷◌, [], length, map, All, IfErr, OnOk};
ghost use Rattle.dt_lines.specs.Spans.{IsWithin, text_at};
ghost use Rattle.dt_fields.specs.Faults.{token, where_broken};
ghost use Rattle.dt_fields.specs.View.{DefBroken};
ghost use Rattle.dt_fields.specs.declared.rule.Rule.TheVariants as rule;
ghost use Rattle.dt_scope.specs.Groups.{innermost_kind};
ghost use Rattle.dt_forms.specs.Structure.{closing_rows, extra_rows, indentation_row, is_brace, is_mismatched, is_unopened};
ghost use Rattle.dt_forms.specs.Structure.{opening_rows, pattern_row, structure_rows};

use crate::head::Head;
use dt_fields::{DefFault, Detail, Rule, refuse};
use dt_lines::Span;
use dt_model::{MOST_DEPTH, MOST_PATTERNS};
use dt_scope::{Kind, Scope};

/// Refuses a line that breaks a rule of structure.
#[tactic(auto, using(dt_fields::proofs::FirstFaults::broken_prefix))]
pub fn check_structure(
    scope: &Scope,
    indent: u32,
    source: &[u8],
    first: Span,
    rest: &[Span],
    head: Head,
) -> Result<(), DefFault>
    requires first { IsWithin (length source.now) first }
    requires rest { All (IsWithin (length source.now)) rest.now }
    ensures kept { OnOk result (structure_rows scope.now indent (text_at source.now first)
        (map (text_at source.now) rest.now) head ≡ []) }
    ensures broken { IfErr result (λ fault. DefBroken source.now fault (structure_rows scope.now indent
        (text_at source.now first) (map (text_at source.now) rest.now) head)) }
{
    let depth = scope.depth();
    match head {
        Head::Opens(_) => check_opening(depth, indent, source, first, rest),
        Head::Closes(kind) => check_closing(scope, indent, source, first, rest, kind),
        Head::Field(_) | Head::Set(_) | Head::Format(_) => check_indentation(depth, indent, source),
        Head::Pattern(_) => check_pattern(scope, indent, source, first),
        Head::None => check_nameless(depth, indent, source, first),
    }
}

/// Refuses a line that isn't indented as it is to be inside so many groups.
pub fn check_indentation(depth: usize, indent: u32, source: &[u8]) -> Result<(), DefFault>
    ensures kept { OnOk result (indentation_row depth indent ≡ []) }
    ensures broken { IfErr result (λ fault. DefBroken source.now fault (indentation_row depth indent)) }
{
    refuse(
        !is_twice(indent, depth),
        Rule::L1,
        Detail::Number(indent as u64),
    )
}

// Whether a number is twice another.
fn is_twice(number: u32, half: usize) -> bool
    ensures { result ≡ (number == 2 * half) }
{
    number % 2 == 0 && (number / 2) as usize == half
}

// Refuses a line that opens a group inside so many.
#[tactic(auto, using(dt_fields::proofs::FirstFaults::broken_prefix))]
fn check_opening(
    depth: usize,
    indent: u32,
    source: &[u8],
    first: Span,
    rest: &[Span],
) -> Result<(), DefFault>
    requires first { IsWithin (length source.now) first }
    requires rest { All (IsWithin (length source.now)) rest.now }
    ensures kept { OnOk result (indentation_row depth indent ++ opening_rows depth (text_at source.now first)
        (map (text_at source.now) rest.now) ≡ []) }
    ensures broken { IfErr result (λ fault. DefBroken source.now fault (indentation_row depth indent
        ++ opening_rows depth (text_at source.now first) (map (text_at source.now) rest.now))) }
{
    match check_indentation(depth, indent, source) {
        Ok(()) => check_new_group(depth, source, first, rest),
        Err(fault) => Err(fault),
    }
}

// Refuses tokens behind one that opens a group, and one group too many inside one another.
#[tactic(auto, using(dt_fields::proofs::FirstFaults::broken_prefix))]
fn check_new_group(depth: usize, source: &[u8], first: Span, rest: &[Span]) -> Result<(), DefFault>
    requires first { IsWithin (length source.now) first }
    requires rest { All (IsWithin (length source.now)) rest.now }
    ensures kept { OnOk result (opening_rows depth (text_at source.now first) (map (text_at source.now) rest.now)
        ≡ []) }
    ensures broken { IfErr result (λ fault. DefBroken source.now fault
        (opening_rows depth (text_at source.now first) (map (text_at source.now) rest.now))) }
{
    match check_alone(source, rest, Rule::L5) {
        Ok(()) => refuse(depth >= MOST_DEPTH, Rule::L8, Detail::Text(first)),
        Err(fault) => Err(fault),
    }
}

// Refuses tokens behind the first one, by this rule.
fn check_alone(source: &[u8], rest: &[Span], rule: Rule) -> Result<(), DefFault>
    requires { All (IsWithin (length source.now)) rest.now }
    ensures kept { OnOk result (extra_rows rule (map (text_at source.now) rest.now) ≡ []) }
    ensures broken { IfErr result (λ fault. DefBroken source.now fault
        (extra_rows rule (map (text_at source.now) rest.now))) }
{
    match rest.split_first() {
        None => Ok(()),
        Some((second, _)) => Err(DefFault::Broken(rule, Detail::Text(*second))),
    }
}

// Refuses a line that closes a group of this kind.
#[tactic(auto, using(dt_fields::proofs::FirstFaults::broken_prefix))]
fn check_closing(
    scope: &Scope,
    indent: u32,
    source: &[u8],
    first: Span,
    rest: &[Span],
    kind: Kind,
) -> Result<(), DefFault>
    requires first { IsWithin (length source.now) first }
    requires rest { All (IsWithin (length source.now)) rest.now }
    ensures kept { OnOk result (closing_rows (innermost_kind scope.now.groups) (text_at source.now first)
        (map (text_at source.now) rest.now) kind ++ indentation_row (length scope.now.groups - 1) indent ≡ []) }
    ensures broken { IfErr result (λ fault. DefBroken source.now fault (closing_rows (innermost_kind scope.now.groups)
        (text_at source.now first) (map (text_at source.now) rest.now) kind
        ++ indentation_row (length scope.now.groups - 1) indent)) }
{
    match check_close(innermost_kind(scope), source, first, rest, kind) {
        Ok(()) => check_indentation(scope.depth().saturating_sub(1), indent, source),
        Err(fault) => Err(fault),
    }
}

// The kind of the innermost open group.
fn innermost_kind(scope: &Scope) -> Option<Kind>
    ensures { result ≡ innermost_kind scope.now.groups }
{
    match scope.innermost() {
        Some(opening) => Some(opening.kind),
        None => None,
    }
}

// Refuses tokens behind one that closes a group, and one that doesn't close the innermost open group.
#[tactic(auto, using(dt_fields::proofs::FirstFaults::broken_prefix))]
fn check_close(
    innermost: Option<Kind>,
    source: &[u8],
    first: Span,
    rest: &[Span],
    kind: Kind,
) -> Result<(), DefFault>
    requires first { IsWithin (length source.now) first }
    requires rest { All (IsWithin (length source.now)) rest.now }
    ensures kept { OnOk result (closing_rows innermost (text_at source.now first) (map (text_at source.now) rest.now)
        kind ≡ []) }
    ensures broken { IfErr result (λ fault. DefBroken source.now fault
        (closing_rows innermost (text_at source.now first) (map (text_at source.now) rest.now) kind)) }
{
    match check_alone(source, rest, Rule::L2) {
        Ok(()) => check_kind(innermost, source, first, kind),
        Err(fault) => Err(fault),
    }
}

// Refuses to close a group where the innermost open one is of the other kind, or none is open.
fn check_kind(
    innermost: Option<Kind>,
    source: &[u8],
    first: Span,
    kind: Kind,
) -> Result<(), DefFault>
    requires { IsWithin (length source.now) first }
    ensures kept { OnOk result (where_broken (is_mismatched kind innermost) (rule.L3, token (text_at source.now first))
        ++ where_broken (is_unopened kind innermost) (rule.L4, token (text_at source.now first)) ≡ []) }
    ensures broken { IfErr result (λ fault. DefBroken source.now fault
        (where_broken (is_mismatched kind innermost) (rule.L3, token (text_at source.now first))
        ++ where_broken (is_unopened kind innermost) (rule.L4, token (text_at source.now first)))) }
{
    refuse(
        is_mismatched(kind, innermost),
        Rule::L3,
        Detail::Text(first),
    )?;
    refuse(is_unopened(kind, innermost), Rule::L4, Detail::Text(first))?;
    Ok(())
}

// Whether a brace closes where the innermost open group isn't in braces, or a bracket where it is.
fn is_mismatched(kind: Kind, innermost: Option<Kind>) -> bool
    ensures { result ≡ is_mismatched kind innermost }
{
    match kind {
        Kind::Brace => !is_brace(innermost),
        Kind::Bracket => is_brace(innermost),
    }
}

fn is_brace(kind: Option<Kind>) -> bool
    ensures { result ≡ is_brace kind }
{
    match kind {
        Some(Kind::Brace) => true,
        Some(Kind::Bracket) | None => false,
    }
}

// Whether a bracket closes where no group is open.
fn is_unopened(kind: Kind, innermost: Option<Kind>) -> bool
    ensures { result ≡ is_unopened kind innermost }
{
    match kind {
        Kind::Brace => false,
        Kind::Bracket => innermost.is_none(),
    }
}

// Refuses the line of a pattern.
#[tactic(auto, using(dt_fields::proofs::FirstFaults::broken_prefix))]
fn check_pattern(scope: &Scope, indent: u32, source: &[u8], first: Span) -> Result<(), DefFault>
    requires { IsWithin (length source.now) first }
    ensures kept { OnOk result (indentation_row (length scope.now.groups) indent
        ++ pattern_row (length scope.now.patterns) (text_at source.now first) ≡ []) }
    ensures broken { IfErr result (λ fault. DefBroken source.now fault (indentation_row (length scope.now.groups) indent
        ++ pattern_row (length scope.now.patterns) (text_at source.now first))) }
{
    match check_indentation(scope.depth(), indent, source) {
        Ok(()) => {
            let patterns = scope.patterns().items().len();
            refuse(patterns >= MOST_PATTERNS, Rule::L9, Detail::Text(first))
        }
        Err(fault) => Err(fault),
    }
}

// Refuses a line that begins with no mark of a group and no name.
#[tactic(auto, using(dt_fields::proofs::FirstFaults::broken_prefix))]
fn check_nameless(depth: usize, indent: u32, source: &[u8], first: Span) -> Result<(), DefFault>
    requires { IsWithin (length source.now) first }
    ensures kept { OnOk result (indentation_row depth indent ++ (rule.L7, token (text_at source.now first)) ∷ [] ≡ []) }
    ensures broken { IfErr result (λ fault. DefBroken source.now fault
        (indentation_row depth indent ++ (rule.L7, token (text_at source.now first)) ∷ [])) }
{
    match check_indentation(depth, indent, source) {
        Ok(()) => Err(DefFault::Broken(Rule::L7, Detail::Text(first))),
        Err(fault) => Err(fault),
    }
}
