//! The rules of a line's arguments.

ghost use Rattle.std.specs.Prelude.{◌≡◌, ◌++◌, ℕ, List, [], slice_get, IfErr, OnOk};
ghost use Rattle.dt_fields.specs.View.{DefBroken};
ghost use Rattle.dt_patterns.specs.LineArguments.{argument_rows, format_argument_rows, missing_argument, missing_rows};
ghost use Rattle.dt_patterns.specs.LineArguments.{outside_argument, outside_rows, shared_argument, shared_rows};

use dt_fields::{DefFault, Detail, Rule, Sets};
use dt_model::FieldValue;
use dt_scope::gather::has_value;
use dt_values::set::has_member;
use dt_values::{Member, Name};

/// Refuses values of a format that aren't of arguments of the set of this number, where it isn't new.
pub fn check_format_arguments(
    values: &[(Name, FieldValue)],
    sets: &Sets,
    set: u32,
) -> Result<(), DefFault>
    ensures kept { OnOk result (format_argument_rows values.now (slice_get sets.now set) ≡ []) }
    ensures broken { (source : List ℕ) → IfErr result (λ fault. DefBroken source fault
        (format_argument_rows values.now (slice_get sets.now set))) }
{
    match sets.at(set as usize) {
        None => Ok(()),
        Some(set) => check_inside(values, set.members.items()),
    }
}

/// Refuses values of a pattern, whose format sets others, that aren't together just those of the arguments of the set of
/// this number, where it isn't new.
pub fn check_arguments(
    base: &[(Name, FieldValue)],
    values: &[(Name, FieldValue)],
    sets: &Sets,
    set: u32,
) -> Result<(), DefFault>
    ensures kept { OnOk result (argument_rows base.now values.now (slice_get sets.now set) ≡ []) }
    ensures broken { (source : List ℕ) → IfErr result (λ fault. DefBroken source fault
        (argument_rows base.now values.now (slice_get sets.now set))) }
{
    match sets.at(set as usize) {
        None => Ok(()),
        Some(set) => check_members(base, values, set.members.items()),
    }
}

#[tactic(auto, using(dt_fields::proofs::FirstFaults::broken_prefix))]
fn check_members(
    base: &[(Name, FieldValue)],
    values: &[(Name, FieldValue)],
    members: &[Member],
) -> Result<(), DefFault>
    ensures kept { OnOk result (outside_rows values.now members.now
        ++ (shared_rows base.now values.now ++ missing_rows base.now values.now members.now) ≡ []) }
    ensures broken { (source : List ℕ) → IfErr result (λ fault. DefBroken source fault
        (outside_rows values.now members.now
        ++ (shared_rows base.now values.now ++ missing_rows base.now values.now members.now))) }
{
    if let Some(name) = outside_argument(values, members) {
        return Err(DefFault::Broken(Rule::G11, Detail::Named(name)));
    }
    if let Some(name) = shared_argument(base, values) {
        return Err(DefFault::Broken(Rule::G16, Detail::Named(name)));
    }
    if let Some(name) = missing_argument(base, values, members) {
        return Err(DefFault::Broken(Rule::G17, Detail::Named(name)));
    }
    Ok(())
}

// Refuses values that aren't of these arguments.
fn check_inside(values: &[(Name, FieldValue)], members: &[Member]) -> Result<(), DefFault>
    ensures kept { OnOk result (outside_rows values.now members.now ≡ []) }
    ensures broken { (source : List ℕ) → IfErr result (λ fault. DefBroken source fault
        (outside_rows values.now members.now)) }
{
    match outside_argument(values, members) {
        Some(name) => Err(DefFault::Broken(Rule::G11, Detail::Named(name))),
        None => Ok(()),
    }
}

// The first argument that isn't in the set.
fn outside_argument(values: &[(Name, FieldValue)], members: &[Member]) -> Option<Name>
    ensures { result ≡ outside_argument values.now members.now }
{
    for value in values {
        if !has_member(members, &value.0) {
            return Some(value.0);
        }
    }
    None
}

// The first argument that the format sets too.
fn shared_argument(base: &[(Name, FieldValue)], values: &[(Name, FieldValue)]) -> Option<Name>
    ensures { result ≡ shared_argument base.now values.now }
{
    for value in values {
        if has_value(base, &value.0) {
            return Some(value.0);
        }
    }
    None
}

// The first argument of the set that neither the format nor the line sets.
fn missing_argument(
    base: &[(Name, FieldValue)],
    values: &[(Name, FieldValue)],
    members: &[Member],
) -> Option<Name>
    ensures { result ≡ missing_argument base.now values.now members.now }
{
    for member in members {
        if !has_value(base, &member.name) && !has_value(values, &member.name) {
            return Some(member.name);
        }
    }
    None
}
