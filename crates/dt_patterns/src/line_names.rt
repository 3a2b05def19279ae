//! The rules of the names that a line brings.

ghost use Rattle.std.specs.Prelude.{◌≡◌, ◌++◌, ℕ, List, [], slice_get, IfErr, OnOk};
ghost use Rattle.dt_fields.specs.View.{DefBroken};
ghost use Rattle.dt_scope.specs.FormatsByName.{is_format};
ghost use Rattle.dt_patterns.specs.Inference.{IsNewFormatFree, IsNewSetFree};
ghost use Rattle.dt_patterns.specs.LineNames.{has_other_set, has_set_name, is_set_name_taken, name_rows, names_other_set};
ghost use Rattle.dt_patterns.specs.LineNames.{new_name_row, new_name_rows, own_name_rows};
ghost use Rattle.dt_model.specs.View.{set_number};

use crate::infer::{Choice, set_of_format};
use dt_fields::{DefFault, Detail, Rule, Sets, refuse};
use dt_model::Pattern;
use dt_scope::{Formats, Patterns, Scope};
use dt_values::Name;

/// Refuses a new name that is taken, and a pattern's name of another set.
pub fn check_names(scope: &Scope, choice: &Choice, name: Name) -> Result<(), DefFault>
    ensures kept { OnOk result (name_rows scope.now choice.now name ≡ []) }
    ensures free { OnOk result (IsNewSetFree scope.now.sets choice.now) }
    ensures free_format { OnOk result (IsNewFormatFree scope.now.formats choice.now) }
    ensures broken { (source : List ℕ) → IfErr result (λ fault. DefBroken source fault
        (name_rows scope.now choice.now name)) }
{
    let set = choice.set;
    let is_others = names_other_set(scope.sets(), set, name);
    let conflicts = has_other_set(scope.formats(), scope.patterns(), set, name);
    if let Some(new) = choice.new_set {
        let is_taken = is_set_name_taken(scope, new);
        refuse(is_taken, Rule::G28, Detail::Named(new))?;
    }
    if let Some(new) = choice.new_format {
        let is_taken = scope.formats().has(&new);
        refuse(is_taken, Rule::G28, Detail::Named(new))?;
    }
    refuse(is_others, Rule::G26, Detail::Named(name))?;
    refuse(conflicts, Rule::G27, Detail::Named(name))?;
    Ok(())
}

/// Refuses the name of a new set that is taken.
pub fn check_new_set(scope: &Scope, choice: &Choice) -> Result<(), DefFault>
    ensures kept { OnOk result (new_name_row (is_set_name_taken scope.now) choice.now.new_set ≡ []) }
    ensures free { OnOk result (IsNewSetFree scope.now.sets choice.now) }
    ensures broken { (source : List ℕ) → IfErr result (λ fault. DefBroken source fault
        (new_name_row (is_set_name_taken scope.now) choice.now.new_set)) }
{
    let Some(new) = choice.new_set else {
        return Ok(());
    };
    let is_taken = is_set_name_taken(scope, new);
    refuse(is_taken, Rule::G28, Detail::Named(new))
}

// Whether a set or an earlier pattern has the name.
fn is_set_name_taken(scope: &Scope, name: Name) -> bool
    ensures { result ≡ is_set_name_taken scope.now name }
{
    scope.sets().get(name).is_some() || scope.patterns().has_name(&name)
}

// Whether a set has the name, and it isn't the one of this number.
fn names_other_set(sets: &Sets, set: u32, name: Name) -> bool
    ensures { result ≡ names_other_set sets.now set name }
{
    sets.get(name).is_some() && !has_set_name(sets, set, name)
}

// Whether the set of this number has the name.
fn has_set_name(sets: &Sets, set: u32, name: Name) -> bool
    ensures { result ≡ has_set_name (slice_get sets.now set) name }
{
    match sets.at(set as usize) {
        None => false,
        Some(set) => name == set.name,
    }
}

// Whether an earlier pattern of the name has a set of another number. A new name takes no look at the patterns.
fn has_other_set(formats: &Formats, patterns: &Patterns, set: u32, name: Name) -> bool
    ensures { result ≡ has_other_set formats.now patterns.now set name }
{
    patterns.has_name(&name) && is_of_other_set(formats, patterns.items(), set, name)
}

fn is_of_other_set(formats: &Formats, patterns: &[Pattern], set: u32, name: Name) -> bool
    ensures { result ≡ has_other_set formats.now patterns.now set name }
{
    patterns.iter().any(|pattern| set_number(formats, pattern) != set && name == pattern.name)
}

// The number of a pattern's set.
fn set_number(formats: &Formats, pattern: &Pattern) -> u32
    ensures { result ≡ set_number formats.now pattern.now }
{
    set_of_format(formats, pattern.format as usize)
}
