//! Reads the line of a format.

ghost use Rattle.std.specs.Prelude.{◌≡◌, ◌++◌, None, false, ℕ, List, [], length, map, All, IfErr, OnOk};
ghost use Rattle.dt_lines.specs.Spans.{IsWithin, text_at};
ghost use Rattle.dt_fields.specs.View.{DefBroken};
ghost use Rattle.dt_values.specs.Widths.{width_bits};
ghost use Rattle.dt_scope.specs.Bits.{bits_at_top, is_partial};
ghost use Rattle.dt_scope.specs.ElementRows.{IsSmall};
ghost use Rattle.dt_scope.specs.FormatsByName.{format_at};
ghost use Rattle.dt_model.specs.Options.{IsOptions};
ghost use Rattle.dt_patterns.specs.FormatLines.{after_format, format_faults, format_with, scope_with_format, whole_format_rows};
ghost use Rattle.dt_patterns.specs.Inference.{IsNewSetFree, format_choice};

use crate::infer::{Choice, format_choice};
use crate::inferred::push_new_set;
use crate::line_arguments::check_format_arguments;
use crate::line_bits::{check_meeting, values_mask};
use crate::line_names::check_new_set;
use dt_fields::{DefFault, Detail, Rule, refuse};
use dt_lines::Span;
use dt_model::{Format, Options, ValueList};
use dt_scope::gather::{Gathered, gather};
use dt_scope::{Bits, Scope};
use dt_values::{Name, Width};
use std::alloc::{AllocError, Global};

/// Adds the format of this name and these further tokens of a line, with the set that it brings.
#[tactic(auto, using(dt_fields::proofs::FirstFaults::broken_prefix))]
pub fn add_format_line(
    alloc: Global,
    options: &Options,
    scope: &mut Scope,
    source: &[u8],
    name: Name,
    tokens: &[Span],
) -> Result<(), DefFault>
    requires options { IsOptions options.now }
    requires tokens { All (IsWithin (length source.now)) tokens.now }
    ensures after { OnOk result (scope.new ≡ after_format options.now scope.old name
        (map (text_at source.now) tokens.now)) }
    ensures kept { OnOk result (format_faults options.now scope.old name (map (text_at source.now) tokens.now) ≡ []) }
    ensures broken { IfErr result (λ fault. DefBroken source.now fault
        (format_faults options.now scope.old name (map (text_at source.now) tokens.now))) }
{
    match gather(alloc, true, options.width, scope, source, tokens) {
        Err(fault) => Err(fault),
        Ok(gathered) => match add_gathered(alloc, options, scope, name, gathered) {
            Err(fault) => Err(fault),
            Ok(()) => Ok(()),
        },
    }
}

// Adds the format of this name, whose line gives this.
fn add_gathered(
    alloc: Global,
    options: &Options,
    scope: &mut Scope,
    name: Name,
    gathered: Gathered,
) -> Result<(), DefFault>
    requires options { IsOptions options.now }
    requires small { IsSmall (width_bits options.now.width) gathered }
    ensures after { OnOk result (scope.new ≡ scope_with_format (width_bits options.now.width) scope.old
        (format_choice options.now scope.old.sets scope.old.formats gathered) name gathered) }
    ensures kept { OnOk result (whole_format_rows (width_bits options.now.width) scope.old
        (format_choice options.now scope.old.sets scope.old.formats gathered) name gathered ≡ []) }
    ensures broken { (source : List ℕ) → IfErr result (λ fault. DefBroken source fault
        (whole_format_rows (width_bits options.now.width) scope.old
        (format_choice options.now scope.old.sets scope.old.formats gathered) name gathered)) }
{
    let choice = match format_choice(alloc, options, scope.sets(), scope.formats(), &gathered) {
        Ok(choice) => choice,
        Err(_) => return Err(DefFault::NoMemory),
    };
    match check_format(options.width, scope, &choice, name, &gathered) {
        Err(fault) => return Err(fault),
        Ok(()) => {}
    }
    match push_format(alloc, options.width, scope, &choice, name, gathered) {
        Ok(()) => Ok(()),
        Err(_) => Err(DefFault::NoMemory),
    }
}

// Refuses a format whose tokens are right, and which breaks a rule of the whole line.
#[tactic(auto, using(dt_fields::proofs::FirstFaults::broken_prefix))]
fn check_format(
    width: Width,
    scope: &Scope,
    choice: &Choice,
    name: Name,
    gathered: &Gathered,
) -> Result<(), DefFault>
    requires small { IsSmall (width_bits width) gathered.now }
    ensures kept { OnOk result (whole_format_rows (width_bits width) scope.now choice.now name gathered.now ≡ []) }
    ensures free { OnOk result (IsNewSetFree scope.now.sets choice.now) }
    ensures new { OnOk result (format_at scope.now.formats name ≡ None) }
    ensures whole { OnOk result (is_partial (width_bits width) gathered.now.digits ≡ false) }
    ensures broken { (source : List ℕ) → IfErr result (λ fault. DefBroken source fault
        (whole_format_rows (width_bits width) scope.now choice.now name gathered.now)) }
{
    let values = gathered.values.items();
    let count = gathered.digits.items().len();
    let is_partial = is_partial(width, gathered.digits.items());
    let is_held = scope.formats().has(&name);
    refuse(is_partial, Rule::G9, Detail::Number(count as u64))?;
    check_format_arguments(values, scope.sets(), choice.set)?;
    refuse(is_held, Rule::G12, Detail::Named(name))?;
    check_new_set(scope, choice)?;
    let bits = Bits::of_word_or_none(width, gathered.digits.items());
    check_meeting(values_mask(values), bits)
}

// Whether these are some bits, but not one for each bit of the word.
fn is_partial(width: Width, digits: &[u8]) -> bool
    ensures { result ≡ is_partial (width_bits width) digits.now }
{
    !digits.is_empty() && digits.len() != width.bits() as usize
}

// Adds the format and the set that it brings.
fn push_format(
    alloc: Global,
    width: Width,
    scope: &mut Scope,
    choice: &Choice,
    name: Name,
    gathered: Gathered,
) -> Result<(), AllocError>
    requires small { IsSmall (width_bits width) gathered }
    requires free { IsNewSetFree scope.old.sets choice.now }
    requires new { format_at scope.old.formats name ≡ None }
    requires whole { is_partial (width_bits width) gathered.digits ≡ false }
    ensures { OnOk result
        (scope.new ≡ scope_with_format (width_bits width) scope.old choice.now name gathered) }
{
    let bits = Bits::of_word_or_none(width, gathered.digits.items());
    push_new_set(alloc, scope, choice, gathered.values.items())?;
    scope.push_format(format_with(name, choice.set, bits, gathered.values))
}

// The format of this name, with the set of this number, these bits and these values.
fn format_with(name: Name, set: u32, bits: Bits, values: ValueList) -> Format
    ensures { result ≡ format_with name set bits values }
{
    Format {
        name,
        set,
        bits: bits.count,
        fixed_bits: bits.fixed_bits,
        fixed_mask: bits.fixed_mask,
        ignored: bits.ignored,
        values,
    }
}
