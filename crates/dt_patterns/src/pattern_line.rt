//! Reads the line of a pattern.

ghost use Rattle.std.specs.Prelude.{◌≡◌, ℕ, List, [], length, map, All, IfErr, IfOk, OnOk};
ghost use Rattle.dt_lines.specs.Spans.{IsWithin, text_at};
ghost use Rattle.dt_fields.specs.View.{DefBroken};
ghost use Rattle.dt_values.specs.Widths.{width_bits};
ghost use Rattle.dt_scope.specs.ElementRows.{IsSmall};
ghost use Rattle.dt_scope.specs.Fitting.{ValuesFit};
ghost use Rattle.dt_model.specs.Options.{IsOptions};
ghost use Rattle.dt_patterns.specs.Inference.{IsNewFormatFree, IsNewSetFree, choice_of, constants_of, named_format};
ghost use Rattle.dt_patterns.specs.PatternLines.{after_pattern, pattern_faults, pattern_of, pattern_with};
ghost use Rattle.dt_patterns.specs.PatternLines.{scope_with_pattern, whole_rows};

use crate::infer::{Choice, choose, format_in, named_place};
use crate::inferred::{push_new_format, push_new_set, shares_of};
use crate::line_bits::bits_with_base;
use crate::pattern_rules::check_pattern;
use dt_fields::DefFault;
use dt_lines::{Position, Span};
use dt_model::{Options, Pattern, ValueList};
use dt_scope::gather::{Gathered, gather};
use dt_scope::{Bits, Scope};
use dt_values::{Name, Width};
use std::alloc::{AllocError, Global};

/// Adds the pattern of this name and these further tokens of a line, with the set and the format that it brings.
#[tactic(auto, using(dt_fields::proofs::FirstFaults::broken_prefix))]
pub fn add_pattern_line(
    alloc: Global,
    options: &Options,
    scope: &mut Scope,
    source: &[u8],
    position: Position,
    name: Name,
    tokens: &[Span],
) -> Result<(), DefFault>
    requires options { IsOptions options.now }
    requires tokens { All (IsWithin (length source.now)) tokens.now }
    ensures after { OnOk result (scope.new ≡ after_pattern options.now scope.old position name
        (map (text_at source.now) tokens.now)) }
    ensures kept { OnOk result (pattern_faults options.now scope.old name (map (text_at source.now) tokens.now) ≡ []) }
    ensures broken { IfErr result (λ fault. DefBroken source.now fault
        (pattern_faults options.now scope.old name (map (text_at source.now) tokens.now))) }
{
    match gather(alloc, false, options.width, scope, source, tokens) {
        Err(fault) => Err(fault),
        Ok(gathered) => match add_gathered(alloc, options, scope, position, name, gathered) {
            Err(fault) => Err(fault),
            Ok(()) => Ok(()),
        },
    }
}

// Adds the pattern of this name, whose line gives this.
fn add_gathered(
    alloc: Global,
    options: &Options,
    scope: &mut Scope,
    position: Position,
    name: Name,
    gathered: Gathered,
) -> Result<(), DefFault>
    requires options { IsOptions options.now }
    requires small { IsSmall (width_bits options.now.width) gathered }
    ensures after { let choice = choice_of options.now scope.old.sets scope.old.formats gathered in
        OnOk result (scope.new ≡ scope_with_pattern (width_bits options.now.width) scope.old choice gathered.values
        (pattern_of (width_bits options.now.width) choice (named_format scope.old.formats gathered.format) position
        name gathered)) }
    ensures kept { OnOk result (whole_rows (width_bits options.now.width) scope.old
        (choice_of options.now scope.old.sets scope.old.formats gathered)
        (named_format scope.old.formats gathered.format) name gathered ≡ []) }
    ensures broken { (source : List ℕ) → IfErr result (λ fault. DefBroken source fault
        (whole_rows (width_bits options.now.width) scope.old
        (choice_of options.now scope.old.sets scope.old.formats gathered)
        (named_format scope.old.formats gathered.format) name gathered)) }
{
    match checked_choice(alloc, options, scope, name, &gathered) {
        Err(fault) => Err(fault),
        Ok(choice) => {
            match push_chosen(alloc, options, scope, &choice, position, name, gathered) {
                Ok(()) => Ok(()),
                Err(_) => Err(DefFault::NoMemory),
            }
        }
    }
}

// The set and the format of a pattern whose line breaks no rule.
fn checked_choice(
    alloc: Global,
    options: &Options,
    scope: &Scope,
    name: Name,
    gathered: &Gathered,
) -> Result<Choice, DefFault>
    requires options { IsOptions options.now }
    requires small { IsSmall (width_bits options.now.width) gathered.now }
    ensures choice { IfOk result (λ choice.
        choice ≡ choice_of options.now scope.now.sets scope.now.formats gathered.now) }
    ensures free { IfOk result (λ choice. IsNewSetFree scope.now.sets choice) }
    ensures free_format { IfOk result (λ choice. IsNewFormatFree scope.now.formats choice) }
    ensures whole { OnOk result (length gathered.now.digits ≡ width_bits options.now.width) }
    ensures kept { OnOk result (whole_rows (width_bits options.now.width) scope.now
        (choice_of options.now scope.now.sets scope.now.formats gathered.now)
        (named_format scope.now.formats gathered.now.format) name gathered.now ≡ []) }
    ensures broken { (source : List ℕ) → IfErr result (λ fault. DefBroken source fault
        (whole_rows (width_bits options.now.width) scope.now
        (choice_of options.now scope.now.sets scope.now.formats gathered.now)
        (named_format scope.now.formats gathered.now.format) name gathered.now)) }
{
    let place = named_place(scope.formats(), gathered.format);
    let choice = match choose(
        alloc,
        options,
        scope.sets(),
        scope.formats(),
        place,
        gathered,
    ) {
        Ok(choice) => choice,
        Err(_) => return Err(DefFault::NoMemory),
    };
    let base = format_in(scope.formats(), place);
    match check_pattern(options.width, scope, &choice, base, name, gathered) {
        Err(fault) => Err(fault),
        Ok(()) => Ok(choice),
    }
}

// Adds a pattern with its set and its format.
fn push_chosen(
    alloc: Global,
    options: &Options,
    scope: &mut Scope,
    choice: &Choice,
    position: Position,
    name: Name,
    gathered: Gathered,
) -> Result<(), AllocError>
    requires small { IsSmall (width_bits options.now.width) gathered }
    requires choice { choice.now ≡ choice_of options.now scope.old.sets scope.old.formats gathered }
    requires free { IsNewSetFree scope.old.sets choice.now }
    requires free_format { IsNewFormatFree scope.old.formats choice.now }
    requires whole { length gathered.digits ≡ width_bits options.now.width }
    ensures { OnOk result (scope.new ≡ scope_with_pattern (width_bits options.now.width) scope.old choice.now
        gathered.values (pattern_of (width_bits options.now.width) choice.now
        (named_format scope.old.formats gathered.format) position name gathered)) }
{
    let base = format_in(
        scope.formats(),
        named_place(scope.formats(), gathered.format),
    );
    let line = Bits::of_word(options.width, gathered.digits.items());
    let bits = bits_with_base(line, base);
    let is_named = base.is_some();
    if is_named {
        scope.push_pattern(pattern_with(position, name, choice.format, bits, gathered.values))
    } else {
        push_inferred(
            alloc,
            options.width,
            scope,
            choice,
            position,
            name,
            bits,
            gathered.values,
        )
    }
}

// Adds a pattern that names no format, with the set and the format that it brings.
#[tactic(auto, using(crate::proofs::Shares::fields_fit))]
fn push_inferred(
    alloc: Global,
    width: Width,
    scope: &mut Scope,
    choice: &Choice,
    position: Position,
    name: Name,
    bits: Bits,
    values: ValueList,
) -> Result<(), AllocError>
    requires free { IsNewSetFree scope.old.sets choice.now }
    requires free_format { IsNewFormatFree scope.old.formats choice.now }
    requires fits { ValuesFit values }
    ensures { OnOk result (scope.new ≡ scope_with_pattern (width_bits width) scope.old choice.now values
        (pattern_with position name choice.now.format bits (constants_of values))) }
{
    push_new_set(alloc, scope, choice, values.items())?;
    let shares = shares_of(alloc, values)?;
    push_new_format(scope, width, choice, shares.fields)?;
    scope.push_pattern(pattern_with(position, name, choice.format, bits, shares.constants))
}

// The pattern of this name, at a position, with these bits and these values of its own.
fn pattern_with(
    position: Position,
    name: Name,
    format: u32,
    bits: Bits,
    values: ValueList,
) -> Pattern
    ensures { result ≡ pattern_with position name format bits values }
{
    Pattern {
        name,
        file: position.file,
        line: position.line,
        format,
        bits: bits.count,
        fixed_bits: bits.fixed_bits,
        fixed_mask: bits.fixed_mask,
        ignored: bits.ignored,
        values,
    }
}
