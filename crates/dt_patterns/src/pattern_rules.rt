//! The rules of the whole line of a pattern.

ghost use Rattle.std.specs.Prelude.{◌≡◌, ◌++◌, ℕ, List, [], length, IfErr, OnOk};
ghost use Rattle.std.specs.Option.{option_copied};
ghost use Rattle.dt_values.specs.Widths.{width_bits};
ghost use Rattle.dt_fields.specs.View.{DefBroken};
ghost use Rattle.dt_scope.specs.ElementRows.{IsSmall};
ghost use Rattle.dt_scope.specs.Fitting.{ValuesFit};
ghost use Rattle.dt_patterns.specs.Inference.{IsNewFormatFree, IsNewSetFree};
ghost use Rattle.dt_patterns.specs.LineBits.{base_values};
ghost use Rattle.dt_patterns.specs.PatternLines.{mask_rows, whole_rows};

use crate::infer::Choice;
use crate::line_arguments::check_arguments;
use crate::line_bits::{
    base_values, bits_with_base, check_base, check_left, check_meeting, fields_with_base,
};
use crate::line_names::check_names;
use dt_fields::{DefFault, Detail, Rule, refuse};
use dt_model::Format;
use dt_scope::gather::Gathered;
use dt_scope::{Bits, Scope};
use dt_values::{Name, Width};

/// Refuses a pattern whose tokens are right, which names this format or none, and which breaks a rule of the whole line.
#[tactic(auto, using(dt_fields::proofs::FirstFaults::broken_prefix))]
pub fn check_pattern(
    width: Width,
    scope: &Scope,
    choice: &Choice,
    base: Option<&Format>,
    name: Name,
    gathered: &Gathered,
) -> Result<(), DefFault>
    requires small { IsSmall (width_bits width) gathered.now }
    requires base { ValuesFit (base_values (option_copied base)) }
    ensures kept { OnOk result
        (whole_rows (width_bits width) scope.now choice.now (option_copied base.entry) name gathered.now ≡ []) }
    ensures free { OnOk result (IsNewSetFree scope.now.sets choice.now) }
    ensures free_format { OnOk result (IsNewFormatFree scope.now.formats choice.now) }
    ensures whole { OnOk result (length gathered.now.digits ≡ width_bits width) }
    ensures broken { (source : List ℕ) → IfErr result (λ fault. DefBroken source fault
        (whole_rows (width_bits width) scope.now choice.now (option_copied base.entry) name gathered.now)) }
{
    let count = gathered.digits.items().len();
    let is_partial = count != width.bits() as usize;
    let has_both = gathered.format.is_some() && gathered.set.is_some();
    refuse(is_partial, Rule::G9, Detail::Number(count as u64))?;
    refuse(has_both, Rule::G13, Detail::None)?;
    let bits = Bits::of_word(width, gathered.digits.items());
    check_base(bits, base)?;
    check_arguments(
        base_values(base),
        gathered.values.items(),
        scope.sets(),
        choice.set,
    )?;
    check_names(scope, choice, name)?;
    check_masks(width, base, gathered)
}

// Refuses masks that share a bit, or leave one.
#[tactic(auto, using(dt_fields::proofs::FirstFaults::broken_prefix))]
fn check_masks(width: Width, base: Option<&Format>, gathered: &Gathered) -> Result<(), DefFault>
    requires small { IsSmall (width_bits width) gathered.now }
    requires base { ValuesFit (base_values (option_copied base)) }
    requires whole { length gathered.now.digits ≡ width_bits width }
    ensures kept { OnOk result (mask_rows (width_bits width) (option_copied base.entry) gathered.now ≡ []) }
    ensures broken { (source : List ℕ) → IfErr result (λ fault. DefBroken source fault
        (mask_rows (width_bits width) (option_copied base.entry) gathered.now)) }
{
    let line = Bits::of_word(width, gathered.digits.items());
    let bits = bits_with_base(line, base);
    let fields = fields_with_base(gathered.values.items(), base);
    match check_meeting(fields, bits) {
        Err(fault) => Err(fault),
        Ok(()) => check_left(width, fields, bits),
    }
}
