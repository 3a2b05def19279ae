//! The rules of a line's bits.

ghost use Rattle.std.specs.Prelude.{◌≡◌, ◌++◌, ℕ, List, [], IfErr, IfSome, OnOk};
ghost use Rattle.std.specs.Option.{option_copied};
ghost use Rattle.dt_values.specs.Widths.{width_bits};
ghost use Rattle.dt_fields.specs.View.{DefBroken};
ghost use Rattle.dt_scope.specs.Bits.{bits_left};
ghost use Rattle.dt_scope.specs.Fitting.{FieldFits, ValueFits, ValuesFit};
ghost use Rattle.dt_model.specs.declared.format.Format.{Format};
ghost use Rattle.dt_model.specs.declared.value.FieldValue.TheVariants.{Field};
ghost use Rattle.dt_patterns.specs.LineBits.{base_rows, base_values, bits_with_base, fields_with_base, left_rows, meeting_rows};
ghost use Rattle.dt_patterns.specs.LineBits.{shared_bits_row, value_mask, values_mask};

use dt_fields::{DefFault, Detail, FieldDef, Rule, refuse, segments_mask};
use dt_model::{FieldValue, Format};
use dt_scope::{Bits, all_bits};
use dt_values::{Name, Width};

/// What the format that a line names sets.
pub fn base_values(base: Option<&Format>) -> &[(Name, FieldValue)]
    ensures { result.now ≡ base_values (option_copied base.entry) }
{
    match base {
        None => &[],
        Some(format) => format.values.items(),
    }
}

/// The bits of a line, joined with those of the format that it names.
pub fn bits_with_base(bits: Bits, base: Option<&Format>) -> Bits
    ensures { result ≡ bits_with_base bits (option_copied base.entry) }
{
    match base {
        None => bits,
        Some(format) => bits.with_format(format),
    }
}

/// The bits of the word that the fields of a line take, and those of the format that it names.
pub fn fields_with_base(values: &[(Name, FieldValue)], base: Option<&Format>) -> u64
    requires values { ValuesFit values.now }
    requires base { ValuesFit (base_values (option_copied base)) }
    ensures { result ≡ fields_with_base values.now (option_copied base.entry) }
{
    values_mask(values) | values_mask(base_values(base))
}

/// The bits of the word that fields take.
pub fn values_mask(values: &[(Name, FieldValue)]) -> u64
    requires { ValuesFit values.now }
    ensures { result ≡ values_mask values.now }
{
    match values.split_first() {
        None => 0,
        Some((value, rest)) => value_mask(&value.1) | values_mask(rest),
    }
}

fn value_mask(value: &FieldValue) -> u64
    requires { ValueFits value.now }
    ensures { result ≡ value_mask value.now }
{
    match value {
        FieldValue::Constant(_) => 0,
        FieldValue::Field(field) => field_mask(field),
    }
}

fn field_mask(field: &FieldDef) -> u64
    requires { FieldFits field.now }
    ensures { result ≡ value_mask (Field field.now) }
{
    segments_mask(field.segments.items())
}

/// Refuses bits of a line that don't go with those of the format that it names.
pub fn check_base(bits: Bits, base: Option<&Format>) -> Result<(), DefFault>
    ensures kept { OnOk result (base_rows bits (option_copied base.entry) ≡ []) }
    ensures broken { (source : List ℕ) → IfErr result (λ fault. DefBroken source fault
        (base_rows bits (option_copied base.entry))) }
{
    match base {
        None => Ok(()),
        Some(format) => check_format_bits(bits, format),
    }
}

fn check_format_bits(bits: Bits, format: &Format) -> Result<(), DefFault>
    ensures kept { OnOk result (base_rows bits (Some format.now) ≡ []) }
    ensures broken { (source : List ℕ) → IfErr result (λ fault. DefBroken source fault
        (base_rows bits (Some format.now))) }
{
    let shared = bits.fixed_mask & format.fixed_mask;
    let is_other = format.bits != 0 && format.bits != bits.count;
    refuse(shared != 0, Rule::G14, Detail::Mask(shared))?;
    refuse(is_other, Rule::G15, Detail::Named(format.name))?;
    Ok(())
}

/// Refuses masks of which two share a bit.
pub fn check_meeting(fields: u64, bits: Bits) -> Result<(), DefFault>
    ensures kept { OnOk result (meeting_rows fields bits ≡ []) }
    ensures broken { (source : List ℕ) → IfErr result (λ fault. DefBroken source fault (meeting_rows fields bits)) }
{
    let fixed = fields & bits.fixed_mask;
    let ignored = fields & bits.ignored;
    let both = bits.fixed_mask & bits.ignored;
    refuse(fixed != 0, Rule::G18, Detail::Mask(fixed))?;
    refuse(ignored != 0, Rule::G19, Detail::Mask(ignored))?;
    refuse(both != 0, Rule::G20, Detail::Mask(both))?;
    Ok(())
}

/// Refuses masks that leave a bit.
pub fn check_left(width: Width, fields: u64, bits: Bits) -> Result<(), DefFault>
    ensures kept { OnOk result (left_rows (width_bits width) fields bits ≡ []) }
    ensures broken { (source : List ℕ) → IfErr result (λ fault. DefBroken source fault
        (left_rows (width_bits width) fields bits)) }
{
    let left = all_bits(width) ^ (bits.fixed_mask | bits.ignored | fields);
    refuse(left != 0, Rule::G21, Detail::Mask(left))
}
