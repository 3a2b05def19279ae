//! Whether two fields are the same.

ghost use Rattle.std.specs.Prelude.{◌≡◌, Some};
ghost use Rattle.std.specs.Cmp.Lexicographic.{pointwise};
ghost use Rattle.dt_fields.specs.declared.segment.Segment.TheVariants.{Bits, Named};
ghost use Rattle.dt_patterns.specs.Inference.{same_field, same_function, same_segment, same_sign, same_value};
ghost use Rattle.dt_model.specs.declared.value.FieldValue.TheVariants.{Field};

use dt_fields::{FieldDef, Segment};
use dt_model::FieldValue;
use dt_values::Name;

/// Whether both are the same field. A constant is none.
pub fn same_value(a: &FieldValue, b: &FieldValue) -> bool
    ensures { result ≡ same_value a.now b.now }
{
    match a {
        FieldValue::Constant(_) => false,
        FieldValue::Field(field) => is_same_field(field, b),
    }
}

fn is_same_field(field: &FieldDef, value: &FieldValue) -> bool
    ensures { result ≡ same_value (Field field.now) value.now }
{
    match value {
        FieldValue::Constant(_) => false,
        FieldValue::Field(other) => same_field(field, other),
    }
}

fn same_field(a: &FieldDef, b: &FieldDef) -> bool
    ensures { result ≡ same_field a.now b.now }
{
    same_segments(a.segments.items(), b.segments.items()) && same_function(&a.function, &b.function)
}

fn same_function(a: &Option<Name>, b: &Option<Name>) -> bool
    ensures { result ≡ same_function a.now b.now }
{
    match a {
        None => b.is_none(),
        Some(name) => is_function(name, b),
    }
}

fn is_function(name: &Name, function: &Option<Name>) -> bool
    ensures { result ≡ same_function (Some name.now) function.now }
{
    match function {
        None => false,
        Some(other) => *name == *other,
    }
}

fn same_segments(a: &[Segment], b: &[Segment]) -> bool
    ensures { result ≡ pointwise same_segment a.now b.now }
{
    match (a.split_first(), b.split_first()) {
        (None, None) => true,
        (Some((a, rest)), Some((b, others))) => same_segment(a, b) && same_segments(rest, others),
        _ => false,
    }
}

fn same_segment(a: &Segment, b: &Segment) -> bool
    ensures { result ≡ same_segment a.now b.now }
{
    match a {
        Segment::Bits {
            pos,
            length,
            signed,
        } => same_bits(*pos, *length, *signed, b),
        Segment::Named {
            name,
            length,
            signed,
        } => same_named(name, *length, *signed, b),
    }
}

fn same_bits(pos: u8, length: u8, signed: bool, other: &Segment) -> bool
    ensures { result ≡ same_segment (Bits pos length signed) other.now }
{
    match other {
        Segment::Named { .. } => false,
        Segment::Bits {
            pos: pos2,
            length: length2,
            signed: signed2,
        } => pos == *pos2 && length == *length2 && same_sign(signed, *signed2),
    }
}

fn same_named(name: &Name, length: u8, signed: bool, other: &Segment) -> bool
    ensures { result ≡ same_segment (Named name.now length signed) other.now }
{
    match other {
        Segment::Bits { .. } => false,
        Segment::Named {
            name: name2,
            length: length2,
            signed: signed2,
        } => *name == *name2 && length == *length2 && same_sign(signed, *signed2),
    }
}

fn same_sign(a: bool, b: bool) -> bool
    ensures { result ≡ same_sign a b }
{
    if a { b } else { !b }
}
