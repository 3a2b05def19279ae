//! Writes the expressions of values.

ghost use Rattle.std.specs.Prelude.{◌≡◌, option_copied};
ghost use Rattle.dt_text.specs.Puts.{Puts};
ghost use Rattle.dt_match.specs.FieldValues.{has_sign};
ghost use Rattle.c_eval.specs.Meaning.{helper_bits};
ghost use Rattle.c_print.specs.ExprLayout.{expr_text, source_text};
ghost use Rattle.c_fields.specs.Values.{HasRoom, HaveRoom};
ghost use Rattle.c_fields.specs.Written.{field_term, folded, joined_term, place_of, segment_term, several_term};
ghost use Rattle.c_fields.specs.Written.{source_of, value_term};

use crate::parts::{
    write_applied, write_argument, write_cast, write_close, write_constant, write_deposit,
    write_extract, write_function, write_last, write_middle,
};
use dt_fields::segment::{segment_length, total_length};
use dt_fields::{FieldDef, Segment};
use dt_model::FieldValue;
use dt_text::{Out, Part, write_parts};
use dt_values::{Name, Width};

fn has_sign(segment: &Segment) -> bool
    ensures { result ≡ has_sign segment.now }
{
    match segment {
        Segment::Bits { signed, .. } => *signed,
        Segment::Named { signed, .. } => *signed,
    }
}

fn place_of(segment: &Segment) -> u32
    ensures { result ≡ place_of segment.now }
{
    match segment {
        Segment::Bits { pos, .. } => *pos as u32,
        Segment::Named { .. } => 0,
    }
}

// On how many bits the helpers work.
fn helper_bits(width: Width) -> u32
    ensures { result ≡ helper_bits width }
{
    match width {
        Width::W16 => 32,
        Width::W32 => 32,
        Width::W64 => 64,
    }
}

// Where a segment's bits come from.
fn write_source<W: Out>(out: &mut W, set: Option<&Name>, segment: &Segment)
    ensures { Puts (W.state out.old) (W.state out.new) (source_text (source_of (option_copied set.entry) segment.now)) }
{
    match segment {
        Segment::Bits { .. } => write_parts(out, &[Part::Text(b"insn")]),
        Segment::Named { name, .. } => write_argument(out, set, name),
    }
}

fn write_segment<W: Out>(out: &mut W, width: Width, set: Option<&Name>, segment: &Segment)
    ensures { Puts (W.state out.old) (W.state out.new)
        (expr_text width (segment_term (option_copied set.entry) segment.now)) }
{
    write_extract(out, width, has_sign(segment));
    write_source(out, set, segment);
    write_last(out, place_of(segment), segment_length(*segment));
}

// Each segment is deposited above all that follow it.
fn write_folded<W: Out>(
    out: &mut W,
    width: Width,
    set: Option<&Name>,
    first: &Segment,
    rest: &[Segment],
)
    requires { HaveRoom (helper_bits width) rest.now }
    ensures { Puts (W.state out.old) (W.state out.new)
        (expr_text width (folded (helper_bits width) (option_copied set.entry) first.now rest.now)) }
{
    match rest.split_first() {
        None => write_segment(out, width, set, first),
        Some((next, others)) => {
            let place = total_length(rest);
            write_deposit(out, width);
            write_folded(out, width, set, next, others);
            write_middle(out, place, helper_bits(width) - place);
            write_segment(out, width, set, first);
            write_close(out);
        }
    }
}

// Several segments are cast where the first is signed.
fn write_several<W: Out>(
    out: &mut W,
    width: Width,
    set: Option<&Name>,
    first: &Segment,
    rest: &[Segment],
)
    requires { HaveRoom (helper_bits width) rest.now }
    ensures { Puts (W.state out.old) (W.state out.new)
        (expr_text width (several_term (helper_bits width) (option_copied set.entry) first.now rest.now)) }
{
    if has_sign(first) {
        write_cast(out, width);
        write_folded(out, width, set, first, rest);
    } else {
        write_folded(out, width, set, first, rest);
    }
}

// The number that segments are.
fn write_joined<W: Out>(out: &mut W, width: Width, set: Option<&Name>, segments: &[Segment])
    requires { HaveRoom (helper_bits width) segments.now }
    ensures { Puts (W.state out.old) (W.state out.new)
        (expr_text width (joined_term (helper_bits width) (option_copied set.entry) segments.now)) }
{
    match segments.split_first() {
        None => write_constant(out, 0),
        Some((first, rest)) => match rest.split_first() {
            None => write_segment(out, width, set, first),
            Some(_) => write_several(out, width, set, first, rest),
        },
    }
}

fn write_field<W: Out>(out: &mut W, width: Width, set: Option<&Name>, field: &FieldDef)
    requires { HaveRoom (helper_bits width) field.now.segments }
    ensures { Puts (W.state out.old) (W.state out.new)
        (expr_text width (field_term (helper_bits width) (option_copied set.entry) field.now)) }
{
    let segments = field.segments.items();
    match &field.function {
        None => write_joined(out, width, set, segments),
        Some(name) => match segments.split_first() {
            None => write_function(out, name),
            Some(_) => {
                write_applied(out, name);
                write_joined(out, width, set, segments);
                write_close(out);
            }
        },
    }
}

// Writes the expression of a value. What segments name are arguments of the decoder, of this set, or those of an
// extraction, which names no set.
pub(crate) fn write_value<W: Out>(out: &mut W, width: Width, set: Option<&Name>, value: &FieldValue)
    requires { HasRoom (helper_bits width) value.now }
    ensures { Puts (W.state out.old) (W.state out.new)
        (expr_text width (value_term (helper_bits width) (option_copied set.entry) value.now)) }
{
    match value {
        FieldValue::Field(field) => write_field(out, width, set, field),
        FieldValue::Constant(number) => write_constant(out, *number),
    }
}
