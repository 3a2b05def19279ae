//! Reads the line of a field.

ghost use Rattle.std.specs.Prelude.{◌≡◌, ◌<◌, ◌≤◌, ◌++◌, ◌∷◌, [], ℕ, IsTrue, List, length, All, IfOk, IfErr, OnOk, OnErr};
ghost use Rattle.std.specs.Char.{is_ascii_digit};
ghost use Rattle.std.specs.List.{list_all};
ghost use Rattle.dt_values.specs.Widths.{width_bits};
ghost use Rattle.dt_lines.specs.Spans.{IsWithin, AreSpans, text_at};
ghost use Rattle.dt_fields.specs.Cuts.{IsCut};
ghost use Rattle.dt_fields.specs.FieldLines.{begins_field, field_faults, field_line_faults, field_of, field_token_faults, field_token_rows, field_with_token, has_no_value, line_field, no_field, whole_field_faults};
ghost use Rattle.dt_fields.specs.FieldTokens.{field_token, function, segment};
ghost use Rattle.dt_fields.specs.Numbers.{decimal};
ghost use Rattle.dt_fields.specs.View.{DefBroken, TokenBroken, texts_at};
ghost use Rattle.dt_fields.specs.declared.segment.Segment.{Segment};
ghost use Rattle.dt_fields.specs.declared.segment.Segment.TheVariants.{Bits};

use crate::fault::{DefFault, Detail, refuse};
use crate::field::FieldDef;
use crate::field_tokens::{FieldToken, field_token};
use crate::fields::Fields;
use crate::head::{marked_name, split_line};
use crate::number::{c_name, number_of};
use crate::rule::Rule;
use crate::segment::{MOST_SEGMENTS, Segment, Segments, has_overlap, total_length};
use dt_lines::{Logical, Span};
use dt_values::{Name, Width};
use std::alloc::Global;

/// Puts the field of a line last in the table. The line is one of `source`, and begins with `%` and a name.
pub fn field_line(
    alloc: Global,
    width: Width,
    fields: &mut Fields,
    source: &[u8],
    line: &Logical,
) -> Result<(), DefFault>
    requires spans { AreSpans (length source.now) line.now.tokens }
    requires field { IsTrue (begins_field (texts_at source.now line.now.tokens)) }
    ensures added { OnOk result (fields.new ≡ fields.old ++ line_field (texts_at source.now line.now.tokens) ∷ []) }
    ensures kept { OnOk result
        (field_line_faults (width_bits width) fields.old (texts_at source.now line.now.tokens) ≡ []) }
    ensures broken { IfErr result (λ fault. DefBroken source.now fault
        (field_line_faults (width_bits width) fields.old (texts_at source.now line.now.tokens))) }
    ensures unchanged { OnErr result (fields.new ≡ fields.old) }
{
    let (first, rest) = split_line(line.tokens.items());
    let name = marked_name(b'%', first.text(source));
    define_field(alloc, width, fields, source, name, rest)
}

// Puts the field of this name and these tokens of `source` last in the table.
#[tactic(auto, using(crate::proofs::FirstFaults::broken_prefix))]
fn define_field(
    alloc: Global,
    width: Width,
    fields: &mut Fields,
    source: &[u8],
    name: Name,
    tokens: &[Span],
) -> Result<(), DefFault>
    requires { All (IsWithin (length source.now)) tokens.now }
    ensures added { OnOk result (fields.new ≡ fields.old ++ (name, field_of (texts_at source.now tokens.now)) ∷ []) }
    ensures kept { OnOk result
        (field_faults (width_bits width) fields.old name (texts_at source.now tokens.now) ≡ []) }
    ensures broken { IfErr result (λ fault. DefBroken source.now fault
        (field_faults (width_bits width) fields.old name (texts_at source.now tokens.now))) }
    ensures unchanged { OnErr result (fields.new ≡ fields.old) }
{
    let field = read_field(alloc, width, source, tokens)?;
    check_field(width, fields, name, &field)?;
    fields.add(name, field)?;
    Ok(())
}

// The field of these tokens.
#[tactic(auto, using(crate::proofs::FieldLines::broken_here))]
fn read_field(
    alloc: Global,
    width: Width,
    source: &[u8],
    tokens: &[Span],
) -> Result<FieldDef, DefFault>
    requires { All (IsWithin (length source.now)) tokens.now }
    ensures field { IfOk result (λ field. field ≡ field_of (texts_at source.now tokens.now)) }
    ensures few { IfOk result (λ field. length field.segments ≤ MOST_SEGMENTS) }
    ensures kept { OnOk result (field_token_faults (width_bits width) no_field (texts_at source.now tokens.now) ≡ []) }
    ensures broken { IfErr result (λ fault. DefBroken source.now fault
        (field_token_faults (width_bits width) no_field (texts_at source.now tokens.now))) }
{
    let mut field = FieldDef {
        segments: Segments::new(alloc),
        function: None,
    };
    for token in tokens {
        read_token(width, &mut field, source, *token)?;
    }
    Ok(field)
}

// Adds a token to a field.
fn read_token(
    width: Width,
    field: &mut FieldDef,
    source: &[u8],
    token: Span,
) -> Result<(), DefFault>
    requires within { IsWithin (length source.now) token }
    requires few { length field.old.segments ≤ MOST_SEGMENTS }
    ensures field { OnOk result (field.new ≡ field_with_token field.old (field_token (text_at source.now token))) }
    ensures few { OnOk result (length field.new.segments ≤ MOST_SEGMENTS) }
    ensures kept { let text = text_at source.now token in
        OnOk result (field_token_rows (width_bits width) field.old text (field_token text) ≡ []) }
    ensures broken { let text = text_at source.now token in IfErr result (λ fault. DefBroken source.now fault
        (field_token_rows (width_bits width) field.old text (field_token text))) }
{
    match field_token(token.text(source)) {
        FieldToken::Function(name) => read_function(field, token, name),
        FieldToken::Bits(pos, length, signed) => {
            read_bits(width, field, token, pos, length, signed)
        }
        FieldToken::Other => Err(DefFault::Broken(Rule::P2, Detail::Text(token))),
    }
}

// Adds a function to a field.
fn read_function(field: &mut FieldDef, token: Span, name: &[u8]) -> Result<(), DefFault>
    requires few { length field.old.segments ≤ MOST_SEGMENTS }
    ensures field { OnOk result (field.new ≡ field_with_token field.old (function name.now)) }
    ensures few { OnOk result (length field.new.segments ≤ MOST_SEGMENTS) }
    ensures kept { (width : ℕ) (text : List ℕ)
        → OnOk result (field_token_rows width field.old text (function name.now) ≡ []) }
    ensures broken { (width : ℕ) → IfErr result (λ fault. TokenBroken token fault
        (λ text. field_token_rows width field.old text (function name.now))) }
{
    refuse(field.function.is_some(), Rule::P1, Detail::Text(token))?;
    let name = c_name(name).ok_or(DefFault::Broken(Rule::P9, Detail::Text(token)))?;
    field.function = Some(name);
    Ok(())
}

// Adds bits of the word to a field.
fn read_bits(
    width: Width,
    field: &mut FieldDef,
    token: Span,
    pos: &[u8],
    digits: &[u8],
    signed: bool,
) -> Result<(), DefFault>
    requires pos { IsTrue (list_all is_ascii_digit pos.now) }
    requires digits { IsTrue (list_all is_ascii_digit digits.now) }
    requires few { length field.old.segments ≤ MOST_SEGMENTS }
    ensures field { OnOk result
        (field.new ≡ field_with_token field.old (segment (Bits (decimal pos.now) (decimal digits.now) signed))) }
    ensures few { OnOk result (length field.new.segments ≤ MOST_SEGMENTS) }
    ensures kept { let bits = Bits (decimal pos.now) (decimal digits.now) signed in
        (text : List ℕ) → OnOk result (field_token_rows (width_bits width) field.old text (segment bits) ≡ []) }
    ensures broken { let bits = Bits (decimal pos.now) (decimal digits.now) signed in IfErr result
        (λ fault. TokenBroken token fault (λ text. field_token_rows (width_bits width) field.old text (segment bits))) }
{
    let start = number_of(pos);
    let bits = number_of(digits);
    match check_segment(width, field, token, start + bits, bits) {
        Ok(()) => {}
        Err(fault) => return Err(fault),
    }
    field.segments.push(Segment::Bits {
        pos: start as u8,
        length: bits as u8,
        signed,
    })?;
    Ok(())
}

// Refuses a segment that can't stand behind those of a field. Its end and its length may be cut off.
fn check_segment(
    width: Width,
    before: &FieldDef,
    token: Span,
    end: u64,
    bits: u64,
) -> Result<(), DefFault>
    requires { length before.now.segments ≤ MOST_SEGMENTS }
    ensures small { OnOk result (end ≤ 64) }
    ensures room { OnOk result (length before.now.segments < MOST_SEGMENTS) }
    ensures kept { (s : Segment) (text : List ℕ) → IsCut width s end bits
        → OnOk result (field_token_rows (width_bits width) before.now text (segment s) ≡ []) }
    ensures broken { (s : Segment) → IsCut width s end bits → IfErr result
        (λ fault. TokenBroken token fault (λ text. field_token_rows (width_bits width) before.now text (segment s))) }
{
    let count = before.segments.items().len();
    refuse(bits == 0, Rule::P8, Detail::Text(token))?;
    refuse(end > width.bits() as u64, Rule::P3, Detail::Text(token))?;
    refuse(count >= MOST_SEGMENTS, Rule::P10, Detail::Text(token))?;
    Ok(())
}

// Refuses a field whose tokens are right, and which breaks a rule of the whole line.
fn check_field(width: Width, fields: &Fields, name: Name, field: &FieldDef) -> Result<(), DefFault>
    requires { length field.now.segments ≤ MOST_SEGMENTS }
    ensures kept { OnOk result (whole_field_faults (width_bits width) fields.now name field.now ≡ []) }
    ensures broken { (source : List ℕ) → IfErr result
        (λ fault. DefBroken source fault (whole_field_faults (width_bits width) fields.now name field.now)) }
{
    let segments = field.segments.items();
    let total = total_length(segments);
    refuse(total > width.bits(), Rule::P4, Detail::Number(total as u64))?;
    refuse(has_no_value(field), Rule::P5, Detail::None)?;
    refuse(has_overlap(segments), Rule::P6, Detail::Named(name))?;
    refuse(fields.get(name).is_some(), Rule::P7, Detail::Named(name))?;
    Ok(())
}

// Whether the field has neither a segment nor a function.
fn has_no_value(field: &FieldDef) -> bool
    ensures { result ≡ has_no_value field.now }
{
    field.segments.items().is_empty() && field.function.is_none()
}
