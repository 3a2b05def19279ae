//! The elements of format and pattern lines.

ghost use Rattle.std.specs.Prelude.{◌≡◌, ◌∷◌};
ghost use Rattle.std.specs.List.{list_all};
ghost use Rattle.dt_fields.specs.Parts.{parts_at_byte};
ghost use Rattle.dt_scope.specs.Bits.{is_bit};
ghost use Rattle.dt_scope.specs.ElementView.{HasDigits, element_seen};
ghost use Rattle.dt_scope.specs.Elements.{digits_of, element_of, has_sign, is_mark, is_negative, length_element};
ghost use Rattle.dt_scope.specs.Elements.{lettered_element, marked_element, named_element, number_element, placed_element};
ghost use Rattle.dt_scope.specs.Elements.{value_element};

use dt_fields::field_tokens::{is_signed, without_sign};
use dt_fields::number::{is_number, parts_at_byte};
use dt_values::Name;

/// What a token of a format or pattern line is. Bits and the digits of numbers are kept as they are written.
#[derive(Clone, Copy)]
pub enum Element<'a> {
    /// `&set`.
    Set(Name),
    /// `@format`.
    Format(Name),
    /// `ident=number`: the argument, whether a minus stands before the number, and its digits.
    Constant(Name, bool, &'a [u8]),
    /// `ident=%field`, or `%field`, whose argument has the field's name.
    Field(Name, Name),
    /// `0`, `1`, `.` and `-`.
    Bits(&'a [u8]),
    /// `ident:length`, or `ident:slength` where it is signed.
    InPlace(Name, &'a [u8], bool),
    /// None of these.
    Other,
}

/// What this token is.
pub fn element_of(text: &[u8]) -> Element<'_>
    ensures element { element_seen result ≡ element_of text.now }
    ensures digits { HasDigits result }
{
    if has_bits(text) {
        return Element::Bits(text);
    }
    lettered_element(text)
}

fn has_bits(text: &[u8]) -> bool
    ensures { result ≡ list_all is_bit text.now }
{
    text.iter().all(|byte| *byte == b'0' || *byte == b'1' || *byte == b'.' || *byte == b'-')
}

fn lettered_element(text: &[u8]) -> Element<'_>
    ensures element { element_seen result ≡ lettered_element text.now }
    ensures digits { HasDigits result }
{
    match text.split_first() {
        None => Element::Other,
        Some((mark, name)) => {
            if is_mark(*mark) {
                marked_element(*mark, name)
            } else {
                named_element(text)
            }
        }
    }
}

fn is_mark(byte: u8) -> bool
    ensures { result ≡ is_mark byte }
{
    byte == b'&' || byte == b'@' || byte == b'%'
}

// A name behind a mark.
fn marked_element<'a>(mark: u8, name: &'a [u8]) -> Element<'a>
    ensures element { element_seen result ≡ marked_element mark name.now }
    ensures digits { HasDigits result }
{
    let Some(name) = Name::from_bytes(name) else {
        return Element::Other;
    };
    match mark {
        b'&' => Element::Set(name),
        b'@' => Element::Format(name),
        b'%' => Element::Field(name, name),
        _ => Element::Other,
    }
}

// `ident=` and what stands behind it, and else `ident:`.
fn named_element(text: &[u8]) -> Element<'_>
    ensures element { element_seen result ≡ named_element text.now (parts_at_byte 61 text.now) }
    ensures digits { HasDigits result }
{
    match parts_at_byte(text, b'=') {
        None => placed_element(text),
        Some((name, value)) => match Name::from_bytes(name) {
            None => Element::Other,
            Some(name) => value_element(name, value),
        },
    }
}

fn placed_element(text: &[u8]) -> Element<'_>
    ensures element { element_seen result ≡ placed_element (parts_at_byte 58 text.now) }
    ensures digits { HasDigits result }
{
    match parts_at_byte(text, b':') {
        None => Element::Other,
        Some((name, length)) => match Name::from_bytes(name) {
            None => Element::Other,
            Some(name) => length_element(name, length),
        },
    }
}

fn length_element(name: Name, length: &[u8]) -> Element<'_>
    ensures element { element_seen result ≡ length_element name length.now }
    ensures digits { HasDigits result }
{
    let digits = without_sign(length);
    if !is_number(digits) {
        return Element::Other;
    }
    Element::InPlace(name, digits, is_signed(length))
}

fn value_element(name: Name, value: &[u8]) -> Element<'_>
    ensures element { element_seen result ≡ value_element name value.now }
    ensures digits { HasDigits result }
{
    match value.split_first() {
        None => Element::Other,
        Some((mark, field)) => {
            if *mark == b'%' {
                field_element(name, field)
            } else {
                number_element(name, value)
            }
        }
    }
}

fn field_element<'a>(name: Name, field: &'a [u8]) -> Element<'a>
    ensures element { element_seen result ≡ value_element name (37 ∷ field.now) }
    ensures digits { HasDigits result }
{
    match Name::from_bytes(field) {
        None => Element::Other,
        Some(field) => Element::Field(name, field),
    }
}

fn number_element(name: Name, value: &[u8]) -> Element<'_>
    ensures element { element_seen result ≡ number_element name value.now }
    ensures digits { HasDigits result }
{
    let digits = digits_of(value);
    if !is_number(digits) {
        return Element::Other;
    }
    Element::Constant(name, is_negative(value), digits)
}

// A number without the sign before it.
fn digits_of(value: &[u8]) -> &[u8]
    ensures { result.now ≡ digits_of value.now }
{
    if !has_sign(value) {
        return value;
    }
    let (_, digits) = value.split_at(1);
    digits
}

fn has_sign(value: &[u8]) -> bool
    ensures { result ≡ has_sign value.now }
{
    match value.first() {
        None => false,
        Some(byte) => *byte == b'-' || *byte == b'+',
    }
}

// Whether a minus stands before a number.
fn is_negative(value: &[u8]) -> bool
    ensures { result ≡ is_negative value.now }
{
    match value.first() {
        None => false,
        Some(byte) => *byte == b'-',
    }
}
