//! The tokens of field lines.

ghost use Rattle.std.specs.Prelude.{◌≡◌};
ghost use Rattle.dt_fields.specs.FieldTokens.{field_token, is_signed, segment_token, without_sign};
ghost use Rattle.dt_fields.specs.TokenView.{HasDigits, token_seen};

use crate::number::{is_number, parts_at_byte};

// What a token of a field line is. Numbers are kept as they are written.
#[derive(Clone, Copy)]
pub(crate) enum FieldToken<'a> {
    Function(&'a [u8]),
    Bits(&'a [u8], &'a [u8], bool),
    Other,
}

// What this token is.
pub(crate) fn field_token(text: &[u8]) -> FieldToken<'_>
    ensures token { token_seen result ≡ field_token text.now }
    ensures digits { HasDigits result }
{
    if let Some(function) = text.strip_prefix(b"!function=".as_slice()) {
        return FieldToken::Function(function);
    }
    match parts_at_byte(text, b':') {
        None => FieldToken::Other,
        Some((place, length)) => segment_token(place, length),
    }
}

fn segment_token<'a>(place: &'a [u8], length: &'a [u8]) -> FieldToken<'a>
    ensures token { token_seen result ≡ segment_token place.now length.now }
    ensures digits { HasDigits result }
{
    let signed = is_signed(length);
    let digits = without_sign(length);
    if !is_number(place) || !is_number(digits) {
        return FieldToken::Other;
    }
    FieldToken::Bits(place, digits, signed)
}

/// Whether a length has an `s` before it.
pub fn is_signed(length: &[u8]) -> bool
    ensures { result ≡ is_signed length.now }
{
    match length.first() {
        None => false,
        Some(byte) => *byte == b's',
    }
}

/// The digits of a length.
pub fn without_sign(length: &[u8]) -> &[u8]
    ensures { result.now ≡ without_sign length.now }
{
    if !is_signed(length) {
        return length;
    }
    let (_, digits) = length.split_at(1);
    digits
}
