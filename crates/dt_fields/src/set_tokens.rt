//! The tokens of set lines.

ghost use Rattle.std.specs.Prelude.{◌≡◌, None};
ghost use Rattle.dt_fields.specs.SetTokens.{argument_token, set_token, typed_argument};
ghost use Rattle.dt_fields.specs.TokenView.{set_token_seen};

use crate::number::{ident, parts_at_byte};
use dt_values::{CType, Member};

// What a token of a set line is.
#[derive(Clone, Copy)]
pub(crate) enum SetToken {
    Outside,
    Argument(Member),
    Other,
}

// What this token is.
pub(crate) fn set_token(text: &[u8]) -> SetToken
    ensures { set_token_seen result ≡ set_token text.now }
{
    if text == b"!extern".as_slice() {
        return SetToken::Outside;
    }
    match parts_at_byte(text, b':') {
        None => int_argument(text),
        Some((name, ctype)) => typed_argument(name, ctype),
    }
}

fn int_argument(text: &[u8]) -> SetToken
    ensures { set_token_seen result ≡ argument_token text.now None }
{
    match ident(text) {
        None => SetToken::Other,
        Some(name) => SetToken::Argument(Member {
            ctype: CType::Int,
            name,
        }),
    }
}

fn typed_argument(name: &[u8], ctype: &[u8]) -> SetToken
    ensures { set_token_seen result ≡ typed_argument name.now ctype.now }
{
    let Some(name) = ident(name) else {
        return SetToken::Other;
    };
    match ident(ctype) {
        None => SetToken::Other,
        Some(ctype) => SetToken::Argument(Member {
            ctype: CType::of(ctype),
            name,
        }),
    }
}
