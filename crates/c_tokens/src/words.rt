//! Names and numbers that words of a C text spell.

ghost use Rattle.std.specs.Prelude.{◌≡◌, ◌<◌, ◌≤◌, ◌+◌, ◌*◌, ◌^◌, nat_eq, length, MatchOption, decimal};
ghost use Rattle.std.specs.Cmp.Lexicographic.{pointwise};
ghost use Rattle.dt_values.specs.Widths.{width_bits};
ghost use Rattle.dt_text.specs.Hexadecimal.{hex};
ghost use Rattle.c_tokens.specs.Words.{IsNumber, IsNameBehind, IsDigit, hex_bytes, digits_value};

use dt_values::{Name, Width};
use itoa::Buffer;

// The least number that has more than 64 bits.
const TOO_LARGE: u128 = 1 << 64;

/// The name that stands behind fixed bytes, where the word is these bytes and a name.
#[tactic(auto, using(crate::proofs::Fronts::no_front, crate::proofs::Fronts::name_by))]
pub fn name_behind(fixed: &[u8], word: &[u8]) -> Option<Name>
    ensures { IsNameBehind fixed.now word.now result }
{
    Name::from_bytes(word.strip_prefix(fixed)?)
}

/// The number below 2^64 that the word spells in decimal, without leading zeros.
#[tactic(auto, using(crate::proofs::Decimal::decimal_words))]
pub fn decimal_of(word: &[u8]) -> Option<u64>
    ensures { IsNumber (2 ^ 64) decimal word.now result }
{
    let value = digits_value(word)?;
    if is_decimal(word, value) {
        Some(value)
    } else {
        None
    }
}

// The number that decimal digits stand for, where it has at most 64 bits. Any other byte stands for some number too.
#[tactic(auto, using(crate::proofs::Decimal::digit_steps))]
fn digits_value(word: &[u8]) -> Option<u64>
    ensures { MatchOption result (2 ^ 64 ≤ digits_value 0 word.now) (λ n. n ≡ digits_value 0 word.now) }
{
    let mut value: u128 = 0;
    for byte in word {
        value = value * 10 + u128::from(byte.saturating_sub(b'0'));
        if value >= TOO_LARGE {
            return None;
        }
    }
    Some(value as u64)
}

fn is_decimal(word: &[u8], number: u64) -> bool
    ensures { result ≡ pointwise nat_eq word.now (decimal number) }
{
    let mut buffer = Buffer::new();
    word == buffer.format(number).as_bytes()
}

/// The number that the word spells in hexadecimal: `0x`, and as many lower-case digits as a word of the width has.
#[tactic(auto, using(crate::proofs::Hexadecimal::hexadecimal_words))]
pub fn hexadecimal_of(width: Width, word: &[u8]) -> Option<u64>
    ensures { IsNumber (2 ^ width_bits width) (hex_bytes width) word.now result }
{
    let digits = word.strip_prefix(b"0x")?;
    if digits.len() != width.bits() as usize / 4 {
        return None;
    }
    hex_value(digits)
}

// The number of these hexadecimal digits.
#[tactic(auto, using(crate::proofs::Hexadecimal::no_digits, crate::proofs::Hexadecimal::hex_all))]
fn hex_value(digits: &[u8]) -> Option<u64>
    requires { length digits.now ≤ 16 }
    ensures { IsNumber (16 ^ length digits.now) (hex (length digits.now)) digits.now result }
{
    let mut value: u64 = 0;
    for byte in digits {
        match digit(*byte) {
            None => return None,
            Some(digit) => value = value_more(value, digit),
        }
    }
    Some(value)
}

fn value_more(value: u64, digit: u64) -> u64
    requires value { value < 2 ^ 60 }
    requires digit { digit < 16 }
    ensures { result ≡ value * 16 + digit }
{
    value * 16 + digit
}

// What a digit stands for, of `0` to `9` and `a` to `f`.
fn digit(byte: u8) -> Option<u64>
    ensures { IsDigit byte result }
{
    match byte {
        b'0'..=b'9' => Some(u64::from(byte - b'0')),
        b'a'..=b'f' => Some(u64::from(byte - b'a') + 10),
        _ => None,
    }
}
