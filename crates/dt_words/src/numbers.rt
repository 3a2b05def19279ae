//! Numbers of command words.

ghost use Rattle.std.specs.Prelude.{◌≡◌, ◌+◌, ◌*◌, ◌^◌, ◌<◌, ◌≤◌, min, IsTrue};
ghost use Rattle.std.specs.List.{list_all};
ghost use Rattle.dt_words.specs.Numbers.{digit, is_digit, number_in, number_of, value};

// The least number that is too large.
const TOO_LARGE: u128 = 1 << 64;

/// The number that the text is: decimal digits, or `0x` and hexadecimal digits, below 2^64.
pub fn number_of(text: &[u8]) -> Option<u64>
    ensures { result ≡ number_of text.now }
{
    match text.strip_prefix(b"0x") {
        Some(digits) => number_in(16, digits),
        None => number_in(10, text),
    }
}

/// The number below 2^64 that digits of a base are.
pub fn number_in(base: u8, digits: &[u8]) -> Option<u64>
    requires { (1 ≤ base) × (base ≤ 16) }
    ensures { result ≡ number_in base digits.now }
{
    if digits.is_empty() || !has_digits(base, digits) {
        return None;
    }
    let number = value(base, digits);
    if number < TOO_LARGE {
        Some(number as u64)
    } else {
        None
    }
}

fn has_digits(base: u8, digits: &[u8]) -> bool
    ensures { result ≡ list_all (is_digit base) digits.now }
{
    digits.iter().all(|byte| digit(*byte) < base)
}

// The number of these digits, or 2^64 where it is more.
fn value(base: u8, digits: &[u8]) -> u128
    requires base { (1 ≤ base) × (base ≤ 16) }
    requires digits { IsTrue (list_all (is_digit base) digits.now) }
    ensures { result ≡ min (value base digits.now) (2 ^ 64) }
{
    let mut number = 0;
    for byte in digits {
        number = value_more(base, number, *byte);
    }
    number
}

// One digit more.
fn value_more(base: u8, number: u128, byte: u8) -> u128
    requires base { (1 ≤ base) × (base ≤ 16) }
    requires number { number ≤ 2 ^ 64 }
    ensures { result ≡ min (number * base + digit byte) (2 ^ 64) }
{
    let more = number * base as u128 + digit(byte) as u128;
    if more < TOO_LARGE { more } else { TOO_LARGE }
}

// What a digit stands for, and 16 for a byte that is none.
fn digit(byte: u8) -> u8
    ensures value { result ≡ digit byte }
    ensures bound { result ≤ 16 }
{
    match byte {
        b'0'..=b'9' => byte - b'0',
        b'a'..=b'f' => byte - b'a' + 10,
        b'A'..=b'F' => byte - b'A' + 10,
        _ => 16,
    }
}
