//! Texts of tokens: numbers, identifiers, C names and keywords, and texts with a byte between two parts.

ghost use Rattle.std.specs.Prelude.{◌≡◌, ◌+◌, ◌-◌, ◌*◌, ◌<◌, ◌≤◌, ◌==◌, IfSome, length, min, IsTrue, MatchOption, false, map};
ghost use Rattle.std.specs.Char.{is_ascii_digit};
ghost use Rattle.std.specs.List.{list_all, list_any, position};
ghost use Rattle.std.specs.Option.{SomeIff};
ghost use Rattle.dt_values.specs.Types.{is_text};
ghost use Rattle.dt_fields.specs.CNames.{IsCName, begins_with_letter, is_c_name, is_ident, is_keyword};
ghost use Rattle.dt_fields.specs.Numbers.{decimal, is_number};
ghost use Rattle.dt_fields.specs.Parts.{parts_at_byte, parts_seen};

use dt_values::Name;

/// Where numbers of pattern files are cut off: no rule tells larger ones apart.
pub const LARGEST_NUMBER: u64 = 1 << 33;

/// What stands before and behind the first such byte.
pub fn parts_at_byte(text: &[u8], mark: u8) -> Option<(&[u8], &[u8])>
    ensures { parts_seen result ≡ parts_at_byte mark text.now }
{
    let at = byte_place(text, mark)?;
    let (before, rest) = text.split_at(at);
    let (_, behind) = rest.split_at(1);
    Some((before, behind))
}

// The place of the first such byte.
fn byte_place(text: &[u8], mark: u8) -> Option<usize>
    ensures place { result ≡ position (λ b. b == mark) text.now }
    ensures within { IfSome result (λ at. at < length text.now) }
{
    text.iter().position(|byte| *byte == mark)
}

/// Whether the text is decimal digits.
pub fn is_number(text: &[u8]) -> bool
    ensures { result ≡ is_number text.now }
{
    !text.is_empty() && has_digits(text)
}

fn has_digits(text: &[u8]) -> bool
    ensures { result ≡ list_all is_ascii_digit text.now }
{
    text.iter().all(|byte| byte.is_ascii_digit())
}

/// The number of decimal digits, or the largest number where it is more.
pub fn number_of(digits: &[u8]) -> u64
    requires { IsTrue (list_all is_ascii_digit digits.now) }
    ensures { result ≡ min (decimal digits.now) LARGEST_NUMBER }
{
    let mut number = 0;
    for digit in digits {
        number = with_digit(number, *digit);
    }
    number
}

// The number with one digit more.
fn with_digit(number: u64, digit: u8) -> u64
    requires number { number ≤ LARGEST_NUMBER }
    requires digit { IsTrue (is_ascii_digit digit) }
    ensures { result ≡ min (number * 10 + (digit - 48)) LARGEST_NUMBER }
{
    let more = number * 10 + (digit - b'0') as u64;
    more.min(LARGEST_NUMBER)
}

/// The identifier that the text is.
pub fn ident(text: &[u8]) -> Option<Name>
    ensures { SomeIff result (IsTrue (is_ident text.now)) text.now }
{
    if !begins_with_letter(text) {
        return None;
    }
    Name::from_bytes(text)
}

fn begins_with_letter(text: &[u8]) -> bool
    ensures { result ≡ begins_with_letter text.now }
{
    match text.first() {
        None => false,
        Some(byte) => byte.is_ascii_alphabetic(),
    }
}

/// The C name that the text is.
pub fn c_name(text: &[u8]) -> Option<Name>
    ensures { MatchOption result (is_c_name text.now ≡ false) (λ name. IsCName text.now × (name ≡ text.now)) }
{
    if is_keyword(text) {
        return None;
    }
    ident(text)
}

// The keywords of C without those that begin with an underscore.
const KEYWORDS: [&[u8]; 34] = [
    b"auto",
    b"break",
    b"case",
    b"char",
    b"const",
    b"continue",
    b"default",
    b"do",
    b"double",
    b"else",
    b"enum",
    b"extern",
    b"float",
    b"for",
    b"goto",
    b"if",
    b"inline",
    b"int",
    b"long",
    b"register",
    b"restrict",
    b"return",
    b"short",
    b"signed",
    b"sizeof",
    b"static",
    b"struct",
    b"switch",
    b"typedef",
    b"union",
    b"unsigned",
    b"void",
    b"volatile",
    b"while",
];

/// Whether the text is a keyword.
pub fn is_keyword(text: &[u8]) -> bool
    ensures { result ≡ is_keyword text.now }
{
    is_one_of(KEYWORDS.as_slice(), text)
}

fn is_one_of(words: &[&[u8]], text: &[u8]) -> bool
    ensures { result ≡ list_any (is_text text.now) (map (λ word. word.now) words.now) }
{
    for word in words {
        if text == *word {
            return true;
        }
    }
    false
}
