//! The bits of a format or a pattern, laid one behind the other.

ghost use Rattle.std.specs.Prelude.{◌≡◌, ◌+◌, ◌-◌, ◌<◌, ◌≤◌, ◌^◌, [], false, length};
ghost use Rattle.dt_values.specs.Widths.{width_bits};
ghost use Rattle.dt_scope.specs.Bits.{AreBitsBelow, bits_at_top, bits_of, bits_with_format, fixed_digit, ignored_digit};
ghost use Rattle.dt_scope.specs.Bits.{is_partial, one_digit, with_digit, with_digits};

use dt_model::Format;
use dt_values::Width;

/// What the digits of a line say: how many there are, the value of the bits that they fix, and the masks of the
/// bits that they fix and ignore. The last digit is the least significant bit.
#[derive(Clone, Copy, PartialEq, Eq)]
pub struct Bits {
    pub count: u32,
    pub fixed_bits: u64,
    pub fixed_mask: u64,
    pub ignored: u64,
}

impl Bits {
    /// What these digits say, one for each bit of a word.
    #[tactic(auto, using(crate::proofs::PatternDigits::whole_at_top, crate::proofs::Widths::width_bound))]
    pub fn of_word(width: Width, digits: &[u8]) -> Bits
        requires { length digits.now ≡ width_bits width }
        ensures { result ≡ bits_at_top (width_bits width) digits.now }
    {
        Bits::of(digits)
    }

    /// What these digits say, one for each bit of a word, or none.
    #[tactic(auto, using(crate::proofs::PatternDigits::none_at_top))]
    pub fn of_word_or_none(width: Width, digits: &[u8]) -> Bits
        requires { is_partial (width_bits width) digits.now ≡ false }
        ensures { result ≡ bits_at_top (width_bits width) digits.now }
    {
        if digits.len() == width.bits() as usize {
            return Bits::of_word(width, digits);
        }
        Bits::new()
    }

    /// These bits and those that a format fixes and ignores.
    pub fn with_format(self, format: &Format) -> Bits
        ensures { result ≡ bits_with_format self format.now }
    {
        Bits {
            count: self.count,
            fixed_bits: self.fixed_bits | format.fixed_bits,
            fixed_mask: self.fixed_mask | format.fixed_mask,
            ignored: self.ignored | format.ignored,
        }
    }

    /// What these digits say.
    #[tactic(auto, using(crate::proofs::PatternDigits::digits_at_start))]
    pub fn of(digits: &[u8]) -> Bits
        requires { length digits.now ≤ 64 }
        ensures { result ≡ bits_of digits.now }
    {
        Bits::new().with_digits(digits)
    }

    // No digit.
    fn new() -> Bits
        ensures bits { result ≡ bits_of [] }
        ensures below { AreBitsBelow result }
    {
        Bits {
            count: 0,
            fixed_bits: 0,
            fixed_mask: 0,
            ignored: 0,
        }
    }

    // These digits behind the others.
    fn with_digits(self, digits: &[u8]) -> Bits
        requires room { self.count + length digits.now ≤ 64 }
        requires below { AreBitsBelow self }
        ensures bits { result ≡ with_digits self digits.now }
        ensures below { AreBitsBelow result }
    {
        let mut bits = self;
        for digit in digits {
            bits = bits.with_digit(*digit);
        }
        bits
    }

    // One digit behind the others.
    #[tactic(auto, using(crate::proofs::BinaryNumbers::digit_fits, crate::proofs::BinaryNumbers::digit_below))]
    fn with_digit(self, digit: u8) -> Bits
        requires room { self.count < 64 }
        requires below { AreBitsBelow self }
        ensures bits { result ≡ with_digit self digit }
        ensures below { AreBitsBelow result }
    {
        Bits {
            count: self.count + 1,
            fixed_bits: self.fixed_bits * 2 + one_digit(digit),
            fixed_mask: self.fixed_mask * 2 + fixed_digit(digit),
            ignored: self.ignored * 2 + ignored_digit(digit),
        }
    }
}

fn one_digit(digit: u8) -> u64
    ensures value { result ≡ one_digit digit }
    ensures small { result ≤ 1 }
{
    if digit == b'1' { 1 } else { 0 }
}

fn fixed_digit(digit: u8) -> u64
    ensures value { result ≡ fixed_digit digit }
    ensures small { result ≤ 1 }
{
    if digit == b'0' || digit == b'1' { 1 } else { 0 }
}

fn ignored_digit(digit: u8) -> u64
    ensures value { result ≡ ignored_digit digit }
    ensures small { result ≤ 1 }
{
    if digit == b'-' { 1 } else { 0 }
}

/// The mask of all bits of a word.
pub fn all_bits(width: Width) -> u64
    ensures { result ≡ 2 ^ width_bits width - 1 }
{
    match width {
        Width::W16 => 0xffff,
        Width::W32 => 0xffff_ffff,
        Width::W64 => 0xffff_ffff_ffff_ffff,
    }
}
