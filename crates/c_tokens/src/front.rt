//! Readers of one word: a name, or a number.

ghost use Rattle.std.specs.Prelude.{◌≡◌, ◌^◌, option_map, decimal};
ghost use Rattle.c_tokens.specs.Words.{hex_length};
ghost use Rattle.c_tokens.specs.WordParsing.{name_behind, number_of, hex_of};
ghost use Rattle.c_tokens.specs.Front.{name_at, name_behind_at, number_at, hexadecimal_at};

use crate::cursor::Tokens;
use crate::words::{decimal_of, hexadecimal_of, name_behind};
use dt_values::{Name, Width};

/// The name that stands first.
#[tactic(auto, unfolding(crate::specs::Front::name_at))]
pub fn name_at(tokens: &mut Tokens) -> Option<Name>
    ensures { option_map (λ n. (n, tokens.new)) result ≡ name_at tokens.old }
{
    Name::from_bytes(tokens.word()?)
}

/// The name that stands behind fixed bytes in the first word.
#[tactic(auto, unfolding(crate::specs::Front::name_behind_at))]
pub fn name_behind_at(fixed: &[u8], tokens: &mut Tokens) -> Option<Name>
    ensures { option_map (λ n. (n, tokens.new)) result ≡ name_behind_at fixed.now tokens.old }
{
    exact_name_behind(fixed, tokens.word()?)
}

#[tactic(auto, using(crate::proofs::WordsRead::behind_found))]
fn exact_name_behind(fixed: &[u8], word: &[u8]) -> Option<Name>
    ensures { result ≡ name_behind fixed.now word.now }
{
    name_behind(fixed, word)
}

/// The number below 2^32 whose decimal digits stand first.
#[tactic(auto, unfolding(crate::specs::Front::number_at))]
pub fn number_at(tokens: &mut Tokens) -> Option<u32>
    ensures { option_map (λ n. (n, tokens.new)) result ≡ number_at tokens.old }
{
    small_number(tokens.word()?)
}

#[tactic(auto, using(crate::proofs::WordsRead::small_none, crate::proofs::WordsRead::small_some, crate::proofs::WordsRead::small_large))]
fn small_number(word: &[u8]) -> Option<u32>
    ensures { result ≡ number_of (2 ^ 32) word.now }
{
    match decimal_of(word) {
        Some(number) if number < 1 << 32 => Some(number as u32),
        _ => None,
    }
}

/// The number whose hexadecimal digits stand first: `0x`, and as many lower-case digits as a word of the width has.
#[tactic(auto, unfolding(crate::specs::Front::hexadecimal_at))]
pub fn hexadecimal_at(width: Width, tokens: &mut Tokens) -> Option<u64>
    ensures { option_map (λ n. (n, tokens.new)) result ≡ hexadecimal_at width tokens.old }
{
    exact_hexadecimal(width, tokens.word()?)
}

#[tactic(auto, using(crate::proofs::WordsRead::hex_found))]
fn exact_hexadecimal(width: Width, word: &[u8]) -> Option<u64>
    ensures { result ≡ hex_of (hex_length width) word.now }
{
    hexadecimal_of(width, word)
}
