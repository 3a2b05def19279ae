//! How a faulty word is printed.

ghost use Rattle.std.specs.Prelude.{◌≡◌};
ghost use Rattle.dt_words.specs.PrintedWords.{character_length, printed_option, printed_short, printed_word};

use crate::roles::{is_long, long_parts};
use crate::usage::Usage;

/// The bytes of a faulty word that are printed: an option without its value, another word whole.
pub fn printed_word(usage: Usage, word: &str) -> &[u8]
    ensures { result.now ≡ printed_word usage word.now }
{
    match usage {
        Usage::U2 | Usage::U3 => printed_option(word),
        Usage::U6 => b"",
        Usage::U1 | Usage::U4 | Usage::U5 | Usage::U7 | Usage::U8 => word.as_bytes(),
    }
}

fn printed_option(word: &str) -> &[u8]
    ensures { result.now ≡ printed_option word.now }
{
    if is_long(word.as_bytes()) {
        let (name, _) = long_parts(word);
        name.as_bytes()
    } else {
        printed_short(word.as_bytes())
    }
}

fn printed_short(word: &[u8]) -> &[u8]
    ensures { result.now ≡ printed_short word.now }
{
    if word.len() < 2 {
        return word;
    }
    let end = word.len().min(1 + character_length(word[1]));
    let (front, _) = word.split_at(end);
    front
}

fn character_length(byte: u8) -> usize
    ensures { result ≡ character_length byte }
{
    match byte {
        0..=127 => 1,
        128..=223 => 2,
        224..=239 => 3,
        _ => 4,
    }
}
