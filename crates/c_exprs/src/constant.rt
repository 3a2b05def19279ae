//! Reads constants.

ghost use Rattle.std.specs.Prelude.{◌≡◌, option_map};
ghost use Rattle.c_tokens.specs.WordParsing.{number_of};
ghost use Rattle.c_exprs.specs.ExprParsing.{positive_of, negative_of, constant_at};

use c_tokens::{Token, Tokens, decimal_of};

// One more than the greatest constant, and the distance of the least one from 0.
const LIMIT: u64 = 1 << 63;

// The number below a limit that a word spells.
fn number_of(limit: u64, word: &[u8]) -> Option<u64>
    ensures { result ≡ number_of limit word.now }
{
    match decimal_of(word) {
        Some(number) if number < limit => Some(number),
        _ => None,
    }
}

#[tactic(auto, using(c_tokens::proofs::WordsRead::number_below))]
fn positive_of(word: &[u8]) -> Option<i64>
    ensures { result ≡ positive_of word.now }
{
    let number = number_of(LIMIT, word)?;
    Some(number as i64)
}

// The constant whose distance below 0 the word spells.
#[tactic(auto, using(c_tokens::proofs::WordsRead::number_below))]
fn negative_of(word: &[u8]) -> Option<i64>
    ensures { result ≡ negative_of word.now }
{
    let number = number_of(LIMIT + 1, word)?;
    if number == 0 {
        return None;
    }
    Some(-((number - 1) as i64) - 1)
}

/// The constant that stands first.
#[tactic(auto, unfolding(crate::specs::ExprParsing::constant_at))]
pub fn constant_at(tokens: &mut Tokens) -> Option<i64>
    ensures { option_map (λ z. (z, tokens.new)) result ≡ constant_at tokens.old }
{
    if tokens.begins(&[Token::Mark(b'-')]) {
        tokens.take(&[Token::Mark(b'-')])?;
        negative_of(tokens.word()?)
    } else {
        positive_of(tokens.word()?)
    }
}
