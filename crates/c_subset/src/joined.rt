//! Words that are a name with fixed bytes behind it, compared part by part.

ghost use Rattle.std.specs.Prelude.{◌≡◌, ◌∷◌, ◌++◌, [], nat_eq, option_map};
ghost use Rattle.std.specs.Cmp.Lexicographic.{pointwise};
ghost use Rattle.c_tokens.specs.Tokens.{word};
ghost use Rattle.c_tokens.specs.Parsing.{after};
ghost use Rattle.c_tokens.specs.WordParsing.{name_behind};
ghost use Rattle.c_tokens.specs.Front.{name_behind_at};

use c_tokens::{Tokens, name_behind};
use dt_values::Name;

#[tactic(auto, using(c_tokens::proofs::WordsRead::behind_found))]
fn exact_name_behind(fixed: &[u8], word: &[u8]) -> Option<Name>
    ensures { result ≡ name_behind fixed.now word.now }
{
    name_behind(fixed, word)
}

/// The name that stands behind another name and fixed bytes in a word.
#[tactic(auto, using(crate::proofs::JoinedWords::behind_steps))]
pub(crate) fn name_behind_both(front: &Name, fixed: &[u8], word: &[u8]) -> Option<Name>
    ensures { result ≡ name_behind (front.now ++ fixed.now) word.now }
{
    exact_name_behind(fixed, word.strip_prefix(front.bytes())?)
}

/// The name that stands behind another name and fixed bytes in the first word.
#[tactic(auto, unfolding(c_tokens::specs::Front::name_behind_at))]
pub(crate) fn name_behind_both_at(front: &Name, fixed: &[u8], tokens: &mut Tokens) -> Option<Name>
    ensures { option_map (λ n. (n, tokens.new)) result ≡ name_behind_at (front.now ++ fixed.now) tokens.old }
{
    name_behind_both(front, fixed, tokens.word()?)
}

#[tactic(auto, using(crate::proofs::JoinedWords::joined_steps))]
fn is_joined(front: &Name, fixed: &[u8], word: &[u8]) -> bool
    ensures { result ≡ pointwise nat_eq (front.now ++ fixed.now) word.now }
{
    match word.strip_prefix(front.bytes()) {
        Some(rest) => fixed == rest,
        None => false,
    }
}

/// Takes the first word, where it is the name with the fixed bytes behind it.
#[tactic(auto, using(crate::proofs::JoinedWords::taken_steps))]
pub(crate) fn take_joined(front: &Name, fixed: &[u8], tokens: &mut Tokens) -> Option<()>
    ensures { option_map (λ _. tokens.new) result ≡ after (word (front.now ++ fixed.now) ∷ []) tokens.old }
{
    let word = tokens.word()?;
    if is_joined(front, fixed, word) {
        Some(())
    } else {
        None
    }
}
