//! Laws of the tokens of a text. Each function does nothing: its contract is the law.

ghost use Rattle.std.specs.Prelude.{◌≡◌, ℕ, List, Some};
ghost use Rattle.c_tokens.specs.Tokens.{Token, tokens_of};
ghost use Rattle.c_tokens.specs.Lexed.{IsLexed};
ghost use Rattle.c_tokens.specs.Examples.{TokenExamples};
ghost use Rattle.c_tokens.specs.Before.{IsLongestFront, tokens_before};

/// The tokens before the first place that is none are those of the longest front of the text that has tokens. So they
/// are all tokens where the text has some.
#[tactic(auto, using(crate::proofs::Whole::all_before, crate::proofs::Longest::before_longest))]
pub fn law_tokens_before()
    ensures front { (text : List ℕ) → IsLongestFront text (tokens_before text) }
    ensures all { (text : List ℕ) (tokens : List Token) → tokens_of text ≡ Some tokens → tokens_before text ≡ tokens }
{}

/// The tokens that are read of a text are those that the lexical rules give it.
pub fn law_text_is_lexed()
    ensures read { (text : List ℕ) (tokens : List Token) → IsLexed text tokens → tokens_of text ≡ Some tokens }
    ensures lexed { (text : List ℕ) (tokens : List Token) → tokens_of text ≡ Some tokens → IsLexed text tokens }
{}

/// Texts with their tokens.
pub fn examples()
    ensures { TokenExamples }
{}
