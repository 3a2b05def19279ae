//! Reads the heads of switches and of their cases.

ghost use Rattle.std.specs.Prelude.{◌≡◌, option_map};
ghost use Rattle.c_tokens.specs.Parsing.{begins};
ghost use Rattle.c_subset.specs.StmtParsing.{switch_word, switch_head_at, starts_case, case_head_at};

use c_tokens::{Token, Tokens, hexadecimal_at};
use dt_values::Width;

/// Whether a switch stands first.
pub(crate) fn begins_switch(tokens: &Tokens) -> bool
    ensures { result ≡ begins switch_word tokens.now }
{
    tokens.begins(&[Token::Word(b"switch")])
}

/// The mask of `switch (insn & MASK) {`.
#[tactic(auto, unfolding(crate::specs::StmtParsing::switch_head_at))]
pub(crate) fn switch_head_at(width: Width, tokens: &mut Tokens) -> Option<u64>
    ensures { option_map (λ m. (m, tokens.new)) result ≡ switch_head_at width tokens.old }
{
    tokens.take(&[
        Token::Word(b"switch"),
        Token::Mark(b'('),
        Token::Word(b"insn"),
        Token::Mark(b'&'),
    ])?;
    let mask = hexadecimal_at(width, tokens)?;
    tokens.take(&[Token::Mark(b')'), Token::Mark(b'{')])?;
    Some(mask)
}

/// Whether a case stands first.
#[tactic(auto, unfolding(crate::specs::StmtParsing::starts_case))]
pub(crate) fn starts_case(tokens: &Tokens) -> bool
    ensures { result ≡ starts_case tokens.now }
{
    tokens.begins(&[Token::Word(b"case")])
}

/// The value of `case VALUE:`.
#[tactic(auto, unfolding(crate::specs::StmtParsing::case_head_at))]
pub(crate) fn case_head_at(width: Width, tokens: &mut Tokens) -> Option<u64>
    ensures { option_map (λ v. (v, tokens.new)) result ≡ case_head_at width tokens.old }
{
    tokens.take(&[Token::Word(b"case")])?;
    let value = hexadecimal_at(width, tokens)?;
    tokens.take(&[Token::Mark(b':')])?;
    Some(value)
}
