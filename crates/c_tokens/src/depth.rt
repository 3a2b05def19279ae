//! How deep the braces of a text nest.

ghost use Rattle.std.specs.Prelude.{◌≡◌, ◌≤◌, ◌↔◌, IsTrue};
ghost use Rattle.c_tokens.specs.Before.{tokens_before};
ghost use Rattle.c_tokens.specs.Depth.{IsTooDeep, open_after, open_unless_deep};
ghost use Rattle.c_tokens.specs.View.{token_seen, lexeme_seen};

use crate::lexeme::first_lexeme;
use crate::token::Token;

/// The most braces that are open around a token.
pub const MOST_OPEN: usize = 128;

/// Whether a token of the text stands inside more than `MOST_OPEN` open braces. Each brace is counted behind itself. Of
/// a text that has no tokens those count that stand before the first place where none can be.
#[tactic(auto, using(crate::proofs::Deep::depth_steps))]
pub fn is_too_deep(text: &[u8]) -> bool
    ensures { IsTrue result ↔ IsTooDeep (tokens_before text.now) }
{
    let mut braces = 0;
    let mut rest = text;
    while !rest.is_empty() {
        match first_lexeme(rest) {
            None => return false,
            Some((token, behind)) => match open_behind(braces, token) {
                None => return true,
                Some(more) => {
                    braces = more;
                    rest = behind;
                }
            },
        }
    }
    false
}

// How many braces are open behind a token, or behind none. There is no answer where a token stands inside too many.
fn open_behind(braces: usize, token: Option<Token<'_>>) -> Option<usize>
    requires { braces ≤ 129 }
    ensures { result ≡ open_unless_deep braces (lexeme_seen token.entry) }
{
    match token {
        None => Some(braces),
        Some(_) if braces > MOST_OPEN => None,
        Some(token) => Some(open_after(braces, token)),
    }
}

fn open_after(braces: usize, token: Token<'_>) -> usize
    requires { braces ≤ 129 }
    ensures { result ≡ open_after braces (token_seen token.entry) }
{
    match token {
        Token::Mark(b'{') => braces + 1,
        Token::Mark(b'}') => braces.saturating_sub(1),
        _ => braces,
    }
}
