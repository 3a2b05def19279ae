//! The tokens of a text.

ghost use Rattle.std.specs.Prelude.{◌≡◌, ◌++◌, Some, None, OnOk, IfOk, IsErrOf};
ghost use Rattle.c_tokens.specs.Tokens.{tokens_of};
ghost use Rattle.c_tokens.specs.View.{tokens_seen, lexeme_seen};
ghost use Rattle.c_tokens.specs.Reading.{as_list};
ghost use Rattle.c_tokens.specs.declared.fault.ReadFault.TheVariants as faults;

use crate::fault::ReadFault;
use crate::lexeme::first_lexeme;
use crate::token::Token;
use std::alloc::{AllocError, Global};

/// The tokens of the text, in order. White space and comments are none. The text has none at all where a byte is in no
/// token, or a comment isn't closed.
#[tactic(auto, using(crate::proofs::Found::found_steps))]
pub fn tokens(alloc: Global, text: &[u8]) -> Result<Vec<Token<'_>>, ReadFault>
    ensures tokens { IfOk result (λ found. tokens_of text.now ≡ Some (tokens_seen found.items)) }
    ensures not_tokens { IsErrOf result faults.NotSubset → tokens_of text.now ≡ None }
{
    let mut found = Vec::new(alloc);
    let mut rest = text;
    while !rest.is_empty() {
        match first_lexeme(rest) {
            None => return Err(ReadFault::NotSubset),
            Some((token, behind)) => {
                push_token(&mut found, token)?;
                rest = behind;
            }
        }
    }
    Ok(found)
}

fn push_token<'a>(found: &mut Vec<Token<'a>>, token: Option<Token<'a>>) -> Result<(), AllocError>
    ensures { OnOk result (tokens_seen found.new.items
        ≡ tokens_seen found.old.items ++ as_list (lexeme_seen token.entry)) }
{
    match token {
        None => {}
        Some(token) => found.push(token)?,
    }
    Ok(())
}
