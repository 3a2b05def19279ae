//! Reads assignments.

ghost use Rattle.std.specs.Prelude.{◌≡◌, ◌∷◌, [], option_map, codes};
ghost use Rattle.c_tokens.specs.Tokens.{word, arrow};
ghost use Rattle.c_tokens.specs.Marks.{equals, semicolon};
ghost use Rattle.c_tokens.specs.Parsing.{behind, closed};
ghost use Rattle.c_tokens.specs.Front.{name_at};
ghost use Rattle.c_tokens.specs.Gives.{Gives};
ghost use Rattle.c_exprs.specs.View.{term_of};
ghost use Rattle.c_exprs.specs.ExprParsing.{expr_at, assignment_of, assignment_at, set_argument_at, set_assignment_at};

use crate::expr::Expr;
use crate::read::expr_at;
use c_tokens::{ReadFault, Token, Tokens, name_at, name_behind_at};
use dt_values::{Name, Width};
use std::alloc::Global;

// The argument in `a->ARG =`.
fn argument_at(tokens: &mut Tokens) -> Option<Name>
    ensures { option_map (λ n. (n, tokens.new)) result
        ≡ behind (word (codes "a") ∷ arrow ∷ []) (closed name_at (equals ∷ [])) tokens.old }
{
    tokens.take(&[Token::Word(b"a"), Token::Arrow])?;
    let argument = name_at(tokens)?;
    tokens.take(&[Token::Mark(b'=')])?;
    Some(argument)
}

// The set and the argument in `u.f_S.ARG =`.
#[tactic(auto, unfolding(crate::specs::ExprParsing::set_argument_at))]
fn set_argument_at(tokens: &mut Tokens) -> Option<(Name, Name)>
    ensures { option_map (λ x. (x, tokens.new)) result ≡ set_argument_at tokens.old }
{
    tokens.take(&[Token::Word(b"u"), Token::Mark(b'.')])?;
    let set = name_behind_at(b"f_", tokens)?;
    tokens.take(&[Token::Mark(b'.')])?;
    let argument = name_at(tokens)?;
    tokens.take(&[Token::Mark(b'=')])?;
    Some((set, argument))
}

// The expression in `EXPR;`.
fn value_at(
    alloc: Global,
    in_decoder: bool,
    width: Width,
    tokens: &mut Tokens,
) -> Result<Expr, ReadFault>
    ensures { Gives (λ e. (term_of e, tokens.new)) result
        (closed (expr_at in_decoder width) (semicolon ∷ []) tokens.old) }
{
    let value = expr_at(alloc, in_decoder, width, tokens)?;
    tokens
        .take(&[Token::Mark(b';')])
        .ok_or(ReadFault::NotSubset)?;
    Ok(value)
}

/// The assignment of an extraction that stands first, `a->ARG = EXPR;`: its argument and its value.
#[tactic(auto, unfolding(crate::specs::ExprParsing::assignment_at))]
pub fn assignment_at(
    alloc: Global,
    width: Width,
    tokens: &mut Tokens,
) -> Result<(Name, Expr), ReadFault>
    ensures { Gives (λ a. (assignment_of (a.0, term_of a.1), tokens.new)) result (assignment_at width tokens.old) }
{
    let argument = argument_at(tokens).ok_or(ReadFault::NotSubset)?;
    let value = value_at(alloc, false, width, tokens)?;
    Ok((argument, value))
}

/// The assignment of the decoder that stands first, `u.f_S.ARG = EXPR;`: its set, its argument and its value.
#[tactic(auto, unfolding(crate::specs::ExprParsing::set_assignment_at))]
pub fn set_assignment_at(
    alloc: Global,
    width: Width,
    tokens: &mut Tokens,
) -> Result<((Name, Name), Expr), ReadFault>
    ensures { Gives (λ a. ((a.0, term_of a.1), tokens.new)) result (set_assignment_at width tokens.old) }
{
    let argument = set_argument_at(tokens).ok_or(ReadFault::NotSubset)?;
    let value = value_at(alloc, true, width, tokens)?;
    Ok((argument, value))
}
