//! Reads expressions.

ghost use Rattle.std.specs.Prelude.{◌≡◌, ◌++◌, codes, option_map};
ghost use Rattle.c_tokens.specs.Parsing.{closed};
ghost use Rattle.c_tokens.specs.Front.{name_at};
ghost use Rattle.c_tokens.specs.Gives.{Gives};
ghost use Rattle.c_exprs.specs.Spelling.{helper_digits};
ghost use Rattle.c_exprs.specs.View.{term_of};
ghost use Rattle.c_exprs.specs.ExprParsing.{value_at, plain_at, ctx_open, call_rest_at, function_at, expr_at};

use crate::constant::constant_at;
use crate::expr::Expr;
use crate::fold::fold_at;
use c_tokens::{ReadFault, Token, Tokens, name_at};
use dt_values::{Name, Width};
use std::alloc::Global;

fn signed_type(width: Width) -> &'static [u8]
    ensures { result.now ≡ codes "int" ++ (helper_digits width ++ codes "_t") }
{
    match width {
        Width::W64 => b"int64_t",
        _ => b"int32_t",
    }
}

#[tactic(auto, unfolding(crate::specs::ExprParsing::value_at))]
fn value_at(
    alloc: Global,
    in_decoder: bool,
    width: Width,
    tokens: &mut Tokens,
) -> Result<Expr, ReadFault>
    ensures { Gives (λ e. (term_of e, tokens.new)) result (value_at in_decoder width tokens.old) }
{
    let cast = [
        Token::Mark(b'('),
        Token::Word(signed_type(width)),
        Token::Mark(b')'),
    ];
    if tokens.begins(&cast) {
        tokens.take(&cast).ok_or(ReadFault::NotSubset)?;
        let inner = fold_at(alloc, in_decoder, width, tokens)?;
        Ok(Expr::Cast(Box::new(alloc, inner)?))
    } else {
        fold_at(alloc, in_decoder, width, tokens)
    }
}

#[tactic(auto, unfolding(crate::specs::ExprParsing::plain_at))]
fn plain_at(
    alloc: Global,
    in_decoder: bool,
    width: Width,
    tokens: &mut Tokens,
) -> Result<Expr, ReadFault>
    ensures { Gives (λ e. (term_of e, tokens.new)) result (plain_at in_decoder width tokens.old) }
{
    if tokens.is_constant() {
        let constant = constant_at(tokens).ok_or(ReadFault::NotSubset)?;
        Ok(Expr::Constant(constant))
    } else {
        value_at(alloc, in_decoder, width, tokens)
    }
}

#[tactic(auto, unfolding(crate::specs::ExprParsing::call_rest_at))]
fn call_rest_at(
    alloc: Global,
    in_decoder: bool,
    width: Width,
    tokens: &mut Tokens,
) -> Result<Option<Box<Expr>>, ReadFault>
    ensures { Gives (λ o. (option_map (λ b. term_of b.value) o, tokens.new)) result
        (call_rest_at in_decoder width tokens.old) }
{
    if tokens.begins(&[Token::Mark(b',')]) {
        tokens
            .take(&[Token::Mark(b',')])
            .ok_or(ReadFault::NotSubset)?;
        let argument = plain_at(alloc, in_decoder, width, tokens)?;
        tokens
            .take(&[Token::Mark(b')')])
            .ok_or(ReadFault::NotSubset)?;
        Ok(Some(Box::new(alloc, argument)?))
    } else {
        tokens
            .take(&[Token::Mark(b')')])
            .ok_or(ReadFault::NotSubset)?;
        Ok(None)
    }
}

fn called_name_at(tokens: &mut Tokens) -> Option<Name>
    ensures { option_map (λ n. (n, tokens.new)) result ≡ closed name_at ctx_open tokens.old }
{
    let name = name_at(tokens)?;
    tokens.take(&[Token::Mark(b'('), Token::Word(b"ctx")])?;
    Some(name)
}

#[tactic(auto, unfolding(crate::specs::ExprParsing::function_at), using(crate::proofs::Views::view_function))]
fn function_at(
    alloc: Global,
    in_decoder: bool,
    width: Width,
    tokens: &mut Tokens,
) -> Result<Expr, ReadFault>
    ensures { Gives (λ e. (term_of e, tokens.new)) result (function_at in_decoder width tokens.old) }
{
    let name = called_name_at(tokens).ok_or(ReadFault::NotSubset)?;
    let argument = call_rest_at(alloc, in_decoder, width, tokens)?;
    Ok(Expr::Function(name, argument))
}

/// The expression that stands first. In the decoder an argument is named with its set, and in an extraction alone.
#[tactic(auto, unfolding(crate::specs::ExprParsing::expr_at))]
pub fn expr_at(
    alloc: Global,
    in_decoder: bool,
    width: Width,
    tokens: &mut Tokens,
) -> Result<Expr, ReadFault>
    ensures { Gives (λ e. (term_of e, tokens.new)) result (expr_at in_decoder width tokens.old) }
{
    if tokens.begins_second(&[Token::Mark(b'('), Token::Word(b"ctx")]) {
        function_at(alloc, in_decoder, width, tokens)
    } else {
        plain_at(alloc, in_decoder, width, tokens)
    }
}
