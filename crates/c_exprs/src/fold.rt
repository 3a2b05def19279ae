//! Reads segments that are put together by deposits. They nest without limit, so loops read them.

ghost use Rattle.std.specs.Prelude.{◌≡◌, ◌+◌, ◌++◌, Some, codes, option_map, replicate};
ghost use Rattle.c_tokens.specs.Parsing.{begins, made};
ghost use Rattle.c_tokens.specs.Gives.{Gives};
ghost use Rattle.c_exprs.specs.Exprs.{deposit};
ghost use Rattle.c_exprs.specs.View.{term_of};
ghost use Rattle.c_exprs.specs.ExprParsing.{deposit_open, opening_at, openings_at, placed_at, times, deposited};
ghost use Rattle.c_exprs.specs.ExprParsing.{fold_at};
ghost use Rattle.c_exprs.specs.Spelling.{helper_digits};

use crate::expr::Expr;
use crate::segment::segment_at;
use c_tokens::{ReadFault, Token, Tokens, number_at};
use dt_values::Width;
use std::alloc::Global;

fn deposit_word(width: Width) -> &'static [u8]
    ensures { result.now ≡ codes "deposit" ++ helper_digits width }
{
    match width {
        Width::W64 => b"deposit64",
        _ => b"deposit32",
    }
}

fn begins_deposit(width: Width, tokens: &Tokens) -> bool
    ensures { result ≡ begins (deposit_open width) tokens.now }
{
    tokens.begins(&[Token::Word(deposit_word(width)), Token::Mark(b'(')])
}

#[tactic(auto, unfolding(crate::specs::ExprParsing::opening_at))]
fn opening_at(width: Width, tokens: &mut Tokens) -> Result<(), ReadFault>
    ensures { Gives (λ u. (u, tokens.new)) result (opening_at width tokens.old) }
{
    tokens
        .take(&[Token::Word(deposit_word(width)), Token::Mark(b'(')])
        .ok_or(ReadFault::NotSubset)?;
    Ok(())
}

// A count that doesn't fit would want more memory than there is.
fn one_more(count: u64) -> Result<u64, ReadFault>
    ensures { Gives (λ more. more) result (Some (count + 1)) }
{
    count.checked_add(1).ok_or(ReadFault::NoMemory)
}

// How many deposits open in a row.
fn openings_at(width: Width, tokens: &mut Tokens) -> Result<u64, ReadFault>
    ensures { Gives (λ n. (replicate n tt, tokens.new)) result (openings_at width tokens.old) }
{
    let mut openings: u64 = 0;
    'more: while begins_deposit(width, tokens) {
        opening_at(width, tokens)?;
        openings = one_more(openings)?;
    }
    Ok(openings)
}

// What stands behind the first part of a deposit: the place, the length and the other part.
#[tactic(auto, unfolding(crate::specs::ExprParsing::placed_at))]
fn placed_at(
    in_decoder: bool,
    width: Width,
    tokens: &mut Tokens,
) -> Result<(u32, u32, Expr), ReadFault>
    ensures { Gives (λ x. ((x.0, (x.1, term_of x.2)), tokens.new)) result (placed_at in_decoder width tokens.old) }
{
    tokens
        .take(&[Token::Mark(b',')])
        .ok_or(ReadFault::NotSubset)?;
    let pos = number_at(tokens).ok_or(ReadFault::NotSubset)?;
    tokens
        .take(&[Token::Mark(b',')])
        .ok_or(ReadFault::NotSubset)?;
    let length = number_at(tokens).ok_or(ReadFault::NotSubset)?;
    tokens
        .take(&[Token::Mark(b',')])
        .ok_or(ReadFault::NotSubset)?;
    let part = segment_at(in_decoder, width, tokens)?;
    tokens
        .take(&[Token::Mark(b')')])
        .ok_or(ReadFault::NotSubset)?;
    Ok((pos, length, part))
}

fn deposit_of(
    alloc: Global,
    into: Expr,
    pos: u32,
    length: u32,
    part: Expr,
) -> Result<Expr, ReadFault>
    ensures { Gives term_of result (Some (deposit (term_of into) pos length (term_of part))) }
{
    Ok(Expr::Deposit(Box::new(alloc, into)?, pos, length, Box::new(alloc, part)?))
}

// So many deposits around a first part, from the innermost on.
fn deposits_at(
    alloc: Global,
    in_decoder: bool,
    width: Width,
    count: u64,
    first: Expr,
    tokens: &mut Tokens,
) -> Result<Expr, ReadFault>
    ensures { Gives (λ e. (term_of e, tokens.new)) result
        (made (deposited (term_of first)) (times count (placed_at in_decoder width)) tokens.old) }
{
    let mut whole = first;
    let mut left = count;
    'more: while left > 0 {
        let (pos, length, part) = placed_at(in_decoder, width, tokens)?;
        whole = deposit_of(alloc, whole, pos, length, part)?;
        left -= 1;
    }
    Ok(whole)
}

/// The segment or the deposits that stand first.
pub fn fold_at(
    alloc: Global,
    in_decoder: bool,
    width: Width,
    tokens: &mut Tokens,
) -> Result<Expr, ReadFault>
    ensures { Gives (λ e. (term_of e, tokens.new)) result (fold_at in_decoder width tokens.old) }
{
    let count = openings_at(width, tokens)?;
    let first = segment_at(in_decoder, width, tokens)?;
    deposits_at(alloc, in_decoder, width, count, first, tokens)
}
