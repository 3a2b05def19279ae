//! Reads segments.

ghost use Rattle.std.specs.Prelude.{◌≡◌, ◌++◌, option_map};
ghost use Rattle.c_tokens.specs.Gives.{Gives};
ghost use Rattle.c_exprs.specs.Spelling.{helper_digits, extract_word};
ghost use Rattle.c_exprs.specs.View.{source_of, term_of};
ghost use Rattle.c_exprs.specs.ExprParsing.{argument_at, source_at, sign_at, begins_right, segment_rest_at, segment_at};

use crate::expr::{Expr, Input};
use c_tokens::{ReadFault, Token, Tokens, name_at, name_behind_at, number_at};
use dt_values::Width;

#[tactic(auto, unfolding(crate::specs::ExprParsing::argument_at))]
fn argument_at(in_decoder: bool, tokens: &mut Tokens) -> Option<Input>
    ensures { option_map (λ x. (source_of x, tokens.new)) result ≡ argument_at in_decoder tokens.old }
{
    if in_decoder {
        tokens.take(&[Token::Word(b"u"), Token::Mark(b'.')])?;
        let set = name_behind_at(b"f_", tokens)?;
        tokens.take(&[Token::Mark(b'.')])?;
        let name = name_at(tokens)?;
        Some(Input::Arg(Some(set), name))
    } else {
        tokens.take(&[Token::Word(b"a"), Token::Arrow])?;
        let name = name_at(tokens)?;
        Some(Input::Arg(None, name))
    }
}

#[tactic(auto, unfolding(crate::specs::ExprParsing::source_at))]
fn source_at(in_decoder: bool, tokens: &mut Tokens) -> Option<Input>
    ensures { option_map (λ x. (source_of x, tokens.new)) result ≡ source_at in_decoder tokens.old }
{
    if tokens.begins(&[Token::Word(b"insn")]) {
        tokens.take(&[Token::Word(b"insn")])?;
        Some(Input::Insn)
    } else {
        argument_at(in_decoder, tokens)
    }
}

fn extract_word(signed: bool, width: Width) -> &'static [u8]
    ensures { result.now ≡ extract_word signed ++ helper_digits width }
{
    match (signed, width) {
        (false, Width::W64) => b"extract64",
        (false, _) => b"extract32",
        (true, Width::W64) => b"sextract64",
        (true, _) => b"sextract32",
    }
}

#[tactic(auto, unfolding(crate::specs::ExprParsing::sign_at))]
fn sign_at(width: Width, tokens: &mut Tokens) -> Option<bool>
    ensures { option_map (λ s. (s, tokens.new)) result ≡ sign_at width tokens.old }
{
    if tokens.begins(&[Token::Word(extract_word(true, width))]) {
        tokens.take(&[Token::Word(extract_word(true, width))])?;
        Some(true)
    } else {
        tokens.take(&[Token::Word(extract_word(false, width))])?;
        Some(false)
    }
}

// Bits of an argument are its lowest.
fn begins_right(from: &Input, pos: u32) -> bool
    ensures { result ≡ begins_right (source_of from.now) pos }
{
    match from {
        Input::Insn => true,
        Input::Arg(_, _) => pos == 0,
    }
}

// The source, the place and the length.
#[tactic(auto, unfolding(crate::specs::ExprParsing::segment_rest_at))]
fn segment_rest_at(in_decoder: bool, tokens: &mut Tokens) -> Option<(Input, u32, u32)>
    ensures { option_map (λ x. ((source_of x.0, (x.1, x.2)), tokens.new)) result
        ≡ segment_rest_at in_decoder tokens.old }
{
    tokens.take(&[Token::Mark(b'(')])?;
    let from = source_at(in_decoder, tokens)?;
    tokens.take(&[Token::Mark(b',')])?;
    let pos = number_at(tokens)?;
    tokens.take(&[Token::Mark(b',')])?;
    let length = number_at(tokens)?;
    tokens.take(&[Token::Mark(b')')])?;
    Some((from, pos, length))
}

/// The segment that stands first.
#[tactic(auto, unfolding(crate::specs::ExprParsing::segment_at))]
pub fn segment_at(in_decoder: bool, width: Width, tokens: &mut Tokens) -> Result<Expr, ReadFault>
    ensures { Gives (λ e. (term_of e, tokens.new)) result (segment_at in_decoder width tokens.old) }
{
    let signed = sign_at(width, tokens).ok_or(ReadFault::NotSubset)?;
    let (from, pos, length) = segment_rest_at(in_decoder, tokens).ok_or(ReadFault::NotSubset)?;
    if !begins_right(&from, pos) {
        return Err(ReadFault::NotSubset);
    }
    Ok(Expr::Segment {
        signed,
        from,
        pos,
        length,
    })
}
