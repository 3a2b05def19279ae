//! Reads the load function.

ghost use Rattle.std.specs.Prelude.{◌≡◌, option_map, map};
ghost use Rattle.c_tokens.specs.Gives.{Gives};
ghost use Rattle.c_tokens.specs.Parsing.{after, many};
ghost use Rattle.c_subset.specs.Programs.{word_type, return_insn_spelled};
ghost use Rattle.c_subset.specs.View.{load_of};
ghost use Rattle.c_subset.specs.ReadView.{load_case_of, load_switch_of, maybe_switch_of};
ghost use Rattle.c_subset.specs.StmtParsing.{starts_case, has_item};
ghost use Rattle.c_subset.specs.LoadParsing.{bytes_open, bytes_at, maybe_bytes_at, load_case_at, load_switch_at, maybe_switch_at, load_block_at, load_inner_at, load_at, load_type, load_open, insn_zero, some_load_at, load_function_at};

use crate::joined::take_joined;
use crate::load::LoadBlock;
use crate::switches::{begins_switch, case_head_at, starts_case, switch_head_at};
use c_tokens::{ReadFault, Token, Tokens, number_at};
use dt_values::{Name, Width};
use std::alloc::Global;

// Takes `(ctx, insn,`.
fn take_bytes_open(tokens: &mut Tokens) -> Option<()>
    ensures { option_map (λ _. tokens.new) result ≡ after bytes_open tokens.old }
{
    tokens.take(&[
        Token::Mark(b'('),
        Token::Word(b"ctx"),
        Token::Mark(b','),
        Token::Word(b"insn"),
        Token::Mark(b','),
    ])
}

// The numbers of `insn = F_load_bytes(ctx, insn, FROM, TO);`, with F the decoder's name.
#[tactic(auto, unfolding(crate::specs::LoadParsing::bytes_at))]
fn bytes_at(decoder: &Name, tokens: &mut Tokens) -> Option<(u32, u32)>
    ensures { option_map (λ b. (b, tokens.new)) result ≡ bytes_at decoder.now tokens.old }
{
    tokens.take(&[Token::Word(b"insn"), Token::Mark(b'=')])?;
    take_joined(decoder, b"_load_bytes", tokens)?;
    take_bytes_open(tokens)?;
    let from = number_at(tokens)?;
    tokens.take(&[Token::Mark(b',')])?;
    let to = number_at(tokens)?;
    tokens.take(&[Token::Mark(b')'), Token::Mark(b';')])?;
    Some((from, to))
}

#[tactic(auto, unfolding(crate::specs::LoadParsing::maybe_bytes_at))]
fn maybe_bytes_at(decoder: &Name, tokens: &mut Tokens) -> Option<Option<(u32, u32)>>
    ensures { option_map (λ b. (b, tokens.new)) result ≡ maybe_bytes_at decoder.now tokens.old }
{
    if tokens.begins(&[Token::Word(b"insn")]) {
        let bytes = bytes_at(decoder, tokens)?;
        Some(Some(bytes))
    } else {
        Some(None)
    }
}

fn has_load_case(cases: &[(u64, LoadBlock)]) -> bool
    ensures { result ≡ has_item (map load_case_of cases.now) }
{
    match cases.split_first() {
        None => false,
        Some(_) => true,
    }
}

#[cycle(load_blocks)]
#[tactic(auto, unfolding(crate::specs::LoadParsing::load_case_at))]
fn load_case_at(
    alloc: Global,
    width: Width,
    decoder: &Name,
    braces: u32,
    tokens: &mut Tokens,
) -> Result<(u64, LoadBlock), ReadFault>
    ensures { Gives (λ c. (load_case_of c, tokens.new)) result
        (load_case_at width (load_inner_at width decoder.now braces) tokens.old) }
{
    let value = case_head_at(width, tokens).ok_or(ReadFault::NotSubset)?;
    let block = load_inner_at(alloc, width, decoder, braces, tokens)?;
    Ok((value, block))
}

#[cycle(load_blocks)]
#[tactic(auto)]
fn load_cases_at(
    alloc: Global,
    width: Width,
    decoder: &Name,
    braces: u32,
    tokens: &mut Tokens,
) -> Result<Vec<(u64, LoadBlock)>, ReadFault>
    ensures { Gives (λ cs. (map load_case_of cs.items, tokens.new)) result
        (many starts_case (load_case_at width (load_inner_at width decoder.now braces)) tokens.old) }
{
    let mut cases = Vec::new(alloc);
    'more: while starts_case(tokens) {
        cases.push(load_case_at(alloc, width, decoder, braces, tokens)?)?;
    }
    Ok(cases)
}

#[cycle(load_blocks)]
#[tactic(auto, unfolding(crate::specs::LoadParsing::load_switch_at))]
fn load_switch_at(
    alloc: Global,
    width: Width,
    decoder: &Name,
    braces: u32,
    tokens: &mut Tokens,
) -> Result<(u64, Vec<(u64, LoadBlock)>), ReadFault>
    ensures { Gives (λ x. (load_switch_of x, tokens.new)) result
        (load_switch_at width (load_inner_at width decoder.now braces) tokens.old) }
{
    let mask = switch_head_at(width, tokens).ok_or(ReadFault::NotSubset)?;
    let cases = load_cases_at(alloc, width, decoder, braces, tokens)?;
    if !has_load_case(&cases) {
        return Err(ReadFault::NotSubset);
    }
    tokens
        .take(&[Token::Mark(b'}')])
        .ok_or(ReadFault::NotSubset)?;
    Ok((mask, cases))
}

#[cycle(load_blocks)]
#[tactic(auto, unfolding(crate::specs::LoadParsing::maybe_switch_at))]
fn maybe_switch_at(
    alloc: Global,
    width: Width,
    decoder: &Name,
    braces: u32,
    tokens: &mut Tokens,
) -> Result<Option<(u64, Vec<(u64, LoadBlock)>)>, ReadFault>
    ensures { Gives (λ x. (maybe_switch_of x, tokens.new)) result
        (maybe_switch_at width (load_inner_at width decoder.now braces) tokens.old) }
{
    if begins_switch(tokens) {
        let switch = load_switch_at(alloc, width, decoder, braces, tokens)?;
        Ok(Some(switch))
    } else {
        Ok(None)
    }
}

// Takes `return insn;`.
fn take_return(tokens: &mut Tokens) -> Option<()>
    ensures { option_map (λ _. tokens.new) result ≡ after return_insn_spelled tokens.old }
{
    tokens.take(&[
        Token::Word(b"return"),
        Token::Word(b"insn"),
        Token::Mark(b';'),
    ])
}

#[cycle(load_blocks)]
#[tactic(auto, unfolding(crate::specs::LoadParsing::load_block_at))]
fn load_block_at(
    alloc: Global,
    width: Width,
    decoder: &Name,
    braces: u32,
    tokens: &mut Tokens,
) -> Result<LoadBlock, ReadFault>
    ensures { Gives (λ b. (load_of b, tokens.new)) result
        (load_block_at width decoder.now (load_inner_at width decoder.now braces) tokens.old) }
{
    let load = maybe_bytes_at(decoder, tokens).ok_or(ReadFault::NotSubset)?;
    let switch = maybe_switch_at(alloc, width, decoder, braces, tokens)?;
    take_return(tokens).ok_or(ReadFault::NotSubset)?;
    Ok(LoadBlock { load, switch })
}

// The block of a case, whose braces nest less deep than the number.
#[cycle(load_blocks)]
#[tactic(auto, unfolding(crate::specs::LoadParsing::load_inner_at))]
fn load_inner_at(
    alloc: Global,
    width: Width,
    decoder: &Name,
    braces: u32,
    tokens: &mut Tokens,
) -> Result<LoadBlock, ReadFault>
    ensures { Gives (λ b. (load_of b, tokens.new)) result (load_inner_at width decoder.now braces tokens.old) }
{
    if braces == 0 {
        return Err(ReadFault::NotSubset);
    }
    load_block_at(alloc, width, decoder, braces - 1, tokens)
}

#[tactic(auto, unfolding(crate::specs::LoadParsing::load_at))]
fn load_at(
    alloc: Global,
    width: Width,
    decoder: &Name,
    braces: u32,
    tokens: &mut Tokens,
) -> Result<LoadBlock, ReadFault>
    ensures { Gives (λ b. (load_of b, tokens.new)) result (load_at width decoder.now braces tokens.old) }
{
    load_block_at(alloc, width, decoder, braces, tokens)
}

// The unsigned type of a word.
fn word_type(width: Width) -> &'static [u8]
    ensures { result.now ≡ word_type width }
{
    match width {
        Width::W16 => b"uint16_t",
        Width::W32 => b"uint32_t",
        Width::W64 => b"uint64_t",
    }
}

// Takes the type that the function answers, with `static` where it is so.
fn take_load_type(width: Width, is_static: bool, tokens: &mut Tokens) -> Option<()>
    ensures { option_map (λ _. tokens.new) result ≡ after (load_type width is_static) tokens.old }
{
    if is_static {
        tokens.take(&[Token::Word(b"static"), Token::Word(word_type(width))])
    } else {
        tokens.take(&[Token::Word(word_type(width))])
    }
}

// Takes `(DisasContext *ctx) {`.
fn take_load_open(tokens: &mut Tokens) -> Option<()>
    ensures { option_map (λ _. tokens.new) result ≡ after load_open tokens.old }
{
    tokens.take(&[
        Token::Mark(b'('),
        Token::Word(b"DisasContext"),
        Token::Mark(b'*'),
        Token::Word(b"ctx"),
        Token::Mark(b')'),
        Token::Mark(b'{'),
    ])
}

// Takes `uintW_t insn = 0;`.
fn take_insn_zero(width: Width, tokens: &mut Tokens) -> Option<()>
    ensures { option_map (λ _. tokens.new) result ≡ after (insn_zero width) tokens.old }
{
    tokens.take(&[
        Token::Word(word_type(width)),
        Token::Word(b"insn"),
        Token::Mark(b'='),
        Token::Word(b"0"),
        Token::Mark(b';'),
    ])
}

#[tactic(auto, unfolding(crate::specs::LoadParsing::some_load_at))]
fn some_load_at(
    alloc: Global,
    width: Width,
    decoder: &Name,
    is_static: bool,
    braces: u32,
    tokens: &mut Tokens,
) -> Result<LoadBlock, ReadFault>
    ensures { Gives (λ b. (load_of b, tokens.new)) result (some_load_at width decoder.now is_static braces tokens.old) }
{
    take_load_type(width, is_static, tokens).ok_or(ReadFault::NotSubset)?;
    take_joined(decoder, b"_load", tokens).ok_or(ReadFault::NotSubset)?;
    take_load_open(tokens).ok_or(ReadFault::NotSubset)?;
    take_insn_zero(width, tokens).ok_or(ReadFault::NotSubset)?;
    let block = load_at(alloc, width, decoder, braces, tokens)?;
    tokens
        .take(&[Token::Mark(b'}')])
        .ok_or(ReadFault::NotSubset)?;
    Ok(block)
}

/// The load function, where a token is left, with the decoder's name and static or not. Inside its own braces others
/// nest no deeper than the number.
#[tactic(auto, unfolding(crate::specs::LoadParsing::load_function_at))]
pub fn load_function_at(
    alloc: Global,
    width: Width,
    decoder: &Name,
    is_static: bool,
    braces: u32,
    tokens: &mut Tokens,
) -> Result<Option<LoadBlock>, ReadFault>
    ensures { Gives (λ l. (option_map load_of l, tokens.new)) result
        (load_function_at width decoder.now is_static braces tokens.old) }
{
    if tokens.is_empty() {
        Ok(None)
    } else {
        let block = some_load_at(alloc, width, decoder, is_static, braces, tokens)?;
        Ok(Some(block))
    }
}
