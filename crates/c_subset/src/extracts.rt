//! Reads extractions, and the decoder's head.

ghost use Rattle.std.specs.Prelude.{◌≡◌, map, option_map};
ghost use Rattle.c_tokens.specs.Gives.{Gives};
ghost use Rattle.c_tokens.specs.Parsing.{many};
ghost use Rattle.c_exprs.specs.ExprParsing.{assignment_at};
ghost use Rattle.c_subset.specs.View.{assignment_of, extraction_of};
ghost use Rattle.c_subset.specs.SetParsing.{is_inside};
ghost use Rattle.c_subset.specs.DeclarationViews.{function_seen, head_seen};
ghost use Rattle.c_subset.specs.ExtractParsing.{width_of, width_at, function_head_at, assigns_at, function_at, starts_function, head_at, extraction_under, extractions_under, extracts_at};

use crate::joined::name_behind_both;
use crate::patterns::{static_at, take_context};
use crate::program::{AssignList, Extract};
use crate::sets::{arg_at, is_inside};
use c_exprs::{Expr, assignment_at};
use c_tokens::{ReadFault, Token, Tokens, name_at};
use dt_values::{Name, Width};
use std::alloc::Global;

// A function that extracts, before the decoder's name is known: by its whole name, and with its own width.
#[derive(Drop)]
struct Function<'a> {
    name: &'a [u8],
    set: Name,
    width: Width,
    assigns: Vec<(Name, Expr)>,
}

/// What the decoder's head says.
#[derive(Drop)]
pub(crate) struct Head {
    pub decoder: Name,
    pub is_static: bool,
    pub width: Width,
}

// The width whose type a word names.
fn width_of(word: &[u8]) -> Option<Width>
    ensures { result ≡ width_of word.now }
{
    if word == b"uint16_t".as_slice() {
        Some(Width::W16)
    } else if word == b"uint32_t".as_slice() {
        Some(Width::W32)
    } else if word == b"uint64_t".as_slice() {
        Some(Width::W64)
    } else {
        None
    }
}

// The width in `uintW_t insn) {`.
#[tactic(auto, unfolding(crate::specs::ExtractParsing::width_at))]
fn width_at(tokens: &mut Tokens) -> Option<Width>
    ensures { option_map (λ w. (w, tokens.new)) result ≡ width_at tokens.old }
{
    let width = width_of(tokens.word()?)?;
    tokens.take(&[Token::Word(b"insn"), Token::Mark(b')'), Token::Mark(b'{')])?;
    Some(width)
}

// The name, the set and the width of a function that extracts.
#[tactic(auto, unfolding(crate::specs::ExtractParsing::function_head_at))]
fn function_head_at<'a>(tokens: &mut Tokens<'a>) -> Option<(&'a [u8], (Name, Width))>
    ensures { option_map (λ x. ((x.0.now, x.1), tokens.new)) result ≡ function_head_at tokens.old }
{
    tokens.take(&[Token::Word(b"static"), Token::Word(b"void")])?;
    let name = tokens.word()?;
    take_context(tokens)?;
    let set = arg_at(tokens)?;
    tokens.take(&[Token::Mark(b'*'), Token::Word(b"a"), Token::Mark(b',')])?;
    let width = width_at(tokens)?;
    Some((name, (set, width)))
}

fn more_assigns_at(
    alloc: Global,
    width: Width,
    tokens: &mut Tokens,
) -> Result<Vec<(Name, Expr)>, ReadFault>
    ensures { Gives (λ xs. (map assignment_of xs.items, tokens.new)) result
        (many is_inside (assignment_at width) tokens.old) }
{
    let mut assigns = Vec::new(alloc);
    'more: while is_inside(tokens) {
        assigns.push(assignment_at(alloc, width, tokens)?)?;
    }
    Ok(assigns)
}

// Assignments, and the brace that closes behind them.
#[tactic(auto, unfolding(crate::specs::ExtractParsing::assigns_at))]
fn assigns_at(
    alloc: Global,
    width: Width,
    tokens: &mut Tokens,
) -> Result<Vec<(Name, Expr)>, ReadFault>
    ensures { Gives (λ xs. (map assignment_of xs.items, tokens.new)) result (assigns_at width tokens.old) }
{
    let assigns = more_assigns_at(alloc, width, tokens)?;
    tokens
        .take(&[Token::Mark(b'}')])
        .ok_or(ReadFault::NotSubset)?;
    Ok(assigns)
}

#[tactic(auto, unfolding(crate::specs::ExtractParsing::function_at))]
fn function_at<'a>(alloc: Global, tokens: &mut Tokens<'a>) -> Result<Function<'a>, ReadFault>
    ensures { Gives (λ f. (function_seen f, tokens.new)) result (function_at tokens.old) }
{
    let Some((name, (set, width))) = function_head_at(tokens) else {
        return Err(ReadFault::NotSubset);
    };
    let assigns = assigns_at(alloc, width, tokens)?;
    Ok(Function {
        name,
        set,
        width,
        assigns,
    })
}

#[tactic(auto, unfolding(crate::specs::ExtractParsing::starts_function))]
fn starts_function(tokens: &Tokens) -> bool
    ensures { result ≡ starts_function tokens.now }
{
    tokens.begins(&[Token::Word(b"static"), Token::Word(b"void")])
}

fn functions_at<'a>(alloc: Global, tokens: &mut Tokens<'a>) -> Result<Vec<Function<'a>>, ReadFault>
    ensures { Gives (λ fs. (map function_seen fs.items, tokens.new)) result (many starts_function function_at tokens.old) }
{
    let mut functions = Vec::new(alloc);
    'more: while starts_function(tokens) {
        match function_at(alloc, tokens) {
            Ok(function) => functions.push(function)?,
            Err(fault) => return Err(fault),
        }
    }
    Ok(functions)
}

#[tactic(auto, unfolding(crate::specs::ExtractParsing::head_at))]
fn head_at(tokens: &mut Tokens) -> Option<Head>
    ensures { option_map (λ h. (head_seen h, tokens.new)) result ≡ head_at tokens.old }
{
    let is_static = static_at(tokens)?;
    tokens.take(&[Token::Word(b"bool")])?;
    let decoder = name_at(tokens)?;
    take_context(tokens)?;
    let width = width_at(tokens)?;
    Some(Head {
        decoder,
        is_static,
        width,
    })
}

// The extraction that a function is, where its name begins with the decoder's and its width is the decoder's.
fn extraction_under(head: &Head, function: Function) -> Option<Extract>
    ensures { option_map extraction_of result ≡ extraction_under (head_seen head.now) (function_seen function.entry) }
{
    let format = name_behind_both(&head.decoder, b"_extract_", function.name)?;
    if function.width.bits() != head.width.bits() {
        return None;
    }
    Some(Extract {
        format,
        set: function.set,
        assigns: AssignList::of(function.assigns),
    })
}

fn extractions_under(
    alloc: Global,
    head: &Head,
    functions: Vec<Function>,
) -> Result<Vec<Extract>, ReadFault>
    ensures { Gives (λ es. map extraction_of es.items) result
        (extractions_under (head_seen head.now) (map function_seen functions.entry.items)) }
{
    let mut extracts = Vec::new(alloc);
    for function in functions {
        match extraction_under(head, function) {
            Some(extract) => extracts.push(extract)?,
            None => return Err(ReadFault::NotSubset),
        }
    }
    Ok(extracts)
}

/// The extractions that stand first, and the decoder's head behind them.
#[tactic(auto, unfolding(crate::specs::ExtractParsing::extracts_at))]
pub(crate) fn extracts_at(
    alloc: Global,
    tokens: &mut Tokens,
) -> Result<(Vec<Extract>, Head), ReadFault>
    ensures { Gives (λ x. ((map extraction_of x.0.items, head_seen x.1), tokens.new)) result (extracts_at tokens.old) }
{
    let functions = match functions_at(alloc, tokens) {
        Ok(functions) => functions,
        Err(fault) => return Err(fault),
    };
    let head = head_at(tokens).ok_or(ReadFault::NotSubset)?;
    let extracts = extractions_under(alloc, &head, functions)?;
    Ok((extracts, head))
}
