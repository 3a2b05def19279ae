//! Gathers a logical line from the physical lines that it goes over.

ghost use Rattle.std.specs.Prelude.{◌≡◌, ◌-◌, ℕ, List, [], ◌∷◌, ◌++◌, length, map, take, IfOk, OnOk};
ghost use Rattle.dt_lines.specs.Lines.{is_blank, is_backslash, ends_in_backslash};
ghost use Rattle.dt_lines.specs.Spans.{AreSpans};
ghost use Rattle.dt_lines.specs.SoFar.{AreSpansTo, IsNext, AreLinesOf};
ghost use Rattle.dt_lines.specs.Gathering.{gathered_line, is_skipped, line_with, piece_at, piece_between, placed_line};
ghost use Rattle.dt_lines.specs.Gathering.{reading, EndsOrGoesOn, TakesLine};

use crate::line::{Logical, Position, Span};
use crate::token::{indentation, is_white, push_line_tokens};
use dt_values::Items;
use std::alloc::{AllocError, Global};

// The logical line that is gathered so far: the number and the column of its first physical line, and its tokens.
// Without tokens nothing is gathered.
#[derive(Drop)]
pub(crate) struct Gathered {
    line: u32,
    indent: u32,
    pub(crate) tokens: Vec<Span>,
}

impl Gathered {
    // Nothing gathered.
    pub(crate) fn new(alloc: Global) -> Gathered
        ensures { result.tokens.items ≡ [] }
    {
        Gathered {
            line: 0,
            indent: 0,
            tokens: Vec::new(alloc),
        }
    }
}

// Takes one physical line more: what is gathered then, with the lines that end behind those before.
pub(crate) fn next_line(
    alloc: Global,
    lines: &mut Vec<Logical>,
    gathered: Gathered,
    position: Position,
    bytes: &[u8],
    from: usize,
    to: usize,
) -> Result<Gathered, AllocError>
    requires next { IsNext (length bytes.now) from to gathered.tokens.items }
    requires file { AreLinesOf position.file (length bytes.now) lines.old.items }
    ensures lines { IfOk result (λ g. TakesLine (reading bytes.now lines.old.items gathered) position.line
        (piece_between from to bytes.now) (reading bytes.now lines.new.items g)) }
    ensures file { OnOk result (AreLinesOf position.file (length bytes.now) lines.new.items) }
    ensures spans { IfOk result (λ g. AreSpansTo (length bytes.now) to g.tokens.items) }
{
    if is_skipped(&gathered, &bytes[from..to]) {
        return Ok(Gathered::new(alloc));
    }
    let longer = lengthen(gathered, position.line, bytes, from, to)?;
    end_or_go_on(alloc, lines, longer, position.file, bytes)
}

// What is gathered, with the tokens of a physical line behind it.
fn lengthen(
    gathered: Gathered,
    line: u32,
    bytes: &[u8],
    from: usize,
    to: usize,
) -> Result<Gathered, AllocError>
    requires { IsNext (length bytes.now) from to gathered.tokens.items }
    ensures line { IfOk result (λ g. gathered_line bytes.now g
        ≡ line_with (gathered_line bytes.now gathered) line (piece_between from to bytes.now)) }
    ensures spans { IfOk result (λ g. AreSpansTo (length bytes.now) to g.tokens.items) }
{
    let first = gathered.line;
    let indent = gathered.indent;
    let mut tokens = gathered.tokens;
    let is_first = tokens.is_empty();
    push_line_tokens(&mut tokens, bytes, from, to)?;
    if is_first {
        return Ok(Gathered {
            line,
            indent: indentation(&bytes[from..to]),
            tokens,
        });
    }
    Ok(Gathered {
        line: first,
        indent,
        tokens,
    })
}

// Ends the line, or takes its last backslash off.
fn end_or_go_on(
    alloc: Global,
    lines: &mut Vec<Logical>,
    gathered: Gathered,
    file: u16,
    bytes: &[u8],
) -> Result<Gathered, AllocError>
    requires spans { AreSpans (length bytes.now) gathered.tokens.items }
    requires file { AreLinesOf file (length bytes.now) lines.old.items }
    ensures lines { IfOk result (λ g. EndsOrGoesOn (reading bytes.now lines.old.items gathered)
        (reading bytes.now lines.new.items g)) }
    ensures file { OnOk result (AreLinesOf file (length bytes.now) lines.new.items) }
    ensures spans { (place : ℕ) → AreSpansTo (length bytes.now) place gathered.tokens.items
        → IfOk result (λ g. AreSpansTo (length bytes.now) place g.tokens.items) }
{
    if ends_in_backslash(bytes, gathered.tokens.as_slice()) {
        return Ok(without_last(gathered));
    }
    end_line(lines, gathered, file)?;
    Ok(Gathered::new(alloc))
}

// What is gathered, without its last token.
fn without_last(gathered: Gathered) -> Gathered
    ensures line { result.line ≡ gathered.line }
    ensures indent { result.indent ≡ gathered.indent }
    ensures tokens { result.tokens.items ≡ take (length gathered.tokens.items - 1) gathered.tokens.items }
{
    let Gathered {
        line,
        indent,
        mut tokens,
    } = gathered;
    tokens.pop();
    Gathered {
        line,
        indent,
        tokens,
    }
}

// The gathered line, behind those before it.
pub(crate) fn end_line(
    lines: &mut Vec<Logical>,
    gathered: Gathered,
    file: u16,
) -> Result<(), AllocError>
    ensures lines { OnOk result ((bytes : List ℕ) → map (placed_line bytes) lines.new.items
        ≡ map (placed_line bytes) lines.old.items ++ gathered_line bytes gathered ∷ []) }
    ensures file { OnOk result ((length : ℕ) → AreSpans length gathered.tokens.items
        → AreLinesOf file length lines.old.items → AreLinesOf file length lines.new.items) }
{
    let Gathered {
        line,
        indent,
        tokens,
    } = gathered;
    lines.push(Logical {
        file,
        line,
        indent,
        tokens: Items::of(tokens),
    })?;
    Ok(())
}

// Whether the line is blank, where nothing is gathered.
fn is_skipped(gathered: &Gathered, text: &[u8]) -> bool
    ensures { (bytes : List ℕ) → result ≡ is_skipped (gathered_line bytes gathered.now) text.now }
{
    gathered.tokens.is_empty() && is_blank(text)
}

// Whether the line has nothing but white space.
fn is_blank(text: &[u8]) -> bool
    ensures { result ≡ is_blank text.now }
{
    text.iter().all(|byte| is_white(*byte))
}

fn ends_in_backslash(bytes: &[u8], spans: &[Span]) -> bool
    requires { AreSpans (length bytes.now) spans.now }
    ensures { result ≡ ends_in_backslash (map (piece_at bytes.now) spans.now) }
{
    match spans.split_last() {
        Some((last, _)) => is_backslash(last.text(bytes)),
        None => false,
    }
}

fn is_backslash(token: &[u8]) -> bool
    ensures { result ≡ is_backslash token.now }
{
    token == b"\\".as_slice()
}
