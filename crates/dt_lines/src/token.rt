//! The tokens, the comment and the indentation of a physical line.

ghost use Rattle.std.specs.Prelude.{◌≡◌, ◌+◌, ◌*◌, ◌≤◌, ◌++◌, length, map, OnOk};
ghost use Rattle.std.specs.List.{between, position_or_len};
ghost use Rattle.dt_lines.specs.Lines.{indentation, is_comment_mark, is_white, line_tokens, next_column, not_empty};
ghost use Rattle.dt_lines.specs.Gathering.{piece_at, piece_between};
ghost use Rattle.dt_lines.specs.SoFar.{AreSpansTo, IsNext};

use crate::limits::LARGEST_FILE;
use crate::line::Span;
use std::alloc::AllocError;

// Whether the byte is white space.
pub(crate) fn is_white(byte: u8) -> bool
    ensures { result ≡ is_white byte }
{
    byte == b' ' || byte == b'\t' || byte == 11 || byte == 12 || byte == b'\r'
}

// Where the comment of a line begins, or the line's end.
pub(crate) fn comment_start(text: &[u8]) -> usize
    ensures place { result ≡ position_or_len is_comment_mark text.now }
    ensures within { result ≤ length text.now }
{
    for at in 0..text.len() {
        if text[at] == b'#' {
            return at;
        }
    }
    text.len()
}

// The places of a physical line's tokens, behind those before them.
pub(crate) fn push_line_tokens(
    spans: &mut Vec<Span>,
    bytes: &[u8],
    from: usize,
    to: usize,
) -> Result<(), AllocError>
    requires { IsNext (length bytes.now) from to spans.old.items }
    ensures tokens { OnOk result (map (piece_at bytes.now) spans.new.items
        ≡ map (piece_at bytes.now) spans.old.items ++ line_tokens (piece_between from to bytes.now)) }
    ensures spans { OnOk result (AreSpansTo (length bytes.now) to spans.new.items) }
{
    let end = from + comment_start(&bytes[from..to]);
    let mut start = from;
    for at in from..end {
        if !is_white(bytes[at]) {
            continue;
        }
        push_span(spans, bytes, start, at)?;
        start = at + 1;
    }
    push_span(spans, bytes, start, end)?;
    Ok(())
}

// The token from a place up to another, where it isn't empty.
fn push_span(
    spans: &mut Vec<Span>,
    bytes: &[u8],
    start: usize,
    end: usize,
) -> Result<(), AllocError>
    requires { IsNext (length bytes.now) start end spans.old.items }
    ensures tokens { OnOk result (map (piece_at bytes.now) spans.new.items
        ≡ map (piece_at bytes.now) spans.old.items ++ not_empty start (between start end bytes.now)) }
    ensures spans { OnOk result (AreSpansTo (length bytes.now) end spans.new.items) }
{
    if start < end {
        spans.push(Span {
            start: start as u32,
            end: end as u32,
        })?;
    }
    Ok(())
}

// The column of the first byte that isn't white space.
pub(crate) fn indentation(text: &[u8]) -> u32
    requires { length text.now ≤ LARGEST_FILE }
    ensures { result ≡ indentation text.now }
{
    let mut column = 0;
    for byte in text {
        if !is_white(*byte) {
            return column;
        }
        column = next_column(column, *byte);
    }
    column
}

// The column behind a byte.
fn next_column(column: u32, byte: u8) -> u32
    requires { column ≤ 8 * LARGEST_FILE }
    ensures column { result ≡ next_column column byte }
    ensures bound { result ≤ column + 8 }
{
    if byte == b'\t' {
        (column / 8 + 1) * 8
    } else {
        column + 1
    }
}
