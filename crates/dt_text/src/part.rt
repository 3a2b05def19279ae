//! Text in parts.

ghost use Rattle.std.specs.Prelude.{◌≡◌, ◌<◌, false, decimal, replicate, IfOk};
ghost use Rattle.std.specs.Fmt.{digit_glyph};
ghost use Rattle.dt_io.specs.Sinks.{Writes};
ghost use Rattle.dt_text.specs.Hexadecimal.{hex};
ghost use Rattle.dt_text.specs.Parts.{part_seen, parts_text};
ghost use Rattle.dt_text.specs.Pieces.{piece_text};
ghost use Rattle.dt_text.specs.Puts.{Puts};

use crate::growing::GrowingSink;
use crate::out::{Out, Writer};
use dt_io::{Failed, Sink};
use dt_values::Name;
use itoa::Buffer;
use std::alloc::{AllocError, Global};

/// A part of a text.
#[derive(Clone, Copy)]
pub enum Part<'a> {
    /// Bytes as they are.
    Text(&'a [u8]),
    /// Bytes that are letters, digits and underscores, as the names beside them.
    Word(&'a [u8]),
    Name(&'a Name),
    /// So many spaces.
    Spaces(u32),
    /// A number in decimal digits.
    Decimal(u64),
    /// The last hexadecimal digits of a number, so many.
    Hex { digits: u32, value: u64 },
}

#[tactic(auto, using(crate::proofs::Putting::puts_more, crate::proofs::Putting::puts_nothing))]
fn put_spaces<W: Out>(out: &mut W, count: u32)
    ensures { Puts (W.state out.old) (W.state out.new) (replicate count 32) }
{
    for _ in 0..count {
        out.put(b" ");
    }
}

fn put_decimal<W: Out>(out: &mut W, value: u64)
    ensures { Puts (W.state out.old) (W.state out.new) (decimal value) }
{
    let mut buffer = Buffer::new();
    out.put(buffer.format(value).as_bytes());
}

fn glyph(digit: u64) -> u8
    requires { digit < 16 }
    ensures { result ≡ digit_glyph false digit }
{
    if digit < 10 {
        b'0' + digit as u8
    } else {
        b'a' + (digit as u8 - 10)
    }
}

// The last hexadecimal digits, so many.
fn put_hex<W: Out>(out: &mut W, digits: u32, value: u64)
    ensures { Puts (W.state out.old) (W.state out.new) (hex digits value) }
{
    if digits == 0 {
        return;
    }
    put_hex(out, digits - 1, value / 16);
    out.put(&[glyph(value % 16)]);
}

fn write_part<W: Out>(out: &mut W, part: Part)
    ensures { Puts (W.state out.old) (W.state out.new) (piece_text (part_seen part.entry)) }
{
    match part {
        Part::Text(bytes) | Part::Word(bytes) => out.put(bytes),
        Part::Name(name) => out.put(name.bytes()),
        Part::Spaces(count) => put_spaces(out, count),
        Part::Decimal(value) => put_decimal(out, value),
        Part::Hex { digits, value } => put_hex(out, digits, value),
    }
}

/// Puts the parts behind what is there, one after another.
pub fn write_parts<W: Out>(out: &mut W, parts: &[Part])
    ensures { Puts (W.state out.old) (W.state out.new) (parts_text parts.now) }
{
    for part in parts {
        write_part(out, *part);
    }
}

/// Writes the text of the parts to a sink, up to the first write that fails.
pub fn write_text<S: Sink>(parts: &[Part], sink: &mut S) -> Result<(), Failed>
    ensures { Writes (S.seen sink.old) (S.seen sink.new) (parts_text parts.now) result }
{
    let mut out = Writer::new(sink);
    write_parts(&mut out, parts);
    out.answer()
}

/// The text of the parts. The only error is that memory runs out.
pub fn text_of(alloc: Global, parts: &[Part]) -> Result<Vec<u8>, AllocError>
    ensures { IfOk result (λ text. text.items ≡ parts_text parts.now) }
{
    let mut out = GrowingSink::new(alloc);
    write_parts(&mut out, parts);
    out.into_text()
}
