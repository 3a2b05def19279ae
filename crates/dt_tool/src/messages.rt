//! The texts for standard error, made before they are written. They are bytes, as a refused token may be any.

ghost use Rattle.std.specs.Prelude.{◌≡◌, codes, flat_map, IfOk};
ghost use Rattle.dt_text.specs.Puts.{Puts};
ghost use Rattle.dt_fields.specs.declared.rule.Rule.TheVariants as rule;
ghost use Rattle.dt_forms.specs.Sources.{AreSources};
ghost use Rattle.dt_fields.specs.View.{IsDetailWithin, detail_seen};
ghost use Rattle.dt_forms.specs.View.{fault_seen, text_of_file, texts_of};
ghost use Rattle.dt_tool.specs.Messages as said;
ghost use Rattle.dt_words.specs.View.{value_seen};

use crate::refusal::Refusal;
use dt_fields::{Detail, Rule};
use dt_forms::{Fault, Source, first_token};
use dt_lines::Position;
use dt_text::{GrowingSink, Out, Part, write_parts};
use dt_values::Width;
use dt_words::{Text, Usage, printed_word};
use std::alloc::{AllocError, Global};

/// What is said where a write fails.
pub const CANNOT_WRITE: &[u8] = b"error: cannot write\n";

/// What is said where memory runs out.
pub const NO_MEMORY: &[u8] = b"error: no memory\n";

/// The files that a message speaks of: the width of their words, their names, and those of them that were read, each at
/// the same place.
#[derive(Clone, Copy)]
pub struct Inputs<'a> {
    pub width: Width,
    pub names: &'a [Text],
    pub sources: &'a [Source],
}

/// What is said where the words aren't understood, with the faulty word if there is one.
pub fn usage_message(alloc: Global, usage: Usage, word: Option<&str>) -> Result<Vec<u8>, AllocError>
    ensures { IfOk result (λ text. text.items ≡ said.usage_text usage (value_seen word.entry)) }
{
    let mut out = GrowingSink::new(alloc);
    write_parts(
        &mut out,
        &[Part::Text(b"usage: "), Part::Text(usage.code().as_bytes())],
    );
    if let Some(word) = word {
        write_parts(
            &mut out,
            &[Part::Text(b" "), Part::Text(printed_word(usage, word))],
        );
    }
    write_line_end(&mut out);
    out.into_text()
}

/// What is said where a file isn't read.
pub fn cannot_read(alloc: Global, file: &str) -> Result<Vec<u8>, AllocError>
    ensures { IfOk result (λ text. text.items ≡ said.cannot_read file.now) }
{
    line_about(alloc, b"error: cannot read ", file)
}

// A line about a file.
fn line_about<'a>(alloc: Global, prefix: &'a [u8], file: &'a str) -> Result<Vec<u8>, AllocError>
    ensures { IfOk result (λ text. text.items ≡ said.line_about prefix.now file.now) }
{
    let mut out = GrowingSink::new(alloc);
    write_parts(
        &mut out,
        &[
            Part::Text(prefix),
            Part::Text(file.as_bytes()),
            Part::Text(b"\n"),
        ],
    );
    out.into_text()
}

/// What is said of a refusal, with its detail if it has one.
pub fn refusal_message(
    alloc: Global,
    refusal: Refusal,
    detail: Option<&str>,
) -> Result<Vec<u8>, AllocError>
    ensures { IfOk result (λ text. text.items ≡ said.refusal_message refusal (value_seen detail.entry)) }
{
    let mut out = GrowingSink::new(alloc);
    write_parts(
        &mut out,
        &[
            Part::Text(b"error: "),
            Part::Text(refusal.text().as_bytes()),
        ],
    );
    if let Some(detail) = detail {
        write_bytes(&mut out, detail.as_bytes());
    }
    write_line_end(&mut out);
    out.into_text()
}

/// What is said of a broken rule. A token in its detail is a place in the bytes of its file.
pub fn fault_message(alloc: Global, inputs: Inputs, fault: &Fault) -> Result<Vec<u8>, AllocError>
    requires { IsDetailWithin (text_of_file inputs.sources.now fault.now.file) fault.now.detail }
    ensures { IfOk result (λ text. text.items ≡ said.fault_message inputs.entry.width inputs.entry.names.now
        (fault_seen (text_of_file inputs.entry.sources.now fault.now.file) fault.now)) }
{
    let mut out = GrowingSink::new(alloc);
    write_fault(&mut out, inputs, fault);
    out.into_text()
}

/// What is said of an entry at this position, which breaks a rule of groups.
pub fn entry_message(
    alloc: Global,
    inputs: Inputs,
    position: Position,
    rule: Rule,
) -> Result<Vec<u8>, AllocError>
    requires { AreSources inputs.sources.now }
    ensures { IfOk result (λ text. text.items ≡ said.entry_message rule inputs.entry.names.now
        (texts_of inputs.entry.sources.now) position) }
{
    let mut out = GrowingSink::new(alloc);
    write_entry(&mut out, b"error", inputs, position, rule);
    out.into_text()
}

/// What is said of overlaps at these positions: of the first, and a note for each other.
pub fn overlap_message(
    alloc: Global,
    inputs: Inputs,
    positions: &[Position],
) -> Result<Vec<u8>, AllocError>
    requires { AreSources inputs.sources.now }
    ensures { IfOk result (λ text. text.items
        ≡ said.overlap_message inputs.entry.names.now (texts_of inputs.entry.sources.now) positions.now) }
{
    let mut out = GrowingSink::new(alloc);
    write_overlaps(&mut out, inputs, positions);
    out.into_text()
}

#[tactic(auto, using(dt_text::proofs::Putting::puts_nothing))]
fn write_overlaps<W: Out>(out: &mut W, inputs: Inputs, positions: &[Position])
    requires { AreSources inputs.sources.now }
    ensures { Puts (W.state out.old) (W.state out.new)
        (said.overlap_message inputs.entry.names.now (texts_of inputs.entry.sources.now) positions.now) }
{
    let Some((first, others)) = positions.split_first() else {
        return;
    };
    write_entry(out, b"error", inputs, *first, Rule::H2);
    write_notes(out, inputs, others);
}

// A note for each position.
#[tactic(auto, using(dt_text::proofs::Putting::puts_nothing))]
fn write_notes<W: Out>(out: &mut W, inputs: Inputs, positions: &[Position])
    requires { AreSources inputs.sources.now }
    ensures { Puts (W.state out.old) (W.state out.new) (flat_map
        (said.entry_text (codes "note") rule.H2 inputs.entry.names.now
        (texts_of inputs.entry.sources.now))
        positions.now) }
{
    for position in positions {
        write_entry(out, b"note", inputs, *position, Rule::H2);
    }
}

// A line about an entry at a position, by a rule of groups.
fn write_entry<W: Out>(out: &mut W, kind: &[u8], inputs: Inputs, position: Position, rule: Rule)
    requires { AreSources inputs.sources.now }
    ensures { Puts (W.state out.old) (W.state out.new) (said.entry_text kind.now rule
        inputs.entry.names.now (texts_of inputs.entry.sources.now) position) }
{
    let token = first_token(inputs.sources, position);
    write_place(out, kind, inputs, position, rule);
    write_bytes(out, token);
    write_line_end(out);
}

// A line about a broken rule.
fn write_fault<W: Out>(out: &mut W, inputs: Inputs, fault: &Fault)
    requires { IsDetailWithin (text_of_file inputs.sources.now fault.now.file) fault.now.detail }
    ensures { Puts (W.state out.old) (W.state out.new) (said.fault_message inputs.entry.width inputs.entry.names.now
        (fault_seen (text_of_file inputs.entry.sources.now fault.now.file) fault.now)) }
{
    let position = Position {
        file: fault.file,
        line: fault.line,
    };
    write_place(out, b"error", inputs, position, fault.rule);
    write_detail(
        out,
        inputs.width,
        bytes_at(inputs.sources, fault.file),
        &fault.detail,
    );
    write_line_end(out);
}

// The name of the file at a place, empty where there is none.
fn name_at(names: &[Text], file: u16) -> &[u8]
    ensures { result.now ≡ said.name_at names.now file }
{
    match names.get(file as usize) {
        Some(name) => name.items(),
        None => b"",
    }
}

// The bytes of the file at a place, none where it wasn't read.
fn bytes_at(sources: &[Source], file: u16) -> &[u8]
    ensures { result.now ≡ text_of_file sources.now file }
{
    match sources.get(file as usize) {
        Some(source) => source.bytes.items(),
        None => &[],
    }
}

// Where a rule is broken, and which, with its text.
fn write_place<'a, W: Out>(
    out: &mut W,
    kind: &'a [u8],
    inputs: Inputs<'a>,
    position: Position,
    rule: Rule,
)
    ensures { Puts (W.state out.old) (W.state out.new)
        (said.place_text kind.now inputs.entry.names.now position rule) }
{
    write_parts(
        out,
        &[
            Part::Text(name_at(inputs.names, position.file)),
            Part::Text(b":"),
            Part::Decimal(position.line as u64),
            Part::Text(b": "),
            Part::Text(kind),
            Part::Text(b": "),
            Part::Text(rule.text().as_bytes()),
        ],
    );
}

fn write_line_end<W: Out>(out: &mut W)
    ensures { Puts (W.state out.old) (W.state out.new) said.line_end }
{
    write_parts(out, &[Part::Text(b"\n")]);
}

// What stands behind a rule.
#[tactic(auto, using(dt_text::proofs::Putting::puts_nothing))]
fn write_detail<W: Out>(out: &mut W, width: Width, bytes: &[u8], detail: &Detail)
    requires { IsDetailWithin bytes.now detail.now }
    ensures { Puts (W.state out.old) (W.state out.new) (said.detail_text width (detail_seen bytes.now detail.now)) }
{
    match *detail {
        Detail::None => {}
        Detail::Text(span) => write_bytes(out, span.text(bytes)),
        Detail::Named(name) => write_bytes(out, name.bytes()),
        Detail::Number(number) => write_number(out, number),
        Detail::Mask(mask) => write_mask(out, width, mask),
    }
}

fn write_bytes<W: Out>(out: &mut W, bytes: &[u8])
    ensures { Puts (W.state out.old) (W.state out.new) (said.bytes_text bytes.now) }
{
    write_parts(out, &[Part::Text(b": "), Part::Text(bytes)]);
}

fn write_number<W: Out>(out: &mut W, number: u64)
    ensures { Puts (W.state out.old) (W.state out.new) (said.number_text number) }
{
    write_parts(out, &[Part::Text(b": "), Part::Decimal(number)]);
}

fn write_mask<W: Out>(out: &mut W, width: Width, mask: u64)
    ensures { Puts (W.state out.old) (W.state out.new) (said.mask_text width mask) }
{
    write_parts(
        out,
        &[
            Part::Text(b": 0x"),
            Part::Hex {
                digits: width.bits() / 4,
                value: mask,
            },
        ],
    );
}
