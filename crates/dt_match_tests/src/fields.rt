//! What fields are on words.

ghost use Rattle.std.specs.Prelude.{◌≡◌, ◌+◌, ◌≤◌, IfOk, IsTrue};
ghost use Rattle.dt_fields.specs.Segments.{segment_end, segment_length};
ghost use Rattle.dt_match.specs.Readable.{IsReadable};

use crate::models::name;
use dt_fields::segment::segment_length;
use dt_fields::{FieldDef, Segment, Segments};
use dt_match::raw;
use dt_values::{CType, Member, Name, Values};
use std::alloc::Global;
use std::process::Abort;
use std::test::Fail;

// A segment of the word or of the argument `imm`, with a sign or without.
#[derive(Clone, Copy)]
enum Part {
    Bits(u8, u8),
    SignedBits(u8, u8),
    SignedNamed(u8),
}

fn segment_of(part: Part, imm: Name) -> Segment {
    match part {
        Part::Bits(pos, length) => Segment::Bits {
            pos,
            length,
            signed: false,
        },
        Part::SignedBits(pos, length) => Segment::Bits {
            pos,
            length,
            signed: true,
        },
        Part::SignedNamed(length) => Segment::Named {
            name: imm,
            length,
            signed: true,
        },
    }
}

// A field of two segments.
#[tactic(auto, using(dt_match::proofs::Readable::readable_two))]
fn field(alloc: Global, first: Segment, second: Segment) -> Result<FieldDef, Fail>
    requires first { segment_end first ≤ 64 }
    requires second { segment_end second ≤ 64 }
    requires some { 1 ≤ segment_length first }
    requires others { 1 ≤ segment_length second }
    requires few { segment_length first + segment_length second ≤ 64 }
    ensures { IfOk result IsReadable }
{
    let mut segments = Segments::new(alloc);
    segments.push(first)?;
    segments.push(second)?;
    Ok(FieldDef {
        segments,
        function: None,
    })
}

// Whether the segment has a bit, and ends in a word of 64 bits.
fn is_part(segment: &Segment) -> bool
    ensures end { IsTrue result → segment_end segment.now ≤ 64 }
    ensures some { IsTrue result → 1 ≤ segment_length segment.now }
{
    match segment {
        Segment::Bits { pos, length, .. } => {
            *length >= 1 && u32::from(*pos) + u32::from(*length) <= 64
        }
        Segment::Named { length, .. } => *length >= 1 && *length <= 64,
    }
}

fn length_of_two(first: &Segment, second: &Segment) -> u32
    ensures { result ≡ segment_length first.now + segment_length second.now }
{
    segment_length(*first) + segment_length(*second)
}

// What a field of two segments is on a word. Nothing where they have no bits or too many.
fn raw_of(
    alloc: Global,
    first: &Segment,
    second: &Segment,
    word: u64,
    values: &Values,
) -> Result<Option<i128>, Fail> {
    if !is_part(first) {
        return Ok(None);
    }
    if !is_part(second) {
        return Ok(None);
    }
    if length_of_two(first, second) > 64 {
        return Ok(None);
    }
    let field = field(alloc, *first, *second)?;
    Ok(Some(raw(&field, word, values)))
}

// Two segments, the most significant first; a word; and what the field is on it.
type Row = (Part, Part, u64, i128);

fn check_rows(rt: &(impl Abort + AllocGlobal), table: &[Row]) -> Result<(), Fail> {
    let imm = name(b"imm")?;
    let members = [Member {
        ctype: CType::U8,
        name: imm,
    }];
    let mut numbers = [0; 32];
    numbers[0] = 0x1fc;
    let values = Values::stored(&members, &numbers);
    for (first, second, word, want) in table {
        let (first, second) = (segment_of(*first, imm), segment_of(*second, imm));
        let number = raw_of(rt.alloc(), &first, &second, *word, &values)?;
        assert!(rt; number == Some(*want), "{want} of {word}");
    }
    Ok(())
}

#[test]
fn the_first_segment_is_the_highest(rt: HostRuntime) -> Result<(), Fail> {
    let table: &[Row] = &[
        (Part::SignedBits(31, 1), Part::Bits(0, 4), 0x8000_0007, -9),
        (Part::SignedNamed(4), Part::Bits(0, 4), 7, -57),
        (Part::Bits(0, 4), Part::SignedNamed(4), 7, 124),
    ];
    check_rows(&rt, table)
}

#[test]
fn the_first_segment_gives_the_sign(rt: HostRuntime) -> Result<(), Fail> {
    let table: &[Row] = &[
        (Part::Bits(31, 1), Part::SignedBits(0, 4), 0x8000_000f, 31),
        (Part::SignedBits(31, 1), Part::Bits(0, 4), 0x8000_000f, -1),
        (Part::SignedBits(31, 1), Part::SignedBits(0, 4), 15, 15),
        (Part::Bits(0, 4), Part::SignedNamed(4), 15, 252),
    ];
    check_rows(&rt, table)
}
