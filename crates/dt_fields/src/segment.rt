//! The segments of a field, and the bits that they take.

ghost use Rattle.std.specs.Prelude.{◌≡◌, ◌++◌, ◌∷◌, [], ◌≤◌, OnOk, OnErr, false, length};
ghost use Rattle.std.specs.List.{list_any};
ghost use Rattle.dt_fields.specs.Segments.{has_overlap, segment_length, share_bit, total_length};
ghost use Rattle.dt_fields.specs.declared.segment.Segment.TheVariants.{Bits};

use dt_values::Name;
use smallvec::SmallVec;
use std::alloc::{AllocError, Global};
use std::marker::Model;

/// The most segments that a field has.
pub const MOST_SEGMENTS: usize = 16;

/// A part of a field. `length` is a number of bits. `signed` says that an `s` stands before it: a field has a sign, which
/// is its most significant bit, where its first segment is signed.
#[derive(Clone, Copy, PartialEq, Eq)]
pub enum Segment {
    /// Bits of the word. `pos` is the place of the lowest, counted from 0 at the least significant end.
    Bits {
        pos: u8,
        length: u8,
        signed: bool,
    },
    /// The low bits of the value of another argument of the same pattern. No line makes one yet.
    Named {
        name: Name,
        length: u8,
        signed: bool,
    },
}

/// The lowest bit, unsigned: a `SmallVec` fills its unused places with it.
impl Default for Segment {
    ghost use Rattle.dt_fields.specs.declared.segment.Segment.TheVariants.{Bits};

    fn default() -> Segment
        ensures { result ≡ Bits 0 1 false }
    {
        Segment::Bits {
            pos: 0,
            length: 1,
            signed: false,
        }
    }
}

/// The segments of a field, the most significant first. Contracts see the list of them.
#[derive(Drop)]
pub struct Segments {
    items: SmallVec<Segment, 4, Global>,
}

impl Model for Segments {
    ghost use Rattle.std.specs.Prelude.{List};
    ghost use Rattle.dt_fields.specs.declared.segment.Segment.{Segment};

    ghost Value = { List Segment };

    ghost view = { λ segments. segments.items.items };
}

impl Segments {
    /// These segments.
    pub fn of(items: SmallVec<Segment, 4, Global>) -> Segments
        ensures { result ≡ items.items }
    {
        Segments { items }
    }

    /// No segment.
    pub fn new(alloc: Global) -> Segments
        ensures { result ≡ [] }
    {
        Segments {
            items: SmallVec::new(alloc),
        }
    }

    /// Puts a segment last.
    pub fn push(&mut self, segment: Segment) -> Result<(), AllocError>
        ensures pushed { OnOk result (self.new ≡ self.old ++ segment ∷ []) }
        ensures unchanged { OnErr result (self.new ≡ self.old) }
    {
        match self.items.push(segment) {
            Ok(()) => Ok(()),
            Err(_) => Err(AllocError),
        }
    }

    /// The segments.
    pub fn items(&self) -> &[Segment]
        ensures { result.now ≡ self.now }
    {
        self.items.as_slice()
    }
}

/// How many bits the segments have together.
pub fn total_length(segments: &[Segment]) -> u32
    requires { length segments.now ≤ MOST_SEGMENTS }
    ensures { result ≡ total_length segments.now }
{
    let mut total = 0;
    for segment in segments {
        total += segment_length(*segment);
    }
    total
}

/// How many bits the segment has.
pub fn segment_length(segment: Segment) -> u32
    ensures length { result ≡ segment_length segment }
    ensures small { result ≤ u8.MAX }
{
    match segment {
        Segment::Bits { length, .. } => length as u32,
        Segment::Named { length, .. } => length as u32,
    }
}

// Whether two of the segments share a bit.
pub(crate) fn has_overlap(segments: &[Segment]) -> bool
    ensures { result ≡ has_overlap segments.now }
{
    match segments.split_first() {
        None => false,
        Some((segment, rest)) => shares_bit(*segment, rest) || has_overlap(rest),
    }
}

// Whether the segment shares a bit with one of these.
fn shares_bit(segment: Segment, others: &[Segment]) -> bool
    ensures { result ≡ list_any (share_bit segment) others.now }
{
    others.iter().any(|other| share_bit(segment, *other))
}

fn share_bit(segment: Segment, other: Segment) -> bool
    ensures { result ≡ share_bit segment other }
{
    match segment {
        Segment::Named { .. } => false,
        Segment::Bits {
            pos,
            length,
            signed,
        } => has_bit_of(other, pos, length, signed),
    }
}

// Whether the segment shares a bit with that of so many bits from a place.
fn has_bit_of(segment: Segment, pos: u8, length: u8, signed: bool) -> bool
    ensures { result ≡ share_bit (Bits pos length signed) segment }
{
    let _signed = signed;
    match segment {
        Segment::Named { .. } => false,
        Segment::Bits {
            pos: start,
            length: bits,
            ..
        } => (pos as u32) < start as u32 + bits as u32
            && (start as u32) < pos as u32 + length as u32,
    }
}
