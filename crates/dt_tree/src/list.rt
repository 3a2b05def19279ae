//! The first knot of one exclusive list.

ghost use Rattle.std.specs.Prelude.{◌≡◌, ◌<◌, ◌++◌, ◌∷◌, [], List, length, map, All, IfOk};
ghost use Rattle.dt_model.specs.View.{pattern_seen};
ghost use Rattle.dt_model.specs.Patterns.{FlatPattern, position_of};
ghost use Rattle.dt_model.specs.Trees.{Items, item_of, items_of};
ghost use Rattle.dt_tree.specs.Answers.{AreFilled, IsAnswerIn, begins_first, shown_of};
ghost use Rattle.dt_tree.specs.Commons.{AreFixedSoFar};
ghost use Rattle.dt_tree.specs.Entries.{entry_position, pattern_at, position_in};
ghost use Rattle.dt_tree.specs.Splits.{fixed_seen};

use crate::common::fixed_by;
use crate::fixed::FixedBits;
use crate::split::knot_of;
use dt_lines::Position;
use dt_model::{Entry, Pattern};
use std::alloc::{AllocError, Global};

// What each entry fixes.
fn fixed_by_each(
    alloc: Global,
    patterns: &[Pattern],
    entries: &[Entry],
) -> Result<Vec<FixedBits>, AllocError>
    ensures { IfOk result (λ fixed. AreFixedSoFar (map pattern_seen patterns.now) entries.now
        (length entries.now) (map fixed_seen fixed.items)) }
{
    let mut all = Vec::new(alloc);
    for entry in entries {
        all.push(fixed_by(patterns, entry))?;
    }
    Ok(all)
}

// Where the pattern of this number stands.
fn pattern_position(patterns: &[Pattern], number: u32) -> Position
    ensures { result ≡ position_of (pattern_at (map pattern_seen patterns.now) number) }
{
    match patterns.get(number as usize) {
        Some(pattern) => Position {
            file: pattern.file,
            line: pattern.line,
        },
        None => Position { file: 0, line: 0 },
    }
}

// The line of a pattern, or the opening line of a group.
fn entry_position(patterns: &[Pattern], entry: &Entry) -> Position
    ensures { result ≡ entry_position (map pattern_seen patterns.now) (item_of entry.now) }
{
    match entry {
        Entry::One(number) => pattern_position(patterns, *number),
        Entry::Overlap(group) => Position {
            file: group.file,
            line: group.line,
        },
        Entry::Exclusive(group) => Position {
            file: group.file,
            line: group.line,
        },
    }
}

// The position of the entry at this place.
fn position_in(patterns: &[Pattern], entries: &[Entry], member: usize) -> Position
    requires { member < length entries.now }
    ensures { result ≡ position_in (map pattern_seen patterns.now) (items_of entries.now) member }
{
    entry_position(patterns, &entries[member])
}

// The positions of the entries at these places.
fn positions_in(
    alloc: Global,
    patterns: &[Pattern],
    entries: &[Entry],
    members: &[usize],
) -> Result<Vec<Position>, AllocError>
    requires { All (λ j. j < length entries.now) members.now }
    ensures { IfOk result (λ shown. shown.items
        ≡ map (position_in (map pattern_seen patterns.now) (items_of entries.now)) members.now) }
{
    let mut shown = Vec::new(alloc);
    for member in members {
        shown.push(position_in(patterns, entries, *member))?;
    }
    Ok(shown)
}

/// The first knot of a list: the positions of its members.
pub fn knot_in_list(
    alloc: Global,
    patterns: &[Pattern],
    entries: &[Entry],
) -> Result<Option<Vec<Position>>, AllocError>
    ensures { IfOk result (λ found. AreFilled (items_of entries.now ∷ [])
        → IsAnswerIn (map pattern_seen patterns.now) (items_of entries.now ∷ []) (shown_of found)) }
{
    let fixed = fixed_by_each(alloc, patterns, entries)?;
    let Some(members) = knot_of(alloc, fixed.as_slice())? else {
        return Ok(None);
    };
    Ok(Some(positions_in(alloc, patterns, entries, members.as_slice())?))
}

// Whether the first of these positions doesn't come after the first of those.
fn begins_first(one: &[Position], other: &[Position]) -> bool
    ensures { result ≡ begins_first one.now other.now }
{
    match one.first() {
        None => true,
        Some(a) => match other.first() {
            None => true,
            Some(b) => a.file < b.file || (a.file == b.file && a.line <= b.line),
        },
    }
}

/// Of the first knots of two sequences of lists the one that begins first.
pub fn earlier(one: Option<Vec<Position>>, other: Option<Vec<Position>>) -> Option<Vec<Position>>
    ensures { (patterns : List FlatPattern) (xs ys : List Items) → IsAnswerIn patterns xs (shown_of one)
        → IsAnswerIn patterns ys (shown_of other) → IsAnswerIn patterns (xs ++ ys) (shown_of result) }
{
    match one {
        None => other,
        Some(a) => match other {
            None => Some(a),
            Some(b) => {
                if begins_first(a.as_slice(), b.as_slice()) {
                    Some(a)
                } else {
                    Some(b)
                }
            }
        },
    }
}
