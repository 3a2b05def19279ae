//! What all patterns below an entry fix alike.

ghost use Rattle.std.specs.Prelude.{◌≡◌, ◌++◌, List, map};
ghost use Rattle.dt_model.specs.View.{pattern_seen};
ghost use Rattle.dt_model.specs.Patterns.{FlatPattern};
ghost use Rattle.dt_model.specs.Trees.{item_of, items_of, numbers_of};
ghost use Rattle.dt_tree.specs.Commons.{IsCommon, IsCommonOf, IsFilled};
ghost use Rattle.dt_tree.specs.Entries.{below, pattern_at};
ghost use Rattle.dt_tree.specs.Splits.{fixed_seen};

use crate::fixed::{FixedBits, fixed_by_both};
use dt_model::{Entry, Pattern};

// What the pattern of this number fixes: nothing, where there is none.
fn fixed_by_pattern(patterns: &[Pattern], number: u32) -> FixedBits
    ensures mask { result.mask ≡ (pattern_at (map pattern_seen patterns.now) number).fixed_mask }
    ensures bits { result.bits ≡ (pattern_at (map pattern_seen patterns.now) number).fixed_bits }
{
    match patterns.get(number as usize) {
        Some(pattern) => FixedBits {
            mask: pattern.fixed_mask,
            bits: pattern.fixed_bits,
        },
        None => FixedBits { mask: 0, bits: 0 },
    }
}

// What two lists of patterns fix alike; a list without patterns fixes none.
#[tactic(auto, using(crate::proofs::Commons::common_none, crate::proofs::Commons::none_common, crate::proofs::Commons::common_both))]
fn fixed_by_both_lists(one: Option<FixedBits>, other: Option<FixedBits>) -> Option<FixedBits>
    ensures { (xs ys : List FlatPattern) → IsCommonOf one xs → IsCommonOf other ys
        → IsCommonOf result (xs ++ ys) }
{
    match one {
        None => other,
        Some(a) => match other {
            None => Some(a),
            Some(b) => Some(fixed_by_both(a, b)),
        },
    }
}

// What all patterns below these entries fix alike, or None where no pattern is below them.
#[cycle(common)]
fn fixed_below(patterns: &[Pattern], entries: &[Entry]) -> Option<FixedBits>
    ensures { IsCommonOf result
        (map (pattern_at (map pattern_seen patterns.now)) (numbers_of (items_of entries.now))) }
{
    let mut common = None;
    for entry in entries {
        common = fixed_by_both_lists(common, fixed_in(patterns, entry));
    }
    common
}

// The same of an entry.
#[cycle(common)]
#[tactic(auto, using(crate::proofs::Commons::one_pattern))]
fn fixed_in(patterns: &[Pattern], entry: &Entry) -> Option<FixedBits>
    ensures { IsCommonOf result (below (map pattern_seen patterns.now) (item_of entry.now)) }
{
    match entry {
        Entry::One(number) => Some(fixed_by_pattern(patterns, *number)),
        Entry::Overlap(group) => fixed_below(patterns, &group.entries),
        Entry::Exclusive(group) => fixed_below(patterns, &group.entries),
    }
}

/// What an entry fixes, where a pattern is below it.
pub fn fixed_by(patterns: &[Pattern], entry: &Entry) -> FixedBits
    ensures { IsFilled (item_of entry.now)
        → IsCommon (fixed_seen result) (below (map pattern_seen patterns.now) (item_of entry.now)) }
{
    match fixed_in(patterns, entry) {
        Some(fixed) => fixed,
        None => FixedBits { mask: 0, bits: 0 },
    }
}
