//! Bits that are fixed.

ghost use Rattle.dt_tree.specs.Commons.{IsJoin};
ghost use Rattle.dt_tree.specs.Splits.{fixed_seen};

/// The bits that patterns fix, and their values.
#[derive(Clone, Copy)]
pub struct FixedBits {
    pub mask: u64,
    pub bits: u64,
}

/// What two fix alike.
pub fn fixed_by_both(one: FixedBits, other: FixedBits) -> FixedBits
    ensures { IsJoin (fixed_seen one) (fixed_seen other) (fixed_seen result) }
{
    let mask = one.mask & other.mask & !(one.bits ^ other.bits);
    FixedBits {
        mask,
        bits: one.bits & mask,
    }
}
