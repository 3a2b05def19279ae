//! The bits of the word that segments take.

ghost use Rattle.std.specs.Prelude.{◌≡◌, ◌≤◌, ◌+◌, ◌-◌, ◌*◌, ◌^◌, All};
ghost use Rattle.dt_fields.specs.Segments.{segment_end};
ghost use Rattle.dt_fields.specs.Masks.{segment_mask, segments_mask};

use crate::segment::Segment;

/// The bits of the unnamed ones of these segments.
pub fn segments_mask(segments: &[Segment]) -> u64
    requires { All (λ s. segment_end s ≤ 64) segments.now }
    ensures { result ≡ segments_mask segments.now }
{
    match segments.split_first() {
        None => 0,
        Some((segment, rest)) => segment_mask(*segment) | segments_mask(rest),
    }
}

fn segment_mask(segment: Segment) -> u64
    requires { segment_end segment ≤ 64 }
    ensures { result ≡ segment_mask segment }
{
    match segment {
        Segment::Named { .. } => 0,
        Segment::Bits { pos, length, .. } => bits_mask(pos as u32, length as u32),
    }
}

// So many bits from a place.
#[tactic(auto, using(crate::proofs::MaskBounds::mask_below))]
fn bits_mask(pos: u32, length: u32) -> u64
    requires { pos + length ≤ 64 }
    ensures { result ≡ (2 ^ length - 1) * 2 ^ pos }
{
    if length == 0 {
        return 0;
    }
    low_bits(length) << pos
}

// So many bits at the least significant end.
#[tactic(auto, using(crate::proofs::MaskBounds::power_below))]
fn low_bits(length: u32) -> u64
    requires { length ≤ 64 }
    ensures { result ≡ 2 ^ length - 1 }
{
    if length == 64 {
        return u64::MAX;
    }
    (1 << length) - 1
}
