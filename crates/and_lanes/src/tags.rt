//! Tags that are equal.
ghost use Rattle.std.specs.Prelude.{◌≡◌, ◌==◌, map};
ghost use Rattle.std.specs.Simd.Lanes.{mask_l};

use std::simd::prelude::*;

/// Bit i is set exactly where tag i is this one.
pub fn tags_equal(tags: &[u8; 16], tag: u8) -> u16
    ensures { result ≡ mask_l (map (λ t. t == tag) tags.now) }
{
    u8x16::from_array(*tags)
        .simd_eq(u8x16::splat(tag))
        .to_bitmask() as u16
}
