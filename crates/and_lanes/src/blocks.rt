//! Sums of blocks of 16 bytes, in eight lanes of 16 bits.
ghost use Rattle.std.specs.Prelude.{◌≡◌, ◌≤◌, ◌+◌, ◌*◌, ◌<◌, ◌/◌, ◌%◌, map, length, slice_range};
ghost use Rattle.std.specs.Simd.Lanes.{Each2, sum_l, zip2};
ghost use Rattle.and_policy.specs.Outer as outer;
ghost use Rattle.and_lanes.specs.Pairs.{pairs};

use std::simd::prelude::*;

/// The bytes of a block.
pub(crate) const BLOCK: usize = 16;

/// The most blocks of which the sums fit lanes of 16 bits: each adds at most 255.
pub(crate) const MOST: usize = 257;

// Eight pairs of bytes, each as a number whose low half is the first.
fn pairs_at(bytes: &[u8], at: usize) -> u16x8
    requires { at + 16 ≤ length bytes.now }
    ensures { result ≡ pairs (slice_range bytes.now at (at + 16)) }
{
    u16x8::from_le_bytes(u8x16::from_slice(&bytes[at..]))
}

// The first byte of each pair.
fn firsts(pairs: u16x8) -> u16x8
    ensures { result ≡ map (λ x. x % 256) pairs }
{
    pairs & u16x8::splat(0xff)
}

// The second byte of each pair.
fn seconds(pairs: u16x8) -> u16x8
    ensures { result ≡ map (λ x. x / 256) pairs }
{
    pairs >> u16x8::splat(8)
}

// Lane by lane the sum, which fits.
fn added(a: u16x8, b: u16x8) -> u16x8
    requires { Each2 (λ x y. x + y < 65536) a b }
    ensures { result ≡ zip2 (λ x y. x + y) a b }
{
    a.strict_add(b)
}

// The sum of the lanes.
fn total(lanes: u16x8) -> u32
    ensures sum { result ≡ sum_l lanes }
    ensures bound { result ≤ 524_280 }
{
    lanes.cast::<u32>().strict_reduce_sum()
}

/// The 16-bit words of so many blocks, added as whole numbers.
pub(crate) fn blocks_sum(bytes: &[u8], from: usize, blocks: usize) -> u32
    requires inside { from + 16 * blocks ≤ length bytes.now }
    requires few { blocks ≤ MOST }
    ensures { result ≡ outer.words_sum (slice_range bytes.now from (from + 16 * blocks)) }
{
    let mut high = u16x8::splat(0);
    let mut low = u16x8::splat(0);
    for block in 0..blocks {
        let pairs = pairs_at(bytes, from + BLOCK * block);
        high = added(high, firsts(pairs));
        low = added(low, seconds(pairs));
    }
    256 * total(high) + total(low)
}
