//! One's complement sums (RFC 1071).
ghost use Rattle.std.specs.Prelude.{◌≡◌, ◌≤◌, ◌<◌, ◌*◌, length};
ghost use Rattle.std.specs.List.{All};
ghost use Rattle.and_policy.specs.Outer as outer;

use crate::blocks::{BLOCK, MOST, blocks_sum};

// The sum of the words of fewer bytes than a block has.
fn rest_sum(bytes: &[u8]) -> u32
    requires { length bytes.now < BLOCK }
    ensures { result ≡ outer.words_sum bytes.now }
{
    let mut sum = 0;
    let mut rest = bytes;
    while let [high, low, after @ ..] = rest {
        sum += 256 * u32::from(*high) + u32::from(*low);
        rest = after;
    }
    match rest {
        [high] => sum + 256 * u32::from(*high),
        _ => sum,
    }
}

/// The big-endian 16-bit words of the bytes, added as whole numbers, with a zero byte added to an odd length.
pub fn words_sum(bytes: &[u8]) -> u128
    ensures value { result ≡ outer.words_sum bytes.now }
    ensures bound { result ≤ 65_535 * length bytes.now }
{
    let len = bytes.len();
    let mut sum: u128 = 0;
    let mut at = 0;
    while len - at >= BLOCK {
        let blocks = MOST.min((len - at) / BLOCK);
        sum += u128::from(blocks_sum(bytes, at, blocks));
        at += BLOCK * blocks;
    }
    sum + u128::from(rest_sum(&bytes[at..]))
}

/// A sum of words in 16 bits: what does not fit is added to the rest.
pub fn folded(words: u128) -> u16
    ensures { result ≡ outer.folded words words }
{
    let mut sum = words;
    while sum > 0xffff {
        sum = sum / 65_536 + sum % 65_536;
    }
    sum as u16
}

/// The one's complement sum of the big-endian 16-bit words, with a zero byte added to an odd length (RFC 1071). It is 0 only where every byte is 0.
pub fn ones_sum(bytes: &[u8]) -> u16
    ensures sum { result ≡ outer.ones_sum bytes.now }
    ensures zero { result ≡ 0 → All (λ byte. byte ≡ 0) bytes.now }
{
    folded(words_sum(bytes))
}
