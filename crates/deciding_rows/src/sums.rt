//! Rows of sums and tags.

use crate::words::bytes_of;
use and_lanes::{ones_sum, tags_equal};
use std::io;

/// The one's complement sum of the bytes that the digits spell.
pub(crate) fn tell_sum(rt: &HostRuntime, digits: &str) -> io::Result<()> {
    let bytes = bytes_of(rt.alloc(), digits)?;
    let sum = ones_sum(&bytes);
    println!(rt; "{sum:04x}")
}

/// That of so many bytes like the one that the digits spell.
pub(crate) fn tell_filled(rt: &HostRuntime, digits: &str, numbers: &[u32]) -> io::Result<()> {
    let byte = bytes_of(rt.alloc(), digits)?;
    let ([byte], [count]) = (byte.as_slice(), numbers) else {
        return println!(rt; "no such call");
    };
    let mut bytes = Vec::new(rt.alloc());
    bytes.resize(*count as usize, *byte)?;
    let sum = ones_sum(&bytes);
    println!(rt; "{sum:04x}")
}

/// Which of the sixteen tags that the digits spell are the one of this number.
pub(crate) fn tell_tags(rt: &HostRuntime, digits: &str, numbers: &[u32]) -> io::Result<()> {
    let tags = bytes_of(rt.alloc(), digits)?;
    let (Ok(tags), [tag]) = (<&[u8; 16]>::try_from(tags.as_slice()), numbers) else {
        return println!(rt; "no such call");
    };
    let equal = tags_equal(tags, u8::try_from(*tag).unwrap_or(0));
    println!(rt; "{equal}")
}
