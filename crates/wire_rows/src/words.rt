//! The words of a line.
ghost use Rattle.std.specs.Prelude.{◌≤◌};

use anyhow::Result;
use std::alloc::Global;

/// The number of a hexadecimal digit; 0 of any other byte.
fn digit(byte: u8) -> u8
    ensures { result ≤ 15 }
{
    match byte {
        b'0'..=b'9' => byte - b'0',
        b'a'..=b'f' => byte - b'a' + 10,
        _ => 0,
    }
}

/// The bytes that the digits spell.
pub fn bytes_of(alloc: Global, digits: &str) -> Result<Vec<u8>> {
    let mut bytes = Vec::new(alloc);
    for pair in digits.as_bytes().chunks_exact(2) {
        if let [high, low] = pair {
            bytes.push(digit(*high) * 16 + digit(*low))?;
        }
    }
    Ok(bytes)
}

/// Writes the bytes as digits.
pub fn tell_bytes(rt: &HostRuntime, bytes: &[u8]) -> Result<()> {
    for byte in bytes {
        print!(rt; "{byte:02x}")?;
    }
    Ok(())
}

/// The first word, and what stands behind the space after it.
pub fn next_word<'a>(words: &'a str) -> (&'a str, &'a str) {
    words.split_once(' ').unwrap_or((words, ""))
}

/// The number that the word spells; 0 where it spells none.
pub fn number(word: &str) -> u32 {
    word.parse::<u32>().unwrap_or(0)
}
