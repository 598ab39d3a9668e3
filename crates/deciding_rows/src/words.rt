//! Numbers and bytes from their texts.
ghost use Rattle.std.specs.Prelude.{◌≤◌};

use std::alloc::Global;
use std::io;

/// The decimal numbers of the words; the greatest of 32 bits for a word that is none.
pub(crate) fn numbers(alloc: Global, words: &str) -> io::Result<Vec<u32>> {
    let mut numbers = Vec::new(alloc);
    for word in words.split_whitespace() {
        numbers.push(word.parse::<u32>().unwrap_or(u32::MAX))?;
    }
    Ok(numbers)
}

/// The number of a hexadecimal digit; 0 of any other byte.
fn digit(byte: u8) -> u8
    ensures { result ≤ 15 }
{
    match byte {
        b'0'..=b'9' => byte - b'0',
        b'a'..=b'f' => byte - b'a' + 10,
        _ => 0,
    }
}

/// The bytes that the hexadecimal digits spell.
pub(crate) fn bytes_of(alloc: Global, digits: &str) -> io::Result<Vec<u8>> {
    let mut bytes = Vec::new(alloc);
    for pair in digits.as_bytes().chunks_exact(2) {
        if let [high, low] = pair {
            bytes.push(digit(*high) * 16 + digit(*low))?;
        }
    }
    Ok(bytes)
}
