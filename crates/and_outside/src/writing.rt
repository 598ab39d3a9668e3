//! Writing all bytes to a writer that takes as many as it likes.
ghost use Rattle.std.specs.Prelude.{ℕ, take};
ghost use Rattle.std.specs.Bool.{OnTrue, OnFalse};
ghost use Rattle.std.specs.Io.KnownBytes.{Appends};

use std::io::Write;

/// Writes all bytes, and says whether that was done; otherwise the writer took some bytes at their
/// front. A write that takes nothing of what is left is a failure, and so is every error.
pub fn write_all<W: Write>(writer: &mut W, bytes: &[u8]) -> bool
    ensures all { OnTrue result (Appends (W.contents writer.old) (W.contents writer.new) bytes.now) }
    ensures part { OnFalse result ((n : ℕ) × Appends (W.contents writer.old) (W.contents writer.new) (take n bytes.now)) }
{
    let mut at = 0;
    while at < bytes.len() {
        match writer.write(&bytes[at..]) {
            Ok(0) => return false,
            Ok(count) => at += count,
            Err(_) => return false,
        }
    }
    true
}
