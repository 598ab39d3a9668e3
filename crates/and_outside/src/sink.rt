//! A sink of bytes.
ghost use Rattle.std.specs.Prelude.{◌≡◌, ◌≤◌, ◌++◌, take, OnOk, OnErr, Some};
ghost use Rattle.and_outside.specs.Causes.{Rose, raised};

use crate::answer::Failed;

/// What bytes are appended to, as standard output.
///
/// A count that has reached 2^64 - 1 stays there, and then counts as risen in every clause.
pub trait Sink {
    ghost use Rattle.std.specs.Prelude.{ℕ, List};
    ghost use Rattle.and_outside.specs.Stream.{Stream};

    // What the sink means at a moment: its count, what is told of what was written, how many calls were made, and the count as
    // the last call found it.
    ghost stream: { Self → Stream };

    /// Appends the bytes. `Failed` comes only where `faults` rose in this call, and then a prefix of
    /// the bytes was appended.
    fn put(&mut self, bytes: &[u8]) -> Result<(), Failed>
        ensures appended { OnOk result ((w : List ℕ) → (stream self.old).written ≡ Some w → (stream self.new).written ≡ Some (w ++ bytes.now)) }
        ensures part { OnErr result ((w : List ℕ) → (stream self.old).written ≡ Some w
            → (n : ℕ) × ((stream self.new).written ≡ Some (w ++ take n bytes.now))) }
        ensures failed { OnErr result (Rose (stream self.old).faults (stream self.new).faults) }
        ensures counts { (stream self.old).faults ≤ (stream self.new).faults }
        ensures call { ((stream self.new).calls ≡ raised 1 (stream self.old).calls) × ((stream self.new).before ≡ (stream self.old).faults) };
}
