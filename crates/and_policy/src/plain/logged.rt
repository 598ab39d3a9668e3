//! Lists in which log entries stand.
ghost use Rattle.std.specs.Prelude.{◌≡◌, Option};
ghost use Rattle.and_policy.specs.declared.entry.Entry.{Entry};

use crate::entry::{Entry, Op};

/// What may be a log entry: an entry is one, and an operation may be one.
pub trait Logged {
    ghost use Rattle.std.specs.Prelude.{Option, Some};
    ghost use Rattle.and_policy.specs.declared.entry.Entry.{Entry};

    ghost entry_of: { Self → Option Entry };

    /// The entry that it is.
    fn entry(&self) -> Option<Entry>
        ensures { result ≡ entry_of self.now };
}

impl Logged for Entry {
    ghost use Rattle.std.specs.Prelude.{Option, Some};
    ghost use Rattle.and_policy.specs.declared.entry.Entry.{Entry};

    ghost entry_of = { λ (e : Entry). Some e };

    fn entry(&self) -> Option<Entry> {
        Some(*self)
    }
}

impl Logged for Op {
    ghost use Rattle.and_policy.specs.Logged.{entry_of_op};

    ghost entry_of = { entry_of_op };

    fn entry(&self) -> Option<Entry> {
        match *self {
            Op::Entry(entry) => Some(entry),
            Op::Offload(_) => None,
        }
    }
}
