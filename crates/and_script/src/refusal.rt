//! Where a check failed while an object was read.

use crate::tables::Cause;

/// A check that failed, at the object itself or at its field of this name; or want of memory.
#[derive(Clone, Copy)]
pub(crate) enum Refusal<'a> {
    At { cause: Cause, name: &'a str },
    Whole { cause: Cause },
    NoMemory,
}
