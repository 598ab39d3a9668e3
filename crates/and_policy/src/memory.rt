//! Want of memory.

/// Memory was wanted and not there.
#[derive(Debug, Clone, Copy, PartialEq, Eq)]
pub struct NoMemory;
