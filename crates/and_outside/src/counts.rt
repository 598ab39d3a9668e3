//! What files count.

/// How many reads and how many writes failed, and how many bytes reads took, up to some moment.
#[derive(Debug, Clone, Copy, PartialEq, Eq)]
pub struct Counts {
    pub read_faults: u64,
    pub write_faults: u64,
    pub taken: u64,
}
