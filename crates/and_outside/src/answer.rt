//! What a call to the outside answers where it does not succeed.

/// Why a file was not read.
#[derive(Debug, Clone, Copy, PartialEq, Eq)]
pub enum ReadAnswer {
    /// The file could not be opened or read.
    Failed,
    /// The file is longer than the limit.
    TooLong,
    /// There was no memory for its bytes.
    NoMemory,
}

/// A write did not succeed.
#[derive(Debug, Clone, Copy, PartialEq, Eq)]
pub struct Failed;

/// There was no memory.
#[derive(Debug, Clone, Copy, PartialEq, Eq)]
pub struct NoMemory;
