//! Why a capture was not read or written.

/// Memory ran out.
#[derive(Debug, Clone, Copy, PartialEq, Eq)]
pub struct NoMemory;

/// Why bytes were not read as a capture: the first check that fails. A place `at` counts the bytes
/// before the record.
#[derive(Debug, Clone, Copy, PartialEq, Eq)]
pub enum CaptureFault {
    /// There are fewer bytes than a capture header's 24.
    CutHeader,
    /// The first four bytes are none of the four spellings of a magic number.
    Magic,
    /// The major version is not 2.
    Major,
    /// The link type is not 1, Ethernet.
    LinkType,
    /// The record at this place has fewer bytes than a record header, or fewer than it says.
    CutRecord { at: u64 },
    /// The record at this place says that it has more than 262,144 bytes.
    LongRecord { at: u64 },
    /// There are bytes after 100,000 records.
    TooMany,
    /// Memory ran out.
    NoMemory,
}
