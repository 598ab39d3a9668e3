//! Captures: the classic pcap file as tcpdump writes it, read and written.
//!
//! [`read_capture`] takes exactly the files that have a capture header of version 2 and link type 1
//! (Ethernet) in one of the four spellings, and then whole records within the limits; of any other
//! file it tells the first check that fails, from left to right, and where. [`write_capture`] writes
//! the little-endian spelling of a capture under any link type.
//!
//! It stands on `byteorder` and on the library alone.
#![tactic(auto)]

mod bytes;
mod capture;
mod fault;
mod reading;
mod writing;

pub use bytes::Bytes;
pub use capture::{Capture, Frames, Taken};
pub use fault::{CaptureFault, NoMemory};
pub use reading::read_capture;
pub use writing::write_capture;

/// The bytes of a capture's header.
pub const HEADER_LEN: usize = 24;

/// The bytes of a record's header, before the captured bytes.
pub const RECORD_LEN: usize = 16;

/// The most frames that a capture may have.
pub const MAX_FRAMES: usize = 100_000;

/// The most bytes that a frame may have.
pub const MAX_FRAME_LEN: usize = 262_144;

/// The magic number of a file with microseconds.
const MICROS: u32 = 0xa1b2_c3d4;

/// The magic number of a file with nanoseconds.
const NANOS: u32 = 0xa1b2_3c4d;

/// The major version.
const MAJOR: u16 = 2;

/// The link type of Ethernet.
const ETHERNET: u32 = 1;
