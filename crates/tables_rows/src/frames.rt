//! Frames of tuples.
ghost use Rattle.std.specs.Prelude.{◌<◌};

use and_policy::{NoMemory, Tuple};
use std::alloc::Global;

/// An Ethernet and an IPv4 header of 42 bytes in all, with the ports where the tuple has them, and without a checksum.
pub(crate) fn frame_of(alloc: Global, tuple: &Tuple) -> Result<Vec<u8>, NoMemory> {
    let head: [u8; 23] = [
        2, 0, 0, 0, 0, 2, 2, 0, 0, 0, 0, 1, 8, 0, 0x45, 0, 0, 28, 0, 0, 0, 0, 64,
    ];
    let mut frame = head.to_vec(alloc).map_err(|_| NoMemory)?;
    frame
        .extend_from_slice(&[tuple.protocol, 0, 0])
        .map_err(|_| NoMemory)?;
    for part in [tuple.source.to_be_bytes(), tuple.destination.to_be_bytes()] {
        frame.extend_from_slice(&part).map_err(|_| NoMemory)?;
    }
    for part in [
        tuple.source_port.to_be_bytes(),
        tuple.destination_port.to_be_bytes(),
        [0, 8],
        [0, 0],
    ] {
        frame.extend_from_slice(&part).map_err(|_| NoMemory)?;
    }
    Ok(frame)
}
