//! Rows of queues of parcels.

use and_parcel::{Parcel, ParcelQueue};
use and_wire::read_frame;
use std::io;

/// An Ethernet and an IPv4 header and the eight bytes of a UDP header, from 10.0.0.1, port 4096, to 10.0.0.2, port 80.
const FRAME: [u8; 42] = [
    2, 0, 0, 0, 0, 2, 2, 0, 0, 0, 0, 1, 8, 0, 0x45, 0, 0, 28, 0, 0, 0, 0, 64, 17, 0, 0, 10, 0, 0,
    1, 10, 0, 0, 2, 16, 0, 0, 80, 0, 8, 0, 0,
];

/// Puts a parcel of this number; says `queued`, or which parcel came back.
fn push(rt: &HostRuntime, queue: &mut ParcelQueue, packet: u32) -> io::Result<()> {
    if read_frame(&FRAME).is_err() {
        return println!(rt; "no frame");
    }
    let Ok(parcel) = Parcel::make(rt.alloc(), &FRAME, packet, 0) else {
        return println!(rt; "no memory");
    };
    match queue.push(parcel) {
        Ok(()) => println!(rt; "queued"),
        Err(back) => {
            let packet = back.packet();
            println!(rt; "back {packet}")
        }
    }
}

/// Says the number of the oldest parcel, or `none`.
fn pop(rt: &HostRuntime, queue: &mut ParcelQueue) -> io::Result<()> {
    match queue.pop() {
        Some(parcel) => {
            let packet = parcel.packet();
            println!(rt; "{packet}")
        }
        None => println!(rt; "none"),
    }
}

/// `make CAPACITY`, `push PACKET`, `pop`, `len`.
pub(crate) fn tell_queue(
    rt: &HostRuntime,
    queue: &mut ParcelQueue,
    verb: &str,
    numbers: &[u32],
) -> io::Result<()> {
    match (verb, numbers) {
        ("make", [capacity]) => {
            if let Ok(made) = ParcelQueue::make(rt.alloc(), *capacity) {
                *queue = made;
            }
            Ok(())
        }
        ("push", [packet]) => push(rt, queue, *packet),
        ("pop", []) => pop(rt, queue),
        ("len", []) => {
            let (len, is_empty) = (queue.len(), queue.is_empty());
            println!(rt; "{len} {is_empty}")
        }
        _ => println!(rt; "no such call"),
    }
}
