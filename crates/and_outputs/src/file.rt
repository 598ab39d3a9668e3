//! A capture file that grows by one record at a time.
ghost use Rattle.std.specs.Prelude.{◌≡◌, ◌++◌, [], IfOk, OnOk};
ghost use Rattle.and_capture.specs.Spelling.{little, record_of, written};
ghost use Rattle.and_events.specs.State as states;
ghost use Rattle.and_outputs.specs.Records.{taken_of};

use and_capture::{Capture, Frames, HEADER_LEN, RECORD_LEN, write_capture};
use and_events::Plan;
use and_policy::NoMemory;
use byteorder::{ByteOrder, LittleEndian};
use std::alloc::Global;

/// A frame as a record has it, whose bytes stand elsewhere.
#[derive(Clone, Copy)]
pub(crate) struct Record<'a> {
    /// The whole seconds of the time stamp.
    pub(crate) seconds: u32,
    /// The rest of the time stamp, in the unit of its file.
    pub(crate) fraction: u32,
    /// How many bytes the frame had on the network.
    pub(crate) original: u32,
    /// The captured bytes.
    pub(crate) frame: &'a [u8],
}

/// A file without records, with room for so many bytes of records.
pub(crate) fn start(alloc: Global, nanos: bool, link: u32, room: usize) -> Result<Vec<u8>, NoMemory>
    ensures { IfOk result (λ out. out.items ≡ written link (record { nanos = nanos; frames = [] })) }
{
    let capture = Capture {
        nanos,
        frames: Frames::new(alloc),
    };
    let Ok(header) = write_capture(alloc, link, &capture) else {
        return Err(NoMemory);
    };
    let Ok(mut out) = Vec::with_capacity(alloc, room.saturating_add(HEADER_LEN)) else {
        return Err(NoMemory);
    };
    match out.extend_from_slice(&header) {
        Ok(()) => Ok(out),
        Err(_) => Err(NoMemory),
    }
}

/// The packet's frame, as the input capture has it.
pub(crate) fn frame_of(plan: &Plan, packet: u32) -> Record<'_>
    ensures { taken_of result ≡ (states.packet_at plan.now packet).taken }
{
    match plan.packets.as_slice().get(packet as usize) {
        Some(packet) => Record {
            seconds: packet.taken.seconds,
            fraction: packet.taken.fraction,
            original: packet.taken.original,
            frame: packet.taken.frame.as_bytes(),
        },
        None => Record {
            seconds: 0,
            fraction: 0,
            original: 0,
            frame: &[],
        },
    }
}

/// How many bytes the record of the packet's frame has. Only how often memory is taken rests on it.
pub(crate) fn record_len(plan: &Plan, packet: u32) -> usize {
    frame_of(plan, packet)
        .frame
        .len()
        .saturating_add(RECORD_LEN)
}

// The four numbers before the captured bytes, each with its lowest byte first.
fn record_header(taken: &Record<'_>) -> [u8; RECORD_LEN]
    ensures { result ++ taken.now.frame.now ≡ record_of little (taken_of taken.now) }
{
    let mut bytes = [0; RECORD_LEN];
    let captured = (taken.frame.len() as u64).to_le_bytes();
    LittleEndian::write_u32(&mut bytes, taken.seconds);
    LittleEndian::write_u32(&mut bytes[4..], taken.fraction);
    bytes[8..12].copy_from_slice(&captured[..4]);
    LittleEndian::write_u32(&mut bytes[12..], taken.original);
    bytes
}

/// Puts a record at the end.
pub(crate) fn put_record(out: &mut Vec<u8>, taken: &Record<'_>) -> Result<(), NoMemory>
    ensures { OnOk result (out.new.items ≡ out.old.items ++ record_of little (taken_of taken.now)) }
{
    let header = record_header(taken);
    if out.extend_from_slice(&header).is_err() {
        return Err(NoMemory);
    }
    if out.extend_from_slice(taken.frame).is_err() {
        return Err(NoMemory);
    }
    Ok(())
}
