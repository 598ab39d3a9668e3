//! Reading captures.
ghost use Rattle.std.specs.Prelude.{◌≡◌, ◌≢◌, ◌+◌, ◌≤◌, length, drop, IfOk, IfErr, MatchResult};
ghost use Rattle.and_capture.specs.Reading.{Gives, record_at, frames_at, capture_in, reading};
ghost use Rattle.and_capture.specs.Spelling.{Spells};

use crate::bytes::Bytes;
use crate::capture::{Capture, Frames, Taken};
use crate::fault::CaptureFault;
use crate::{ETHERNET, HEADER_LEN, MAJOR, MAX_FRAME_LEN, MAX_FRAMES, MICROS, NANOS, RECORD_LEN};
use byteorder::{BigEndian, ByteOrder, LittleEndian};
use std::alloc::Global;

/// The record at the front of the bytes, which stand at a place of the file.
#[tactic(auto, unfolding(crate::specs::Reading::record_at))]
fn record_of<O: ByteOrder>(alloc: Global, at: u64, bytes: &[u8]) -> Result<Taken, CaptureFault>
    ensures gives { Gives (λ t. t) result (record_at O.number_of at bytes.now) }
    ensures inside { IfOk result (λ t. RECORD_LEN + length t.frame ≤ length bytes.now) }
{
    if bytes.len() < RECORD_LEN {
        return Err(CaptureFault::CutRecord { at });
    }
    let captured = O::read_u32(&bytes[8..]) as usize;
    if captured > MAX_FRAME_LEN {
        return Err(CaptureFault::LongRecord { at });
    }
    let rest = &bytes[RECORD_LEN..];
    if captured > rest.len() {
        return Err(CaptureFault::CutRecord { at });
    }
    let Ok(frame) = Bytes::make(alloc, &rest[..captured]) else {
        return Err(CaptureFault::NoMemory);
    };
    Ok(Taken {
        seconds: O::read_u32(bytes),
        fraction: O::read_u32(&bytes[4..]),
        original: O::read_u32(&bytes[12..]),
        frame,
    })
}

/// The frames of a file's records, which stand after its header.
fn frames_of<O: ByteOrder>(alloc: Global, bytes: &[u8]) -> Result<Frames, CaptureFault>
    requires { HEADER_LEN ≤ length bytes.now }
    ensures { Gives (λ f. f) result (frames_at O.number_of MAX_FRAMES HEADER_LEN (drop HEADER_LEN bytes.now)) }
{
    let mut frames = Vec::new(alloc);
    let (_, mut rest) = bytes.split_at(HEADER_LEN);
    while !rest.is_empty() {
        if frames.len() >= MAX_FRAMES {
            return Err(CaptureFault::TooMany);
        }
        let at = (bytes.len() - rest.len()) as u64;
        let frame = record_of::<O>(alloc, at, rest)?;
        let (_, after) = rest.split_at(RECORD_LEN + frame.frame.as_bytes().len());
        rest = after;
        if frames.push(frame).is_err() {
            return Err(CaptureFault::NoMemory);
        }
    }
    Ok(Frames::from_vec(frames))
}

/// The capture of a file whose byte order and unit are known.
#[tactic(auto, unfolding(crate::specs::Reading::capture_in))]
fn capture_of<O: ByteOrder>(
    alloc: Global,
    nanos: bool,
    bytes: &[u8],
) -> Result<Capture, CaptureFault>
    requires { HEADER_LEN ≤ length bytes.now }
    ensures { Gives (λ c. c) result (capture_in O.number_of nanos bytes.now) }
{
    if O::read_u16(&bytes[4..]) != MAJOR {
        return Err(CaptureFault::Major);
    }
    if O::read_u32(&bytes[20..]) != ETHERNET {
        return Err(CaptureFault::LinkType);
    }
    let frames = frames_of::<O>(alloc, bytes)?;
    Ok(Capture { nanos, frames })
}

/// The capture that the bytes spell, in either byte order and with either unit of time.
#[tactic(auto, unfolding(crate::specs::Reading::reading))]
fn any_capture_of(alloc: Global, bytes: &[u8]) -> Result<Capture, CaptureFault>
    ensures { Gives (λ c. c) result (reading bytes.now) }
{
    if bytes.len() < HEADER_LEN {
        return Err(CaptureFault::CutHeader);
    }
    match (LittleEndian::read_u32(bytes), BigEndian::read_u32(bytes)) {
        (MICROS, _) => capture_of::<LittleEndian>(alloc, false, bytes),
        (NANOS, _) => capture_of::<LittleEndian>(alloc, true, bytes),
        (_, MICROS) => capture_of::<BigEndian>(alloc, false, bytes),
        (_, NANOS) => capture_of::<BigEndian>(alloc, true, bytes),
        _ => Err(CaptureFault::Magic),
    }
}

/// The capture that the bytes spell: a header of 24 bytes, then the records, each of 16 bytes and the
/// captured ones, to the end. The magic number tells the byte order and the unit of time; minor version,
/// time zone, accuracy and snapshot length are not looked at.
///
/// Of bytes that spell none the error is the first check that fails, from left to right.
pub fn read_capture(alloc: Global, bytes: &[u8]) -> Result<Capture, CaptureFault>
    // What is read is spelled so.
    ensures found { IfOk result (λ capture. Spells bytes.now capture) }
    // What is spelled so is read, unless memory runs out.
    ensures only { (capture : Capture) → Spells bytes.now capture →
        MatchResult result (λ read. read ≡ capture) (λ fault. fault ≡ CaptureFault.NoMemory) }

    // The capture, or the first check that fails.
    ensures capture { IfOk result (λ capture. reading bytes.now ≡ Ok capture) }
    ensures fault { IfErr result (λ fault. fault ≢ CaptureFault.NoMemory → reading bytes.now ≡ Err fault) }
{
    any_capture_of(alloc, bytes)
}
