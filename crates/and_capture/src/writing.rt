//! Writing captures.
ghost use Rattle.std.specs.Prelude.{◌≡◌, ◌+◌, ◌++◌, length, sum_by, OnOk, IfOk, IfSome};
ghost use Rattle.and_capture.specs.Reading.{reading};
ghost use Rattle.and_capture.specs.Spelling.{IsWithinLimits, record_of, written, written_header, little};

use crate::capture::{Capture, Taken};
use crate::fault::NoMemory;
use crate::{ETHERNET, HEADER_LEN, MAJOR, MAX_FRAME_LEN, MICROS, NANOS, RECORD_LEN};
use byteorder::{ByteOrder, LittleEndian};
use std::alloc::Global;

/// The minor version that is written.
const MINOR: u16 = 4;

/// How many bytes the file of these frames has, or none where that does not fit.
fn file_len(frames: &[Taken]) -> Option<usize>
    ensures { IfSome result (λ len. len ≡ HEADER_LEN + sum_by (λ t. RECORD_LEN + length t.frame) frames.now) }
{
    let mut len = HEADER_LEN;
    for taken in frames {
        len = len
            .checked_add(RECORD_LEN)?
            .checked_add(taken.frame.as_bytes().len())?;
    }
    Some(len)
}

/// The header of a file.
fn header(nanos: bool, link: u32) -> [u8; HEADER_LEN]
    ensures { result ≡ written_header nanos link }
{
    let mut bytes = [0; HEADER_LEN];
    LittleEndian::write_u32(&mut bytes, if nanos { NANOS } else { MICROS });
    LittleEndian::write_u16(&mut bytes[4..], MAJOR);
    LittleEndian::write_u16(&mut bytes[6..], MINOR);
    LittleEndian::write_u32(&mut bytes[16..], MAX_FRAME_LEN as u32);
    LittleEndian::write_u32(&mut bytes[20..], link);
    bytes
}

/// The four numbers before the captured bytes.
fn record_header(taken: &Taken) -> [u8; RECORD_LEN]
    ensures { result ++ taken.now.frame ≡ record_of little taken.now }
{
    let mut bytes = [0; RECORD_LEN];
    let captured = (taken.frame.as_bytes().len() as u64).to_le_bytes();
    LittleEndian::write_u32(&mut bytes, taken.seconds);
    LittleEndian::write_u32(&mut bytes[4..], taken.fraction);
    bytes[8..12].copy_from_slice(&captured[..4]);
    LittleEndian::write_u32(&mut bytes[12..], taken.original);
    bytes
}

fn put_record(out: &mut Vec<u8>, taken: &Taken) -> Result<(), NoMemory>
    ensures { OnOk result (out.new.items ≡ out.old.items ++ record_of little taken.now) }
{
    let header = record_header(taken);
    if out.extend_from_slice(&header).is_err() {
        return Err(NoMemory);
    }
    if out.extend_from_slice(taken.frame.as_bytes()).is_err() {
        return Err(NoMemory);
    }
    Ok(())
}

/// The file of the capture under a link type: low byte first, version 2.4, no time zone and accuracy, a
/// snapshot length of 262,144. Takes all its memory at once.
///
/// A frame's captured length is its length modulo 2 ^ 32, so only what is within the limits reads back.
pub fn write_capture(alloc: Global, link: u32, capture: &Capture) -> Result<Vec<u8>, NoMemory>
    ensures bytes { IfOk result (λ v. v.items ≡ written link capture.now) }
    // What is written for Ethernet and within the limits is read again.
    ensures again { IfOk result (λ v. link ≡ 1 → IsWithinLimits capture.now → reading v.items ≡ Ok capture.now) }
{
    let frames = capture.frames.as_slice();
    let Some(len) = file_len(frames) else {
        return Err(NoMemory);
    };
    let Ok(mut out) = Vec::with_capacity(alloc, len) else {
        return Err(NoMemory);
    };
    if out.extend_from_slice(&header(capture.nanos, link)).is_err() {
        return Err(NoMemory);
    }
    for taken in frames {
        put_record(&mut out, taken)?;
    }
    Ok(out)
}
