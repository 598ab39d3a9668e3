//! What a run left, beside what the row wants.

use crate::folder::{file_of, given_file, has_line, reason_of, row_text};
use crate::running::Ran;
use and_outside::Files;
use anyhow::Result;
use std::alloc::Global;

/// The most bytes of a file that a run was given or may have written.
const LONGEST: u64 = 40_000_000;

/// The files that a row gives to its run.
const GIVEN: [&str; 2] = ["scenario.json", "capture.pcap"];

/// The files that a run may write.
const WRITTEN: [&str; 3] = ["out.trace", "out.delivered.pcap", "out.underlay.pcap"];

/// The first difference of two texts: which line it is, from 1, and that line of either; nothing where they are the same.
fn line_difference(alloc: Global, got: &[u8], wanted: &[u8]) -> Result<Option<String>> {
    let mut lines = wanted.split(|byte| *byte == b'\n');
    for (at, line) in got.split(|byte| *byte == b'\n').enumerate() {
        let other = lines.next();
        if other != Some(line) {
            let number = at.saturating_add(1);
            let line = String::from_utf8_lossy(alloc, line)?;
            let other = String::from_utf8_lossy(alloc, other.unwrap_or(b"nothing".as_slice()))?;
            return Ok(Some(format!(in alloc; "line {number}: {line} instead of {other}")?));
        }
    }
    match lines.next() {
        None => Ok(None),
        Some(_) => Ok(Some(String::from_str(alloc, "it ends too early")?)),
    }
}

/// The place of the first byte that differs, from 0; nothing where the files are the same.
fn byte_difference(alloc: Global, got: &[u8], wanted: &[u8]) -> Result<Option<String>> {
    if got == wanted {
        return Ok(None);
    }
    let at = got
        .iter()
        .zip(wanted)
        .take_while(|pair| pair.0 == pair.1)
        .count();
    let (len, other) = (got.len(), wanted.len());
    Ok(Some(format!(in alloc; "byte {at}, of {len} instead of {other} bytes")?))
}

/// Where an output differs from the one that is wanted.
fn difference(alloc: Global, name: &str, got: &[u8], wanted: &[u8]) -> Result<Option<String>> {
    let found = if name.ends_with(".pcap") {
        byte_difference(alloc, got, wanted)?
    } else {
        line_difference(alloc, got, wanted)?
    };
    match found {
        Some(text) => Ok(Some(format!(in alloc; "{name} {text}")?)),
        None => Ok(None),
    }
}

/// Where a file that the run has left differs; it is to be there exactly where it is wanted.
fn left_difference(
    alloc: Global,
    ran: &mut Ran,
    name: &str,
    wanted: Option<Vec<u8>>,
) -> Result<Option<String>> {
    let got = ran.files.read(alloc, name, LONGEST).ok();
    match (got, wanted) {
        (None, None) => Ok(None),
        (Some(_), None) => Ok(Some(format!(in alloc; "{name} is written")?)),
        (None, Some(_)) => Ok(Some(format!(in alloc; "{name} is not written")?)),
        (Some(got), Some(wanted)) => difference(alloc, name, got.as_slice(), wanted.as_slice()),
    }
}

/// The first file that differs of those that the run was given, which stay as they were, and of those that it may have written.
fn files_difference<F: Files>(
    alloc: Global,
    files: &mut F,
    row: &str,
    not_yet: &str,
    ran: &mut Ran,
) -> Result<Option<String>> {
    for name in GIVEN {
        let wanted = given_file(alloc, files, row, name)?;
        let found = left_difference(alloc, ran, name, wanted)?;
        if found.is_some() {
            return Ok(found);
        }
    }
    let without = row_text(alloc, files, row, "without")?;
    for name in WRITTEN {
        if has_line(without.as_str(), name) || reason_of(not_yet, name).is_some() {
            continue;
        }
        let wanted = file_of(alloc, files, row, name)?;
        let found = left_difference(alloc, ran, name, wanted)?;
        if found.is_some() {
            return Ok(found);
        }
    }
    Ok(None)
}

/// Where the status differs.
fn status_difference(alloc: Global, status: u8, wanted: &str) -> Result<Option<String>> {
    let wanted = match wanted.lines().next() {
        Some(line) => line,
        None => "0",
    };
    let got = format!(in alloc; "{status}")?;
    if got.as_str() == wanted {
        return Ok(None);
    }
    Ok(Some(format!(in alloc; "status {got} instead of {wanted}")?))
}

/// The first difference between what a run left and what the row wants: standard error, the status, the files, the report. Outputs that the row
/// or the list `not_yet` leaves out are not compared.
pub fn compare<F: Files>(
    alloc: Global,
    files: &mut F,
    row: &str,
    not_yet: &str,
    ran: &mut Ran,
) -> Result<Option<String>> {
    let error = row_text(alloc, files, row, "error")?;
    let found = difference(alloc, "error", ran.err.bytes(), error.as_str().as_bytes())?;
    if found.is_some() {
        return Ok(found);
    }
    let status = row_text(alloc, files, row, "status")?;
    let found = status_difference(alloc, ran.status, status.as_str())?;
    if found.is_some() {
        return Ok(found);
    }
    let found = files_difference(alloc, files, row, not_yet, ran)?;
    if found.is_some() {
        return Ok(found);
    }
    let report = row_text(alloc, files, row, "report")?;
    difference(alloc, "report", ran.out.bytes(), report.as_str().as_bytes())
}
