//! The files of a row's folder.

use and_outside::{Files, ReadAnswer};
use anyhow::{Result, bail};
use std::alloc::Global;

/// The most bytes of a file of a row.
pub const LONGEST: u64 = 40_000_000;

/// The bytes of a file; nothing where it cannot be read.
fn bytes_of<F: Files>(alloc: Global, files: &mut F, name: &str) -> Result<Option<Vec<u8>>> {
    match files.read(alloc, name, LONGEST) {
        Ok(bytes) => Ok(Some(bytes)),
        Err(ReadAnswer::NoMemory) => bail!("no memory"),
        Err(_) => Ok(None),
    }
}

/// The text of a file that is to be there.
pub fn text_of<F: Files>(alloc: Global, files: &mut F, name: &str) -> Result<String> {
    let Some(bytes) = bytes_of(alloc, files, name)? else {
        bail!("no file {name}");
    };
    Ok(String::from_utf8_lossy(alloc, bytes.as_slice())?)
}

/// A file of the row; nothing where the row has none of that name.
pub fn file_of<F: Files>(
    alloc: Global,
    files: &mut F,
    row: &str,
    name: &str,
) -> Result<Option<Vec<u8>>> {
    let path = format!(in alloc; "{row}/{name}")?;
    bytes_of(alloc, files, path.as_str())
}

/// The text of a file of the row, and the empty text where the row has none of that name.
pub fn row_text<F: Files>(alloc: Global, files: &mut F, row: &str, name: &str) -> Result<String> {
    match file_of(alloc, files, row, name)? {
        Some(bytes) => Ok(String::from_utf8_lossy(alloc, bytes.as_slice())?),
        None => Ok(String::new(alloc)),
    }
}

/// The length to which the lines ask to fill a file; 0 where they do not name it.
fn length_in(lines: &str, name: &str) -> usize {
    match reason_of(lines, name) {
        Some(digits) => digits.parse::<usize>().unwrap_or(0),
        None => 0,
    }
}

/// A file that the row gives to its run, filled with zeros where the row says so; nothing where the row has none of that name.
pub fn given_file<F: Files>(
    alloc: Global,
    files: &mut F,
    row: &str,
    name: &str,
) -> Result<Option<Vec<u8>>> {
    let lengths = row_text(alloc, files, row, "lengths")?;
    let Some(mut bytes) = file_of(alloc, files, row, name)? else {
        return Ok(None);
    };
    let length = length_in(lengths.as_str(), name);
    if bytes.len() < length {
        bytes.resize(length, 0)?;
    }
    Ok(Some(bytes))
}

/// The rest of the first line that begins with this word and a space, or nothing.
pub fn reason_of<'a>(lines: &'a str, word: &str) -> Option<&'a str> {
    for line in lines.lines() {
        if let Some((first, rest)) = line.split_once(' ') {
            if first == word {
                return Some(rest);
            }
        }
    }
    None
}

/// Whether a line is just this word.
pub fn has_line(lines: &str, word: &str) -> bool {
    lines.lines().any(|line| line == word)
}
