//! The run of a row over files and sinks in memory.

use crate::folder::{given_file, row_text};
use and_outside::{Files, MemoryFiles, MemorySink};
use and_top::andromeda;
use anyhow::{Result, bail};
use std::alloc::Global;

/// How many bytes the files of a run may have together, with their names.
const ROOM: u64 = 80_000_000;

/// How many bytes a sink takes.
const SINK_ROOM: u64 = 1_000_000;

/// The words of a row that gives none.
const WORDS: &str = "replay\nscenario.json\ncapture.pcap\nout\n";

/// What a run left.
#[derive(Drop)]
pub struct Ran {
    /// The status.
    pub status: u8,
    /// The files.
    pub files: MemoryFiles,
    /// Standard output.
    pub out: MemorySink,
    /// Standard error.
    pub err: MemorySink,
}

/// The words, one a line.
fn words_of(alloc: Global, lines: &str) -> Result<Vec<String>> {
    let mut words = Vec::new(alloc);
    for line in lines.lines() {
        words.push(String::from_str(alloc, line)?)?;
    }
    Ok(words)
}

/// The numbers of the calls that fail: those that stand in the lines behind this word, after the first calls.
fn failing_in(alloc: Global, lines: &str, word: &str, first: u32) -> Result<Vec<u32>> {
    let mut numbers = Vec::new(alloc);
    for line in lines.lines() {
        if let Some((name, number)) = line.split_once(' ') {
            if name == word {
                numbers.push(number.parse::<u32>()?.saturating_add(first))?;
            }
        }
    }
    Ok(numbers)
}

/// A sink whose puts fail by the lines of the row.
fn sink_of(alloc: Global, failing: &str, word: &str) -> Result<MemorySink> {
    let failing = failing_in(alloc, failing, word, 0)?;
    match MemorySink::make(alloc, SINK_ROOM, failing.as_slice()) {
        Ok(sink) => Ok(sink),
        Err(_) => bail!("no memory"),
    }
}

/// Gives a file of the row to the run, where the row has it.
fn give(files: &mut MemoryFiles, name: &str, bytes: Option<Vec<u8>>) -> Result<()> {
    let Some(bytes) = bytes else {
        return Ok(());
    };
    if files.write(name, bytes.as_slice()).is_err() {
        bail!("no room for {name}");
    }
    Ok(())
}

/// The files that the row gives to its run. Each of them is one call, before those that fail by the lines of the row.
fn files_of<F: Files>(
    alloc: Global,
    files: &mut F,
    row: &str,
    failing: &str,
) -> Result<MemoryFiles> {
    let scenario = given_file(alloc, files, row, "scenario.json")?;
    let capture = given_file(alloc, files, row, "capture.pcap")?;
    let first = u32::from(scenario.is_some()).saturating_add(u32::from(capture.is_some()));
    let failing = failing_in(alloc, failing, "files", first)?;
    let Ok(mut given) = MemoryFiles::make(alloc, 8, ROOM, failing.as_slice()) else {
        bail!("no memory");
    };
    give(&mut given, "scenario.json", scenario)?;
    give(&mut given, "capture.pcap", capture)?;
    Ok(given)
}

/// The words of the row.
fn row_words<F: Files>(alloc: Global, files: &mut F, row: &str) -> Result<Vec<String>> {
    let lines = row_text(alloc, files, row, "words")?;
    let lines = if lines.is_empty() {
        WORDS
    } else {
        lines.as_str()
    };
    words_of(alloc, lines)
}

/// Runs the words of the row over its files.
pub fn run<F: Files>(alloc: Global, files: &mut F, row: &str) -> Result<Ran> {
    let words = row_words(alloc, files, row)?;
    let failing = row_text(alloc, files, row, "failing")?;
    let failing = failing.as_str();
    let mut given = files_of(alloc, files, row, failing)?;
    let mut out = sink_of(alloc, failing, "out")?;
    let mut err = sink_of(alloc, failing, "err")?;
    let status = andromeda(alloc, &words, &mut given, &mut out, &mut err);
    Ok(Ran {
        status,
        files: given,
        out,
        err,
    })
}
