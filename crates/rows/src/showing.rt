//! What is written of the traces that the plain program judges.

use crate::changing::{change_of, spoils};
use crate::folder::{file_of, reason_of};
use crate::judging::{Asked, judge};
use and_outside::Files;
use anyhow::{Result, bail};
use std::alloc::Global;

/// What the plain program finds wrong in the row's trace, also where there is no plan.
fn fault_of_row<F: Files>(
    alloc: Global,
    files: &mut F,
    row: &str,
    trace: &[u8],
    asked: Asked,
) -> Result<Option<String>> {
    let scenario = file_of(alloc, files, row, "scenario.json")?;
    let capture = file_of(alloc, files, row, "capture.pcap")?;
    let (Some(scenario), Some(capture)) = (scenario, capture) else {
        bail!("a trace without its inputs: {row}");
    };
    match judge(alloc, scenario.as_slice(), capture.as_slice(), trace, asked) {
        Ok(fault) => Ok(fault),
        Err(error) => Ok(Some(format!(in alloc; "{error}")?)),
    }
}

/// What is said of a trace without a fault.
fn praise(asked: Asked) -> &'static str {
    match asked {
        Asked::Run => "is legal, complete, in the plain order, just and fresh",
        Asked::Beginning => "is legal, just and fresh",
    }
}

/// Judges the row's trace, where it has one, and writes its line; says whether it is as it should be, or waits.
pub fn show_judged<F: Files>(
    rt: &(impl Print + Eprint),
    alloc: Global,
    files: &mut F,
    row: &str,
    not_judged: &str,
    asked: Asked,
) -> Result<bool> {
    let Some(trace) = file_of(alloc, files, row, "out.trace")? else {
        return Ok(true);
    };
    let fault = fault_of_row(alloc, files, row, trace.as_slice(), asked)?;
    let fault = fault.as_ref().map(|text| text.as_str());
    match (reason_of(not_judged, row), fault) {
        (Some(reason), fault) => {
            if fault.is_none() {
                eprintln!(rt; "{row} can be judged: take it from not-judged")?;
            }
            println!(rt; "{row} waits to be judged for {reason}")?;
            Ok(true)
        }
        (None, None) => {
            let praise = praise(asked);
            println!(rt; "{row} {praise}")?;
            Ok(true)
        }
        (None, Some(text)) => {
            println!(rt; "{row} is judged: {text}")?;
            Ok(false)
        }
    }
}

/// Goes over the table of changes, and writes those that are not as they should be, and how many are; says whether all are, or wait.
pub fn show_changes<F: Files>(
    rt: &impl Print,
    alloc: Global,
    files: &mut F,
    table: &str,
    not_judged: &str,
) -> Result<bool> {
    let mut right: usize = 0;
    let mut waiting: usize = 0;
    let mut wrong: usize = 0;
    for line in table.lines() {
        let Some(change) = change_of(line) else {
            bail!("no line of a table of changes: {line}");
        };
        if reason_of(not_judged, change.row).is_some() {
            waiting = waiting.saturating_add(1);
        } else if spoils(alloc, files, change)? {
            right = right.saturating_add(1);
        } else {
            println!(rt; "not as it should be: {line}")?;
            wrong = wrong.saturating_add(1);
        }
    }
    println!(rt; "{right} changes spoil what they should, {wrong} do not, {waiting} wait")?;
    Ok(wrong == 0)
}

/// A file of this name.
fn named<F: Files>(alloc: Global, files: &mut F, name: &str) -> Result<Vec<u8>> {
    match files.read(alloc, name, crate::folder::LONGEST) {
        Ok(bytes) => Ok(bytes),
        Err(_) => bail!("no file {name}"),
    }
}

/// Judges whole runs, each given by the names of its scenario, its capture and its trace, and writes a line for each; says whether all are
/// legal, complete, in the plain order, just and fresh.
pub fn judge_files<F: Files>(
    rt: &impl Print,
    alloc: Global,
    files: &mut F,
    names: &[String],
) -> Result<bool> {
    let mut good = true;
    for three in names.chunks_exact(3) {
        let [scenario, capture, trace] = three else {
            bail!("no three names");
        };
        let scenario = named(alloc, files, scenario.as_str())?;
        let capture = named(alloc, files, capture.as_str())?;
        let name = trace.as_str();
        let trace = named(alloc, files, name)?;
        let fault = judge(
            alloc,
            scenario.as_slice(),
            capture.as_slice(),
            trace.as_slice(),
            Asked::Run,
        )?;
        match fault {
            None => {
                let praise = praise(Asked::Run);
                println!(rt; "{name} {praise}")?;
            }
            Some(text) => {
                println!(rt; "{name} is judged: {text}")?;
                good = false;
            }
        }
    }
    Ok(good)
}
