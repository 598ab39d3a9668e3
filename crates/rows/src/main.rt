//! The rows: a program that runs each folder of its data through the top call, and compares what comes out with the folder, byte for byte;
//! and then has the traces judged by the plain program, which computes the definitions.
//!
//! It writes a line for each row that the file `rows` names: `NAME ok`, where the first difference is, or what a row of the file `not-yet` waits
//! for. Then it writes a line for each trace of a row: whether it is legal, complete, in the plain order, just and fresh; and it goes over the
//! table `changes` of traces with one line changed, which the plain program must find spoilt. With the words `judge SCENARIO CAPTURE TRACE ..` it
//! judges these files. It ends with a status other than 0 where a row differs or a judgement is another one, and says on standard error which
//! rows of `not-yet` and `not-judged` need not wait. It promises nothing beside that it ends; what it shows, it shows of the call that the
//! program `andromeda` makes, and of `and_plain` and `and_plain_fates`.
#![tactic(auto)]

mod changing;
mod comparing;
mod folder;
mod judging;
mod running;
mod showing;

use crate::comparing::compare;
use crate::folder::{reason_of, text_of};
use crate::judging::Asked;
use crate::running::run;
use crate::showing::{judge_files, show_changes, show_judged};
use and_outside::RealFiles;
use anyhow::{Result, bail};
use std::alloc::Global;
use std::env;
use std::process::ExitCode;
use std::rt::Files;

/// The outputs that `not-yet` names, and its rows with what they wait for.
const NOT_YET: &str = "not-yet";

/// What differs in a row, or nothing.
fn difference_of<R: Files + Drop>(
    alloc: Global,
    files: &mut RealFiles<R>,
    row: &str,
    not_yet: &str,
) -> Result<Option<String>> {
    let mut ran = run(alloc, files, row)?;
    compare(alloc, files, row, not_yet, &mut ran)
}

/// Runs the row and writes its line; says whether it is as it should be, or waits.
fn show<R: Files + Drop>(
    rt: &(impl Print + Eprint),
    alloc: Global,
    files: &mut RealFiles<R>,
    row: &str,
    not_yet: &str,
) -> Result<bool> {
    let difference = difference_of(alloc, files, row, not_yet)?;
    let difference = difference.as_ref().map(|text| text.as_str());
    match (reason_of(not_yet, row), difference) {
        (Some(reason), None) => {
            eprintln!(rt; "{row} is as it should be: take it from {NOT_YET}")?;
            println!(rt; "{row} waits for {reason}")?;
            Ok(true)
        }
        (Some(reason), Some(_)) => {
            println!(rt; "{row} waits for {reason}")?;
            Ok(true)
        }
        (None, None) => {
            println!(rt; "{row} ok")?;
            Ok(true)
        }
        (None, Some(text)) => {
            println!(rt; "{row} differs: {text}")?;
            Ok(false)
        }
    }
}

/// Runs all rows; says whether each is as it should be, or waits.
fn show_rows<R: Files + Drop>(
    rt: &(impl Print + Eprint),
    alloc: Global,
    files: &mut RealFiles<R>,
    rows: &str,
) -> Result<bool> {
    let not_yet = text_of(alloc, files, NOT_YET)?;
    let mut good = true;
    for row in rows.lines() {
        good = show(rt, alloc, files, row, not_yet.as_str())? && good;
    }
    Ok(good)
}

/// Has the plain program judge all traces, and the changes of them; says whether each is as it should be, or waits.
fn show_judgements<R: Files + Drop>(
    rt: &(impl Print + Eprint),
    alloc: Global,
    files: &mut RealFiles<R>,
    rows: &str,
) -> Result<bool> {
    let not_judged = text_of(alloc, files, "not-judged")?;
    let not_judged = not_judged.as_str();
    let beginnings = text_of(alloc, files, "beginnings")?;
    let table = text_of(alloc, files, "changes")?;
    let mut good = true;
    for row in rows.lines() {
        good = show_judged(rt, alloc, files, row, not_judged, Asked::Run)? && good;
    }
    for row in beginnings.as_str().lines() {
        good = show_judged(rt, alloc, files, row, not_judged, Asked::Beginning)? && good;
    }
    Ok(show_changes(rt, alloc, files, table.as_str(), not_judged)? && good)
}

fn main(rt: HostRuntime) -> Result<ExitCode> {
    let alloc = rt.alloc();
    let mut files = RealFiles::make(&rt);
    let words: Vec<String> = env::args(&rt)?.skip(1).collect(alloc)?;
    let good = match words.as_slice() {
        [] => {
            let rows = text_of(alloc, &mut files, "rows")?;
            let good = show_rows(&rt, alloc, &mut files, rows.as_str())?;
            show_judgements(&rt, alloc, &mut files, rows.as_str())? && good
        }
        [word, names @ ..] => {
            if word.as_str() != "judge" || names.len() % 3 != 0 {
                bail!("usage: rows, or rows judge SCENARIO CAPTURE TRACE ..");
            }
            judge_files(&rt, alloc, &mut files, names)?
        }
    };
    Ok(ExitCode::from(if good { 0 } else { 1 }))
}
