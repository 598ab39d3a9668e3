//! A program to time the reading of scenarios by: it reads the file of a scenario, ROUNDS times as a JSON value alone (`value`), or as a scenario
//! (`scenario`), and writes how many bytes, items and names that were together.
//!
//! It promises nothing of these numbers, which the stored run shows. It stands on `and_script`.
#![tactic(auto)]

use and_outside::{Files, RealFiles};
use and_script::{read_scenario, read_value};
use std::alloc::Global;
use std::process::ExitCode;
use std::{env, io};

const USAGE: &str = "usage: bench_script value|scenario FILE ROUNDS";

/// The longest file of a scenario.
const LIMIT: u64 = 16_777_216;

/// Reads a JSON value; says whether the bytes are one.
fn value_of(alloc: Global, bytes: &[u8]) -> u64 {
    match read_value(alloc, bytes) {
        Ok(_) => 1,
        Err(_) => 0,
    }
}

/// Reads a scenario; says how many items and names it has.
fn sizes_of(alloc: Global, bytes: &[u8]) -> u64 {
    match read_scenario(alloc, bytes) {
        Ok(scenario) => { (scenario.items.len() as u64).wrapping_add(scenario.names.len() as u64) }
        Err(_) => 0,
    }
}

/// So many readings of the kind that is asked for.
fn readings(alloc: Global, whole: bool, bytes: &[u8], rounds: u32) -> u64 {
    let mut sum: u64 = 0;
    for _ in 0..rounds {
        let read = if whole {
            sizes_of(alloc, bytes)
        } else {
            value_of(alloc, bytes)
        };
        sum = sum.wrapping_add(read);
    }
    sum
}

fn main(rt: HostRuntime) -> io::Result<ExitCode> {
    let words: Vec<String> = env::args(&rt)?.collect(rt.alloc())?;
    let [_, what, file, rounds] = words.as_slice() else {
        println!(rt; "{USAGE}")?;
        return Ok(ExitCode::from(1));
    };
    let Ok(rounds) = rounds.parse::<u32>() else {
        println!(rt; "{USAGE}")?;
        return Ok(ExitCode::from(1));
    };
    let alloc = rt.alloc();
    let mut files = RealFiles::make(&rt);
    let Ok(bytes) = files.read(alloc, file.as_str(), LIMIT) else {
        return Ok(ExitCode::from(4));
    };
    let sum = readings(alloc, what.as_str() == "scenario", &bytes, rounds);
    println!(rt; "{sum}")?;
    Ok(ExitCode::from(0))
}
