//! A program to time the turn lock by: THREADS threads take TURNS turns each, and it writes how many turns were taken.
//!
//! It promises that the lock is closed; the number that it writes is only tested. It stands on `and_turn`.
#![tactic(auto)]

mod tally;
mod work;

use std::process::ExitCode;
use std::{env, io};

const USAGE: &str = "usage: bench_turn THREADS TURNS";

// The two numbers of the command line, after the program's name.
fn numbers(words: &[String]) -> Option<(u32, u32)> {
    match words {
        [_, threads, turns] => Some((threads.parse().ok()?, turns.parse().ok()?)),
        _ => None,
    }
}

fn main(rt: HostRuntime) -> io::Result<ExitCode> {
    let words: Vec<String> = env::args(&rt)?.collect(rt.alloc())?;
    let Some((threads, turns)) = numbers(words.as_slice()) else {
        println!(rt; "{USAGE}")?;
        return Ok(ExitCode::from(1));
    };
    match work::run(&rt, rt.alloc(), threads, turns) {
        Ok(taken) => {
            println!(rt; "{taken} turns")?;
            Ok(ExitCode::from(0))
        }
        Err(_) => Ok(ExitCode::from(6)),
    }
}
