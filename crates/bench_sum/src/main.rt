//! A program to time the one's complement sum by: it sums 1,400 bytes ROUNDS times, with one byte changed before each, and writes a sum over the sums.
//!
//! It promises nothing of what it writes, which the stored run and the C beside it in `bench/sum` compare. It stands on `and_lanes`.
#![tactic(auto)]

ghost use Rattle.std.specs.Prelude.{◌<◌, length};

use and_lanes::ones_sum;
use std::process::ExitCode;
use std::{env, io};

const USAGE: &str = "usage: bench_sum ROUNDS";

/// How many bytes are summed.
const LEN: u32 = 1400;

/// Writes a byte, where there is a place for it.
fn change(bytes: &mut [u8], at: usize, byte: u8) {
    if at < bytes.len() {
        bytes[at] = byte;
    }
}

/// So many rounds over the bytes.
fn rounds(bytes: &mut [u8], count: u32) -> u32 {
    let mut sum: u32 = 0;
    for round in 0..count {
        change(
            bytes,
            (round % LEN) as usize,
            (sum.wrapping_add(round) % 256) as u8,
        );
        sum = sum
            .wrapping_mul(31)
            .wrapping_add(u32::from(ones_sum(bytes)));
    }
    sum
}

/// The number of the command line, after the program's name.
fn number(words: &[String]) -> Option<u32> {
    match words {
        [_, count] => count.parse().ok(),
        _ => None,
    }
}

fn main(rt: HostRuntime) -> io::Result<ExitCode> {
    let words: Vec<String> = env::args(&rt)?.collect(rt.alloc())?;
    let Some(count) = number(words.as_slice()) else {
        println!(rt; "{USAGE}")?;
        return Ok(ExitCode::from(1));
    };
    let mut bytes = Vec::new(rt.alloc());
    bytes.resize(LEN as usize, 0)?;
    let sum = rounds(&mut bytes, count);
    println!(rt; "{sum}")?;
    Ok(ExitCode::from(0))
}
