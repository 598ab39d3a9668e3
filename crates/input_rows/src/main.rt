//! A program to check the reading of scenarios and captures by, and the plans of both: each line of its input is the word `scenario` and a
//! JSON text, the word `capture` and the bytes of a file in hexadecimal digits, the word `written` with a link type and such digits, or the word
//! `plan` with such digits and a JSON text. It writes a line for each: `accepted` and what was read of a capture, the fault's name and its path or
//! place, the digits of the capture as it is written again, or what is planned.
//!
//! Its lines are written by `scripts/input_rows.py`. It promises nothing: the stored run shows what is read.
#![tactic(auto)]

ghost use Rattle.std.specs.Prelude.{◌≤◌};

mod planned;

use and_capture::{Capture, CaptureFault, Taken, read_capture, write_capture};
use and_script::{ScenarioFault, read_scenario};
use planned::tell_plan;
use std::alloc::Global;
use std::io;

/// The number of a hexadecimal digit; 0 of any other byte.
fn digit(byte: u8) -> u8
    ensures { result ≤ 15 }
{
    match byte {
        b'0'..=b'9' => byte - b'0',
        b'a'..=b'f' => byte - b'a' + 10,
        _ => 0,
    }
}

/// The bytes that the digits spell.
fn bytes_of(alloc: Global, digits: &[u8]) -> io::Result<Vec<u8>> {
    let mut bytes = Vec::new(alloc);
    for pair in digits.chunks_exact(2) {
        if let [high, low] = pair {
            bytes.push(digit(*high) * 16 + digit(*low))?;
        }
    }
    Ok(bytes)
}

/// A name, and a path where there is one.
fn tell_path(rt: &HostRuntime, name: &str, path: &[u8]) -> io::Result<()> {
    let path = str::from_utf8(path).unwrap_or("");
    println!(rt; "{name}{path}")
}

fn tell_scenario(rt: &HostRuntime, text: &[u8]) -> io::Result<()> {
    match read_scenario(rt.alloc(), text) {
        Ok(_) => println!(rt; "accepted"),
        Err(ScenarioFault::NotJson) => println!(rt; "NotJson"),
        Err(ScenarioFault::NoMemory) => println!(rt; "NoMemory"),
        Err(ScenarioFault::Field { path }) => tell_path(rt, "Field ", path.as_bytes()),
        Err(ScenarioFault::Unknown { path }) => tell_path(rt, "Unknown ", path.as_bytes()),
        Err(ScenarioFault::Range { path }) => tell_path(rt, "Range ", path.as_bytes()),
        Err(ScenarioFault::Limit { path }) => tell_path(rt, "Limit ", path.as_bytes()),
    }
}

/// A frame's time stamp, its length on the network, and its bytes in hexadecimal digits.
fn tell_frame(rt: &HostRuntime, taken: &Taken) -> io::Result<()> {
    let (seconds, fraction, original) = (taken.seconds, taken.fraction, taken.original);
    print!(rt; " {seconds} {fraction} {original} ")?;
    for byte in taken.frame.as_bytes() {
        print!(rt; "{byte:02x}")?;
    }
    Ok(())
}

fn tell_frames(rt: &HostRuntime, capture: &Capture) -> io::Result<()> {
    print!(rt;
        "{}",
        if capture.nanos {
            "accepted nanos"
        } else {
            "accepted micros"
        }
    )?;
    for taken in capture.frames.as_slice() {
        tell_frame(rt, taken)?;
    }
    println!(rt; "")
}

fn tell_capture(rt: &HostRuntime, digits: &[u8]) -> io::Result<()> {
    let bytes = bytes_of(rt.alloc(), digits)?;
    match read_capture(rt.alloc(), bytes.as_slice()) {
        Ok(capture) => tell_frames(rt, &capture),
        Err(CaptureFault::CutHeader) => println!(rt; "CutHeader"),
        Err(CaptureFault::Magic) => println!(rt; "Magic"),
        Err(CaptureFault::Major) => println!(rt; "Major"),
        Err(CaptureFault::LinkType) => println!(rt; "LinkType"),
        Err(CaptureFault::CutRecord { at }) => println!(rt; "CutRecord {at}"),
        Err(CaptureFault::LongRecord { at }) => println!(rt; "LongRecord {at}"),
        Err(CaptureFault::TooMany) => println!(rt; "TooMany"),
        Err(CaptureFault::NoMemory) => println!(rt; "NoMemory"),
    }
}

/// The capture of a file, written again under a link type.
fn tell_written(rt: &HostRuntime, words: &str) -> io::Result<()> {
    let (link, digits) = words.split_once(' ').unwrap_or(("", words));
    let link = link.parse::<u32>().unwrap_or(0);
    let bytes = bytes_of(rt.alloc(), digits.as_bytes())?;
    let Ok(capture) = read_capture(rt.alloc(), bytes.as_slice()) else {
        return println!(rt; "no capture");
    };
    let Ok(written) = write_capture(rt.alloc(), link, &capture) else {
        return println!(rt; "no memory");
    };
    for byte in written.as_slice() {
        print!(rt; "{byte:02x}")?;
    }
    println!(rt; "")
}

fn tell_planned(rt: &HostRuntime, inputs: &str) -> io::Result<()> {
    let (digits, text) = inputs.split_once(' ').unwrap_or((inputs, ""));
    let bytes = bytes_of(rt.alloc(), digits.as_bytes())?;
    tell_plan(rt, bytes.as_slice(), text.as_bytes())
}

/// Answers a line of these words.
fn tell(rt: &HostRuntime, kind: &str, rest: &str) -> io::Result<()> {
    if kind == "scenario" {
        tell_scenario(rt, rest.as_bytes())
    } else if kind == "capture" {
        tell_capture(rt, rest.as_bytes())
    } else if kind == "written" {
        tell_written(rt, rest)
    } else {
        tell_planned(rt, rest)
    }
}

fn main(rt: HostRuntime) -> io::Result<()> {
    for line in rt.lines(rt.alloc()) {
        let line = line?;
        if let Some((kind, rest)) = line.split_once(' ') {
            tell(&rt, kind, rest)?;
        }
    }
    Ok(())
}
