//! A program to time parcels by: it wraps a frame of 1,400 bytes and reads it back, ROUNDS times, and writes a sum over what was read.
//!
//! It promises nothing of the sum, which the stored run and the C beside it in `bench/parcel` compare. It stands on `and_parcel`.
#![tactic(auto)]

ghost use Rattle.std.specs.Prelude.{◌<◌, ◌^◌};

use and_parcel::{Outer, Parcel, entropy_port};
use and_policy::{host_address, route_address};
use and_wire::read_frame;
use std::process::ExitCode;
use std::{env, io};

const USAGE: &str = "usage: bench_parcel ROUNDS";

/// An Ethernet and an IPv4 header: UDP from 10.0.0.1 to 10.0.0.2, 1,386 bytes.
const HEADER: [u8; 34] = [
    2, 0, 0, 0, 0, 2, 2, 0, 0, 0, 0, 1, 8, 0, 0x45, 0, 5, 0x6a, 0, 0, 0x40, 0, 0x40, 17, 0, 0, 10,
    0, 0, 1, 10, 0, 0, 2,
];

/// One parcel there and back, and the sum with what was read.
fn there_and_back(parcel: &mut Parcel, vni: u32, sum: u32) -> u32
    requires { vni < 2 ^ 24 }
{
    let outer = Outer {
        source: host_address(0),
        destination: route_address(0),
        ttl: (vni % 256) as u8,
        vni,
        source_port: entropy_port(16_821),
        sealed: false,
    };
    parcel.wrap(&outer);
    match parcel.unwrap() {
        Ok(read) => sum
            .wrapping_mul(31)
            .wrapping_add(read.vni)
            .wrapping_add(u32::from(read.ttl)),
        Err(_) => sum,
    }
}

/// So many rounds over one parcel, with another network and TTL in each.
fn rounds(parcel: &mut Parcel, count: u32) -> u32 {
    let mut sum: u32 = 0;
    for round in 0..count {
        sum = there_and_back(parcel, round % 16_777_216, sum);
    }
    sum
}

/// The number of the command line, after the program's name.
fn number(words: &[String]) -> Option<u32> {
    match words {
        [_, count] => count.parse().ok(),
        _ => None,
    }
}

fn main(rt: HostRuntime) -> io::Result<ExitCode> {
    let words: Vec<String> = env::args(&rt)?.collect(rt.alloc())?;
    let Some(count) = number(words.as_slice()) else {
        println!(rt; "{USAGE}")?;
        return Ok(ExitCode::from(1));
    };
    let mut frame = HEADER.to_vec(rt.alloc())?;
    frame.resize(1400, 0)?;
    if read_frame(&frame).is_err() {
        return Ok(ExitCode::from(1));
    }
    let Ok(mut parcel) = Parcel::make(rt.alloc(), &frame, 0, 1) else {
        return Ok(ExitCode::from(6));
    };
    let sum = rounds(&mut parcel, count);
    println!(rt; "{sum}")?;
    Ok(ExitCode::from(0))
}
