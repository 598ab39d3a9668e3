//! A program to check frames and outer packets by: each line of its input asks for one thing, and it writes a line for each.
//!
//! - `frame DIGITS`: the frame's Ethernet source address, its tuple, the hash of its flow and the source port of its outer packets, or the name
//!   of the first check that it fails.
//! - `outer DIGITS`: what the headers of an outer packet say, or the name of the first check that it fails.
//! - `wrap HOW FROM TO TTL VNI DIGITS`: the outer packet of a frame, `open`, `sealed`, or sealed `later` than it was wrapped. A node is a letter and
//!   a number: `h1` a host, `g0` a gateway, `r0` a gateway's redirect address.
//! - `batch COUNT`: a batch of so many operations.
//!
//! Bytes are hexadecimal digits. Its lines are written by `scripts/wire_rows.py`. It promises nothing: the stored run shows what it calls.
#![tactic(auto)]

mod outers;
mod words;

use crate::outers::{tell_outer, tell_wrapped};
use crate::words::{bytes_of, next_word, number};
use and_parcel::entropy_port;
use and_policy::{Batch, Entry, Fields, Op, Skip, flow_hash};
use and_wire::read_frame;
use anyhow::{Result, bail};

fn tell_fields(rt: &HostRuntime, fields: &Fields) -> Result<()> {
    let tuple = &fields.tuple;
    let hash = flow_hash(tuple);
    let port = entropy_port(hash);
    let mac = fields.source_mac;
    let (protocol, source, destination) = (tuple.protocol, tuple.source, tuple.destination);
    let (source_port, destination_port) = (tuple.source_port, tuple.destination_port);
    print!(rt; "{mac} {protocol} {source} {destination} ")?;
    println!(rt; "{source_port} {destination_port} {hash} {port}")?;
    Ok(())
}

fn skip_name(skip: Skip) -> &'static str {
    match skip {
        Skip::TooLong => "TooLong",
        Skip::Short => "Short",
        Skip::NotIp4 => "NotIp4",
        Skip::Cut => "Cut",
        Skip::BadIp4 => "BadIp4",
        Skip::ShortPorts => "ShortPorts",
    }
}

fn tell_frame(rt: &HostRuntime, digits: &str) -> Result<()> {
    let frame = bytes_of(rt.alloc(), digits)?;
    match read_frame(frame.as_slice()) {
        Ok(fields) => tell_fields(rt, &fields),
        Err(skip) => {
            let name = skip_name(skip);
            println!(rt; "{name}")?;
            Ok(())
        }
    }
}

/// How many operations a batch of so many has.
fn tell_batch(rt: &HostRuntime, count: &str) -> Result<()> {
    let mut ops = Vec::new(rt.alloc());
    for _ in 0..number(count) {
        ops.push(Op::Entry(Entry::Tick))?;
    }
    let Ok(batch) = Batch::make(rt.alloc(), ops.as_slice()) else {
        bail!("no memory");
    };
    let len = batch.ops().len();
    println!(rt; "{len}")?;
    Ok(())
}

/// Answers a line.
fn tell(rt: &HostRuntime, line: &str) -> Result<()> {
    let (kind, rest) = next_word(line);
    if kind == "frame" {
        tell_frame(rt, rest)
    } else if kind == "outer" {
        tell_outer(rt, rest)
    } else if kind == "wrap" {
        tell_wrapped(rt, rest)
    } else {
        tell_batch(rt, rest)
    }
}

fn main(rt: HostRuntime) -> Result<()> {
    for line in rt.lines(rt.alloc()) {
        let line = line?;
        tell(&rt, line.as_str())?;
    }
    Ok(())
}
