//! A program to check flow caches, ports, usage, queues, sums and tags by: each line of its input is a call, as words and numbers, and it writes a line for each
//! that answers something. A line that is no call is written as it stands, so that what comes out can be read alone.
//!
//! What must come out is written by hand from the definitions. It promises nothing: the stored run shows what the calls answer. It stands on the crates
//! whose calls it makes.
#![tactic(auto)]

mod caches;
mod ports;
mod queues;
mod sums;
mod usages;
mod words;

use crate::caches::tell_cache;
use crate::ports::tell_ports;
use crate::queues::tell_queue;
use crate::sums::{tell_filled, tell_sum, tell_tags};
use crate::usages::{Counted, tell_usage};
use crate::words::numbers;
use and_flow::FlowCache;
use and_parcel::ParcelQueue;
use and_policy::{NoMemory, Side};
use and_ports::Ports;
use std::alloc::Global;
use std::io;
use std::process::ExitCode;

/// What the lines speak of.
#[derive(Drop)]
pub struct Things {
    cache: FlowCache,
    ports: Ports,
    usage: Counted,
    queue: ParcelQueue,
}

impl Things {
    /// An empty cache, no ports, no usage, and a queue of one place.
    fn make(alloc: Global) -> Result<Things, NoMemory> {
        Ok(Things {
            cache: FlowCache::make(alloc)?,
            ports: Ports::make(alloc, 0, 0)?,
            usage: Counted::make(alloc)?,
            queue: ParcelQueue::make(alloc, 1)?,
        })
    }
}

/// Does what the line says.
fn tell(rt: &HostRuntime, things: &mut Things, line: &str) -> io::Result<()> {
    let (what, words) = line.split_once(' ').unwrap_or((line, ""));
    let (verb, rest) = words.split_once(' ').unwrap_or((words, ""));
    let numbers = numbers(rt.alloc(), rest)?;
    match what {
        "egress" => tell_cache(rt, &mut things.cache, Side::Egress, verb, &numbers),
        "ingress" => tell_cache(rt, &mut things.cache, Side::Ingress, verb, &numbers),
        "ports" => tell_ports(rt, &mut things.ports, verb, &numbers),
        "usage" => tell_usage(rt, &mut things.usage, verb, &numbers),
        "queue" => tell_queue(rt, &mut things.queue, verb, &numbers),
        "sum" => tell_sum(rt, verb),
        "filled" => tell_filled(rt, verb, &numbers),
        "tags" => tell_tags(rt, verb, &numbers),
        _ => println!(rt; "{line}"),
    }
}

fn main(rt: HostRuntime) -> io::Result<ExitCode> {
    let Ok(mut things) = Things::make(rt.alloc()) else {
        return Ok(ExitCode::from(6));
    };
    for line in rt.lines(rt.alloc()) {
        let line = line?;
        tell(&rt, &mut things, line.as_str())?;
    }
    Ok(ExitCode::from(0))
}
