//! A program to time tables and decisions by: it fills the tables of a host and of a gateway with ENTRIES entries and some orders, and then takes ROUNDS
//! rounds of what WORK names, and writes a sum over what was answered. Where WORK is `apply` it fills ROUNDS tables of hosts, one after the other; where it
//! is `hold`, it keeps them all.
//!
//! It promises nothing of the sum, which the stored run and the C beside it in `bench/tables` compare. It stands on `and_decide` and the tables.
#![tactic(auto)]

ghost use Rattle.std.specs.Prelude.{◌≡◌, ◌<◌};

mod deciding;
mod filling;
mod looking;

use crate::deciding::{GATEWAYS, Kind, decide};
use crate::filling::{Size, fill};
use and_policy::{NoMemory, Tables};
use and_routes::GatewayTables;
use and_slow::Steps;
use and_tables::HostTables;
use std::alloc::Global;
use std::marker::Brand;
use std::process::ExitCode;
use std::sync::ledger::{Blank, Ledger};
use std::{env, io};

const USAGE: &str = "usage: bench_tables WORK ENTRIES ROUNDS";

// So many tables of hosts, one after the other or together; the sum of their numbers.
fn filled(alloc: Global, size: Size, rounds: u32, hold: bool) -> Result<u32, NoMemory> {
    let mut kept = Vec::new(alloc);
    let mut sum: u32 = 0;
    for _round in 0..rounds {
        let mut tables = HostTables::make(alloc, 0, GATEWAYS)?;
        fill(alloc, &mut tables, size)?;
        sum = sum.wrapping_add(tables.at());
        if hold {
            kept.push(tables).map_err(|_| NoMemory)?;
        }
    }
    Ok(sum)
}

// The sum of so many rounds of the work, or nothing where there is no such work.
fn work<L: Ledger>(
    alloc: Global,
    name: &str,
    size: Size,
    rounds: u32,
    steps: &mut Steps<L>,
) -> Result<Option<u32>, NoMemory> {
    if name == "apply" || name == "hold" {
        return Ok(Some(filled(alloc, size, rounds, name == "hold")?));
    }
    let mut tables = HostTables::make(alloc, 0, GATEWAYS)?;
    fill(alloc, &mut tables, size)?;
    let mut gates = GatewayTables::make(alloc)?;
    fill(alloc, &mut gates, size)?;
    Ok(Some(match name {
        "net_of" => looking::net_of(&tables, size, rounds),
        "address" => looking::address(&tables, size, rounds),
        "owner" => looking::owner(&tables, size, rounds),
        "offload" => looking::offload(&tables, size, rounds),
        "touched" => looking::touched(&tables, size, rounds),
        "rules" => looking::rules(&tables, size, rounds),
        "route" => looking::route(&gates, size, rounds),
        "locate" => looking::locate(&gates, size, rounds),
        "egress_slow" => decide(alloc, &tables, &gates, Kind::Egress, false, rounds, steps)?,
        "egress_fast" => decide(alloc, &tables, &gates, Kind::Egress, true, rounds, steps)?,
        "ingress_slow" => decide(alloc, &tables, &gates, Kind::Ingress, false, rounds, steps)?,
        "ingress_fast" => decide(alloc, &tables, &gates, Kind::Ingress, true, rounds, steps)?,
        "gateway" => decide(alloc, &tables, &gates, Kind::Gateway, false, rounds, steps)?,
        _ => return Ok(None),
    }))
}

// The work and the two numbers of the command line, after the program's name.
fn asked(words: &[String]) -> Option<(&str, u32, u32)> {
    match words {
        [_, name, entries, rounds] => {
            Some((name.as_str(), entries.parse().ok()?, rounds.parse().ok()?))
        }
        _ => None,
    }
}

// Does what the command line asks for.
fn run<L: Ledger>(rt: &HostRuntime, blank: Blank) -> io::Result<u8>
    requires name { blank.name ≡ L.name }
    requires parts { blank.parts ≡ L.parts }
    requires some { 0 < blank.parts }
{
    let mut steps: Steps<L> = Steps::new(blank);
    let words: Vec<String> = env::args(rt)?.collect(rt.alloc())?;
    let Some((name, entries, rounds)) = asked(words.as_slice()) else {
        println!(rt; "{USAGE}")?;
        return Ok(1);
    };
    match work(rt.alloc(), name, Size::of(entries), rounds, &mut steps) {
        Ok(Some(sum)) => {
            println!(rt; "{sum}")?;
            Ok(0)
        }
        Ok(None) => {
            println!(rt; "{USAGE}")?;
            Ok(1)
        }
        Err(_) => Ok(6),
    }
}

fn main(rt: HostRuntime) -> io::Result<ExitCode> {
    let status = run::<Brand>(&rt, Blank::new(1))?;
    Ok(ExitCode::from(status))
}
