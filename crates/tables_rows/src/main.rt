//! A program that draws 300 lists of operations from a seeded generator, and compares what tables, decisions and flow caches answer with the plain
//! policy: after every twelfth draw, and at the end of each list. Decisions are compared with an empty cache and, twice a list, with one of drawn puts,
//! whose outcomes are what the plain policy says at their stamps: the answer must be the policy's, found fast exactly where the list of puts answers.
//!
//! The entries are those that a log takes, of every kind, and among them are orders. It writes a line for each hundred lists and for each answer that
//! differs, and ends with status 1 where one did, or where no decision was to be fast or none slow. It promises nothing beside that it ends. It stands
//! on the crates whose calls it compares, and on the plain functions of `and_policy`.
#![tactic(auto)]

ghost use Rattle.std.specs.Prelude.{◌≡◌, ◌<◌};

mod comparing;
mod deciding;
mod drawing;
mod filled;
mod found;
mod frames;
mod plainly;

use crate::comparing::compare_tables;
use crate::deciding::{GATEWAYS, compare_drawn, compare_full};
use crate::drawing::Draws;
use crate::found::Found;
use crate::plainly::{Puts, entries_of};
use and_flow::FlowCache;
use and_policy::{Entry, Log, NoMemory, Op, Tables};
use and_routes::GatewayTables;
use and_slow::Steps;
use and_tables::HostTables;
use std::alloc::Global;
use std::io;
use std::marker::Brand;
use std::process::ExitCode;
use std::sync::ledger::{Blank, Ledger};

/// How many operations are drawn for a list, of which a log refuses some.
const DRAWN: u32 = 150;

/// How many ticks the log has.
fn ticks_of(entries: &[Entry]) -> u32 {
    let mut ticks: u32 = 0;
    for entry in entries {
        if *entry == Entry::Tick {
            ticks = ticks.saturating_add(1);
        }
    }
    ticks
}

/// The next operation, where the log takes it.
fn draw(alloc: Global, draws: &mut Draws, log: &mut Log) -> Result<Option<Op>, NoMemory> {
    if draws.below(5) == 0 {
        return Ok(Some(Op::Offload(draws.order(ticks_of(log.entries())))));
    }
    let entry = draws.entry();
    if log.check(&entry).is_err() {
        return Ok(None);
    }
    log.append(alloc, entry)?;
    Ok(Some(Op::Entry(entry)))
}

/// Each call at all operations of the tables; where `full` says so, with a full cache as well.
fn compare<L: Ledger>(
    alloc: Global,
    found: &mut Found,
    draws: &mut Draws,
    tables: &HostTables,
    gates: &GatewayTables,
    cache: &mut FlowCache,
    puts: &mut Puts,
    full: bool,
    steps: &mut Steps<L>,
) -> Result<(), NoMemory> {
    found.at = tables.at();
    let entries = entries_of(alloc, tables.ops())?;
    compare_tables(alloc, found, draws, tables, gates, &entries, steps)?;
    compare_drawn(
        alloc, found, draws, tables, gates, &entries, cache, puts, steps,
    )?;
    if full {
        compare_full(alloc, found, draws, tables, gates, &entries, steps)?;
    }
    Ok(())
}

/// Draws a list and compares it; gives what was found.
fn run_list<L: Ledger>(alloc: Global, list: u32, steps: &mut Steps<L>) -> Result<Found, NoMemory> {
    let mut draws = Draws::new(list);
    let mut log = Log::make(alloc, 4)?;
    let mut tables = HostTables::make(alloc, 0, GATEWAYS)?;
    let mut gates = GatewayTables::make(alloc)?;
    let mut cache = FlowCache::make(alloc)?;
    let mut puts = Puts::new(alloc);
    let mut found = Found::new(alloc, list);
    for turn in 1..=DRAWN {
        if let Some(op) = draw(alloc, &mut draws, &mut log)? {
            if tables.at() < 4_294_967_295 && gates.at() < 4_294_967_295 {
                tables.apply(alloc, op)?;
                gates.apply(alloc, op)?;
            }
        }
        if turn % 12 == 0 || turn == DRAWN {
            let full = turn == 72 || turn == DRAWN;
            compare(
                alloc, &mut found, &mut draws, &tables, &gates, &mut cache, &mut puts, full, steps,
            )?;
        }
    }
    Ok(found)
}

/// All lists; says whether none differed.
fn run<L: Ledger>(rt: &HostRuntime, blank: Blank) -> io::Result<bool>
    requires name { blank.name ≡ L.name }
    requires parts { blank.parts ≡ L.parts }
    requires some { 0 < blank.parts }
{
    let mut steps: Steps<L> = Steps::new(blank);
    let (mut good, mut fast, mut slow) = (true, false, false);
    for list in 1..=300_u32 {
        let Ok(found) = run_list(rt.alloc(), list, &mut steps) else {
            println!(rt; "list {list}: no memory")?;
            return Ok(false);
        };
        for difference in &found.differences {
            let (list, at, call) = (difference.list, difference.at, difference.call);
            println!(rt; "list {list}, {at} operations: {call} differs")?;
            good = false;
        }
        fast = fast || found.fast;
        slow = slow || found.slow;
        if list % 100 == 0 {
            println!(rt; "{list} lists compared")?;
        }
    }
    Ok(good && fast && slow)
}

fn main(rt: HostRuntime) -> io::Result<ExitCode> {
    let good = run::<Brand>(&rt, Blank::new(1))?;
    Ok(ExitCode::from(if good { 0 } else { 1 }))
}
