//! A program to check by what a host's worker answers where its tables are not those that the book has: it takes a packet from a book in which five entries
//! were appended, decides of it by tables of a number of operations, and tries to settle it; it writes a line for each case.
//!
//! What must come out is written by hand from the definitions. It promises nothing: the stored run shows what the calls answer. It stands on the crates
//! whose calls it makes.
#![tactic(auto)]

ghost use Rattle.std.specs.Prelude.{◌≡◌, ◌<◌, IfOk};
ghost use Rattle.actor_rows.specs.Waiting.{IsWaiting};

mod driving;
mod inputs;

use crate::driving::prepared;
use crate::inputs::Fault;
use and_book::Book;
use and_events::Node;
use and_policy::{Entry, NoMemory, Op, Tables};
use and_slow::Steps;
use and_tables::HostTables;
use and_worker::{Settled, Worker};
use std::alloc::Global;
use std::io;
use std::marker::Brand;
use std::process::ExitCode;
use std::sync::ledger::{Blank, Ledger};

/// A case.
#[derive(Clone, Copy)]
struct Case {
    /// How many of the five entries host 0 has installed.
    installs: u32,
    /// At how many operations its tables stand.
    tables: u32,
    /// Whether the last of these is another than the book's.
    other: bool,
}

/// What came of it.
enum Told {
    /// There was no packet.
    Nothing,
    /// The tables stand at so many operations, fewer than are needed.
    Behind(u32),
    /// What became of the packet.
    Settled(Settled),
}

// The operation that the tables take where the book has this one.
fn taken(case: Case, at: u32, op: &Op) -> Op
    requires { at < case.tables }
{
    if case.other && at + 1 == case.tables {
        Op::Entry(Entry::AddNet { net: 8 })
    } else {
        *op
    }
}

// The tables take one operation more, where they have not all of the case.
fn add(alloc: Global, tables: &mut HostTables, case: Case, op: &Op) -> Result<(), NoMemory>
    ensures host { tables.new.host ≡ tables.old.host }
    ensures gateways { tables.new.gateways ≡ tables.old.gateways }
{
    let at = tables.at();
    if at < case.tables {
        tables.apply(alloc, taken(case, at, op))
    } else {
        Ok(())
    }
}

// Tables of host 0 with the first operations of its programme, or with another one as the last.
fn tables_of(alloc: Global, book: &Book, case: Case) -> Result<HostTables, NoMemory>
    ensures host { IfOk result (λ t. t.host ≡ 0) }
    ensures gateways { IfOk result (λ t. t.gateways ≡ book.now.plan.settings.gateways) }
{
    book.is_run();
    let mut tables = HostTables::make(alloc, 0, book.plan().settings.gateways)?;
    for op in book.programme(Node::Host(0)) {
        add(alloc, &mut tables, case, op)?;
    }
    Ok(tables)
}

// What the worker answers.
fn tell<L: Ledger>(
    alloc: Global,
    book: &mut Book,
    tables: &HostTables,
    steps: &mut Steps<L>,
) -> Result<Told, NoMemory>
    requires waiting { IsWaiting book.old }
    requires host { tables.now.host ≡ 0 }
    requires gateways { tables.now.gateways ≡ book.old.plan.settings.gateways }
{
    let mut worker = Worker::make(alloc, 0, 0)?;
    book.room(alloc, 2)?;
    if !worker.take(book, 0) {
        return Ok(Told::Nothing);
    }
    match worker.decide(tables, steps) {
        Ok(()) => Ok(Told::Settled(worker.settle(book, tables, 0))),
        Err(behind) => Ok(Told::Behind(behind.at)),
    }
}

// What comes of the case.
fn outcome_of<L: Ledger>(alloc: Global, case: Case, steps: &mut Steps<L>) -> Result<Told, Fault> {
    let mut book = prepared(alloc, case.installs)?;
    let Ok(tables) = tables_of(alloc, &book, case) else {
        return Err(Fault::NoMemory);
    };
    match tell(alloc, &mut book, &tables, steps) {
        Ok(told) => Ok(told),
        Err(_) => Err(Fault::NoMemory),
    }
}

// The line of the case.
fn write<L: Ledger>(rt: &HostRuntime, case: Case, steps: &mut Steps<L>) -> io::Result<()> {
    let Case {
        installs,
        tables,
        other,
    } = case;
    let last = if other { ", the last another" } else { "" };
    print!(rt; "tables at {tables}, {installs} installed{last}: ")?;
    match outcome_of(rt.alloc(), case, steps) {
        Ok(Told::Nothing) => println!(rt; "nothing to take"),
        Ok(Told::Behind(at)) => println!(rt; "Behind at {at}"),
        Ok(Told::Settled(Settled::Done)) => println!(rt; "Done"),
        Ok(Told::Settled(Settled::Early { announced })) => {
            println!(rt; "Early, announced {announced}")
        }
        Ok(Told::Settled(Settled::Differs { at, .. })) => println!(rt; "Differs at {at}"),
        Err(Fault::Scenario) => println!(rt; "the scenario is refused"),
        Err(Fault::NoMemory) => println!(rt; "no memory"),
    }
}

// The lines of all cases.
fn run<L: Ledger>(rt: &HostRuntime, blank: Blank) -> io::Result<()>
    requires name { blank.name ≡ L.name }
    requires parts { blank.parts ≡ L.parts }
    requires some { 0 < blank.parts }
{
    let mut steps: Steps<L> = Steps::new(blank);
    let case = |installs, tables, other| Case {
        installs,
        tables,
        other,
    };
    write(rt, case(5, 4, false), &mut steps)?;
    write(rt, case(5, 5, false), &mut steps)?;
    write(rt, case(4, 5, false), &mut steps)?;
    write(rt, case(4, 4, false), &mut steps)?;
    write(rt, case(4, 3, false), &mut steps)?;
    write(rt, case(4, 4, true), &mut steps)?;
    write(rt, case(4, 5, true), &mut steps)
}

fn main(rt: HostRuntime) -> io::Result<ExitCode> {
    run::<Brand>(&rt, Blank::new(1))?;
    Ok(ExitCode::from(0))
}
