//! The run.
ghost use Rattle.std.specs.Prelude.{◌≡◌, [], ◌+◌, ◌<◌, ◌≤◌, length, IfOk, OnOk, is_some, slice_get};
ghost use Rattle.and_events.specs.Complete.{IsComplete};
ghost use Rattle.and_events.specs.Ordered.{IsInPlainOrder};
ghost use Rattle.and_events.specs.Run.{Run, past};
ghost use Rattle.and_events.specs.Sound.{IsSound};
ghost use Rattle.and_laws.specs.Bound.{bound};
ghost use Rattle.and_others.specs.Ways.{Ways};
ghost use Rattle.and_book.specs.Views.{now, held};
ghost use Rattle.and_replay.specs.Parting.{AreParts};
ghost use Rattle.and_replay.specs.Turns.{IsNext, IsUnderWay, Adds};

use crate::acting::{drive, install_gate, install_host, pass_at, seal_at, unpin, work_at};
use crate::first::first_enabled;
use crate::parts::Parts;
use and_book::Book;
use and_events::{Actor, Plan};
use and_policy::NoMemory;
use and_slow::Steps;
use std::alloc::Global;
use std::marker::Brand;
use std::sync::ledger::{Blank, Ledger};

/// Whose turn it is.
#[derive(Debug, Clone, Copy, PartialEq, Eq)]
pub enum Turns {
    /// Of the enabled actors the one with the smallest number.
    Plain,
}

// The actor acts.
fn act<L: Ledger>(
    alloc: Global,
    book: &mut Book,
    parts: &mut Parts,
    actor: Actor,
    steps: &mut Steps<L>,
) -> Result<(), NoMemory>
    requires next { IsNext book.old actor }
    requires room { held book.old + 2 ≤ book.old.spare }
    requires parts { AreParts book.old.plan (past book.old.lines) parts.old }
    ensures adds { OnOk result (Adds book.old book.new actor) }
    ensures parts { OnOk result (AreParts book.new.plan (past book.new.lines) parts.new) }
{
    book.is_run();
    match actor {
        Actor::HostInstall(host) => {
            install_host(alloc, book, &mut parts.hosts, &mut parts.host_batches, host)?;
            book.is_run();
            Ok(())
        }
        Actor::GateInstall(gateway) => {
            install_gate(
                alloc,
                book,
                &mut parts.gates,
                &mut parts.gate_batches,
                gateway,
            )?;
            book.is_run();
            Ok(())
        }
        Actor::Worker { host, index } => {
            work_at(book, &parts.hosts, &mut parts.workers, host, index, steps);
            book.is_run();
            Ok(())
        }
        Actor::Coproc(host) => {
            seal_at(book, &mut parts.coprocs, host);
            book.is_run();
            Ok(())
        }
        Actor::Gateway(gateway) => {
            pass_at(book, &parts.gates, &mut parts.hovers, gateway);
            book.is_run();
            Ok(())
        }
        Actor::Driver => {
            drive(alloc, book)?;
            book.is_run();
            Ok(())
        }
        Actor::Controller => {
            unpin(alloc, book)?;
            book.is_run();
            Ok(())
        }
    }
}

// One turn: the first actor that is enabled acts.
fn turn<L: Ledger>(
    alloc: Global,
    book: &mut Book,
    parts: &mut Parts,
    steps: &mut Steps<L>,
) -> Result<(), NoMemory>
    requires way { IsUnderWay book.old parts.old }
    requires due { (now book.old).next < length book.old.plan.steps }
    ensures way { OnOk result (IsUnderWay book.new parts.new) }
    ensures plan { OnOk result (book.new.plan ≡ book.old.plan) }
    ensures longer { OnOk result (length book.new.lines ≡ length book.old.lines + 1) }
    ensures bounded { OnOk result (length book.new.lines ≤ bound book.new.plan) }
{
    book.room(alloc, 2)?;
    let actor = first_enabled(book);
    act(alloc, book, parts, actor, steps)?;
    book.is_run();
    Ok(())
}

// Whether a step is due.
fn is_due(book: &Book) -> bool
    ensures { result ≡ is_some (slice_get book.now.plan.steps (now book.now).next) }
{
    book.next_step().is_some()
}

/// As many events has a packet that goes over a gateway: an Inject, three Takes and three decisions; and one more for what the steps and the installers do.
const EVENTS_A_PACKET: u32 = 8;

// A book with room for the events of a run, so that its lines are seldom moved to a larger place. Where memory for that is wanting they get it as they come.
fn open(alloc: Global, plan: Plan) -> Result<Book, NoMemory>
    requires sound { IsSound plan }
    ensures plan { IfOk result (λ b. b.plan ≡ plan) }
    ensures threads { IfOk result (λ b. b.threads ≡ 0) }
    ensures lines { IfOk result (λ b. b.lines ≡ []) }
{
    let packets = plan.packets.len().min(100_000) as u32;
    let mut book = Book::make(alloc, plan, 0)?;
    let _roomy = book.room(alloc, packets * EVENTS_A_PACKET);
    Ok(book)
}

// All turns. How many rules workers look at is not asked.
fn run<L: Ledger>(alloc: Global, plan: Plan, blank: Blank) -> Result<Book, NoMemory>
    requires name { blank.name ≡ L.name }
    requires parts { blank.parts ≡ L.parts }
    requires some { 0 < blank.parts }
    requires sound { IsSound plan }
    ensures plan { IfOk result (λ b. b.plan ≡ plan) }
    ensures threads { IfOk result (λ b. b.threads ≡ 0) }
    ensures run { IfOk result (λ b. Run plan (past b.lines)) }
    ensures complete { IfOk result (λ b. IsComplete plan (past b.lines)) }
    ensures ordered { IfOk result (λ b. IsInPlainOrder plan (past b.lines)) }
    ensures ways { IfOk result (λ b. Ways plan (past b.lines)) }
{
    let mut steps: Steps<L> = Steps::new(blank);
    let mut parts = Parts::make(alloc, plan.settings)?;
    let mut book = open(alloc, plan)?;
    'turns: while is_due(&book) {
        turn(alloc, &mut book, &mut parts, &mut steps)?;
    }
    book.is_run();
    Ok(book)
}

/// Runs the plan to its end. Want of memory is the only error, and then nothing of the run is left.
pub fn replay_run(alloc: Global, plan: Plan, turns: Turns) -> Result<Book, NoMemory>
    requires sound { IsSound plan }
    ensures plan { IfOk result (λ b. b.plan ≡ plan) }
    ensures threads { IfOk result (λ b. b.threads ≡ 0) }
    ensures run { IfOk result (λ b. Run plan (past b.lines)) }
    ensures complete { IfOk result (λ b. IsComplete plan (past b.lines)) }
    ensures ordered { IfOk result (λ b. IsInPlainOrder plan (past b.lines)) }
    ensures ways { IfOk result (λ b. Ways plan (past b.lines)) }
{
    let Turns::Plain = turns;
    run::<Brand>(alloc, plan, Blank::new(1))
}
