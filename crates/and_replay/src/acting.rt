//! The turns of the actors.
ghost use Rattle.std.specs.Prelude.{◌≡◌, ◌+◌, ◌<◌, ◌≤◌, true, length, is_some, OnOk};
ghost use Rattle.and_events.specs.declared.event.Actor.TheVariants as actors;
ghost use Rattle.and_events.specs.declared.event.Actor.TheVariants.{Controller, Driver};
ghost use Rattle.and_events.specs.declared.event.Node.TheVariants as nodes;
ghost use Rattle.and_events.specs.Legal.{CanAnnounce, CanInstall};
ghost use Rattle.and_events.specs.Places.{IsNode, installer_of};
ghost use Rattle.and_events.specs.Run.{past};
ghost use Rattle.and_book.specs.Views.{now, held};
ghost use Rattle.and_replay.specs.Parting.{installed_ops, host_tables, IsBatch, IsWorking, IsSealing, IsPassing, AreHosts, AreGates, AreHostBatches, AreGateBatches, AreWorkers, AreCoprocs, AreHovers};
ghost use Rattle.and_replay.specs.Turns.{IsNext, Adds};

use and_book::Book;
use and_driver::{control, turn};
use and_events::{Actor, Node, hand_place};
use and_hover::{Coproc, Hover};
use and_install::{apply, begin, end};
use and_policy::{Batch, NoMemory, Tables};
use and_routes::GatewayTables;
use and_slow::Steps;
use and_tables::HostTables;
use and_worker::{Settled, Worker};
use std::alloc::Global;
use std::sync::ledger::Ledger;

// The node's installer announces what is new, and keeps it as its batch.
fn announce(
    alloc: Global,
    book: &mut Book,
    node: Node,
    batch: &mut Option<Batch>,
) -> Result<(), NoMemory>
    requires node { IsNode book.old.plan.settings node }
    requires next { IsNext book.old (installer_of node) }
    requires room { held book.old + 1 ≤ book.old.spare }
    requires may { CanAnnounce book.old.plan (now book.old) node }
    ensures adds { OnOk result (Adds book.old book.new (installer_of node)) }
    ensures ops { OnOk result (installed_ops book.new.plan (past book.new.lines) node ≡ installed_ops book.old.plan (past book.old.lines) node) }
    ensures batch { OnOk result (IsBatch book.new.plan (past book.new.lines) node batch.new) }
{
    book.is_run();
    let found = begin(alloc, book, node, 0)?;
    *batch = found;
    book.is_run();
    Ok(())
}

// The node's installer installs what it announced: its batch goes into the tables.
fn finish<T: Tables>(
    alloc: Global,
    book: &mut Book,
    node: Node,
    tables: &mut T,
    batch: &mut Option<Batch>,
) -> Result<(), NoMemory>
    requires node { IsNode book.old.plan.settings node }
    requires next { IsNext book.old (installer_of node) }
    requires room { held book.old + 1 ≤ book.old.spare }
    requires may { CanInstall book.old.plan (now book.old) node }
    requires tables { T.ops tables.old ≡ installed_ops book.old.plan (past book.old.lines) node }
    requires batch { IsBatch book.old.plan (past book.old.lines) node batch.old }
    ensures adds { OnOk result (Adds book.old book.new (installer_of node)) }
    ensures tables { OnOk result (T.ops tables.new ≡ installed_ops book.new.plan (past book.new.lines) node) }
    ensures batch { OnOk result (IsBatch book.new.plan (past book.new.lines) node batch.new) }
    ensures origin { T.origin tables.new ≡ T.origin tables.old }
{
    book.is_run();
    let at = book.announced(node);
    let Some(announced) = batch.take() else {
        unreachable!()
    };
    apply(alloc, tables, &announced)?;
    end(book, node, at, 0);
    book.is_run();
    Ok(())
}

// The node's installer installs what it announced, or announces what is new.
fn install<T: Tables>(
    alloc: Global,
    book: &mut Book,
    node: Node,
    tables: &mut T,
    batch: &mut Option<Batch>,
) -> Result<(), NoMemory>
    requires node { IsNode book.old.plan.settings node }
    requires next { IsNext book.old (installer_of node) }
    requires room { held book.old + 1 ≤ book.old.spare }
    requires tables { T.ops tables.old ≡ installed_ops book.old.plan (past book.old.lines) node }
    requires batch { IsBatch book.old.plan (past book.old.lines) node batch.old }
    ensures adds { OnOk result (Adds book.old book.new (installer_of node)) }
    ensures tables { OnOk result (T.ops tables.new ≡ installed_ops book.new.plan (past book.new.lines) node) }
    ensures batch { OnOk result (IsBatch book.new.plan (past book.new.lines) node batch.new) }
    ensures origin { T.origin tables.new ≡ T.origin tables.old }
{
    if book.installed(node) < book.announced(node) {
        finish(alloc, book, node, tables, batch)?;
        Ok(())
    } else {
        announce(alloc, book, node, batch)?;
        Ok(())
    }
}

// A host's installer acts.
pub(crate) fn install_host(
    alloc: Global,
    book: &mut Book,
    hosts: &mut Vec<HostTables>,
    batches: &mut Vec<Option<Batch>>,
    host: u32,
) -> Result<(), NoMemory>
    requires next { IsNext book.old (actors.HostInstall host) }
    requires room { held book.old + 1 ≤ book.old.spare }
    requires hosts { AreHosts book.old.plan (past book.old.lines) hosts.old.items }
    requires batches { AreHostBatches book.old.plan (past book.old.lines) batches.old.items }
    ensures adds { OnOk result (Adds book.old book.new (actors.HostInstall host)) }
    ensures hosts { OnOk result (AreHosts book.new.plan (past book.new.lines) hosts.new.items) }
    ensures batches { OnOk result (AreHostBatches book.new.plan (past book.new.lines) batches.new.items) }
{
    let place = host as usize;
    install(
        alloc,
        book,
        Node::Host(host),
        &mut hosts[place],
        &mut batches[place],
    )?;
    book.is_run();
    Ok(())
}

// A gateway's installer acts.
pub(crate) fn install_gate(
    alloc: Global,
    book: &mut Book,
    gates: &mut Vec<GatewayTables>,
    batches: &mut Vec<Option<Batch>>,
    gateway: u32,
) -> Result<(), NoMemory>
    requires next { IsNext book.old (actors.GateInstall gateway) }
    requires room { held book.old + 1 ≤ book.old.spare }
    requires gates { AreGates book.old.plan (past book.old.lines) gates.old.items }
    requires batches { AreGateBatches book.old.plan (past book.old.lines) batches.old.items }
    ensures adds { OnOk result (Adds book.old book.new (actors.GateInstall gateway)) }
    ensures gates { OnOk result (AreGates book.new.plan (past book.new.lines) gates.new.items) }
    ensures batches { OnOk result (AreGateBatches book.new.plan (past book.new.lines) batches.new.items) }
{
    let place = gateway as usize;
    install(
        alloc,
        book,
        Node::Gate(gateway),
        &mut gates[place],
        &mut batches[place],
    )?;
    book.is_run();
    Ok(())
}

// A host's worker decides of the packet in its hand, and settles it.
fn settle_packet<L: Ledger>(
    book: &mut Book,
    tables: &HostTables,
    worker: &mut Worker,
    steps: &mut Steps<L>,
)
    requires next { IsNext book.old (actors.Worker worker.old.host worker.old.index) }
    requires tables { tables.now ≡ host_tables book.old.plan (past book.old.lines) worker.old.host }
    requires worker { IsWorking book.old.plan (past book.old.lines) worker.old }
    requires has { is_some worker.old.hand ≡ true }
    ensures adds { Adds book.old book.new (actors.Worker worker.old.host worker.old.index) }
    ensures worker { IsWorking book.new.plan (past book.new.lines) worker.new }
    ensures host { worker.new.host ≡ worker.old.host }
    ensures index { worker.new.index ≡ worker.old.index }
{
    book.is_run();
    match worker.decide(tables, steps) {
        Ok(()) => match worker.settle(book, tables, 0) {
            Settled::Done => book.is_run(),
            _ => unreachable!(),
        },
        Err(_) => unreachable!(),
    }
}

// A host's worker takes a packet, or settles the one in its hand.
fn work<L: Ledger>(book: &mut Book, tables: &HostTables, worker: &mut Worker, steps: &mut Steps<L>)
    requires next { IsNext book.old (actors.Worker worker.old.host worker.old.index) }
    requires tables { tables.now ≡ host_tables book.old.plan (past book.old.lines) worker.old.host }
    requires worker { IsWorking book.old.plan (past book.old.lines) worker.old }
    requires room { held book.old + 2 ≤ book.old.spare }
    ensures adds { Adds book.old book.new (actors.Worker worker.old.host worker.old.index) }
    ensures worker { IsWorking book.new.plan (past book.new.lines) worker.new }
    ensures host { worker.new.host ≡ worker.old.host }
    ensures index { worker.new.index ≡ worker.old.index }
{
    book.is_run();
    if worker.take(book, 0) {
        book.is_run();
    } else {
        settle_packet(book, tables, worker, steps);
    }
}

// The worker of this number at the host acts.
pub(crate) fn work_at<L: Ledger>(
    book: &mut Book,
    hosts: &[HostTables],
    workers: &mut Vec<Worker>,
    host: u32,
    index: u32,
    steps: &mut Steps<L>,
)
    requires next { IsNext book.old (actors.Worker host index) }
    requires room { held book.old + 2 ≤ book.old.spare }
    requires hosts { AreHosts book.old.plan (past book.old.lines) hosts.now }
    requires workers { AreWorkers book.old.plan (past book.old.lines) workers.old.items }
    ensures adds { Adds book.old book.new (actors.Worker host index) }
    ensures workers { AreWorkers book.new.plan (past book.new.lines) workers.new.items }
{
    book.is_run();
    let actor = Actor::Worker { host, index };
    let place = hand_place(book.plan().settings, actor);
    work(book, &hosts[host as usize], &mut workers[place], steps);
    book.is_run();
}

// A host's coprocessor takes a packet, or sends the one in its hand.
fn seal(book: &mut Book, coproc: &mut Coproc)
    requires next { IsNext book.old (actors.Coproc coproc.old.host) }
    requires coproc { IsSealing book.old.plan (past book.old.lines) coproc.old }
    requires room { held book.old + 2 ≤ book.old.spare }
    ensures adds { Adds book.old book.new (actors.Coproc coproc.old.host) }
    ensures coproc { IsSealing book.new.plan (past book.new.lines) coproc.new }
    ensures host { coproc.new.host ≡ coproc.old.host }
{
    if !coproc.take(book, 0) {
        coproc.settle(book, 0);
    }
}

// The coprocessor of this host acts.
pub(crate) fn seal_at(book: &mut Book, coprocs: &mut Vec<Coproc>, host: u32)
    requires next { IsNext book.old (actors.Coproc host) }
    requires room { held book.old + 2 ≤ book.old.spare }
    requires coprocs { AreCoprocs book.old.plan (past book.old.lines) coprocs.old.items }
    ensures adds { Adds book.old book.new (actors.Coproc host) }
    ensures coprocs { AreCoprocs book.new.plan (past book.new.lines) coprocs.new.items }
{
    let place = host as usize;
    seal(book, &mut coprocs[place]);
    book.is_run();
}

// A gateway's worker decides of the packet in its hand, and settles it.
fn settle_at_gateway(book: &mut Book, tables: &GatewayTables, hover: &mut Hover)
    requires next { IsNext book.old (actors.Gateway hover.old.gateway) }
    requires tables { tables.now ≡ installed_ops book.old.plan (past book.old.lines) (nodes.Gate hover.old.gateway) }
    requires worker { IsPassing book.old.plan (past book.old.lines) hover.old }
    requires has { is_some hover.old.hand ≡ true }
    ensures adds { Adds book.old book.new (actors.Gateway hover.old.gateway) }
    ensures worker { IsPassing book.new.plan (past book.new.lines) hover.new }
    ensures gateway { hover.new.gateway ≡ hover.old.gateway }
{
    book.is_run();
    match hover.decide(tables) {
        Ok(()) => match hover.settle(book, tables, 0) {
            Settled::Done => book.is_run(),
            _ => unreachable!(),
        },
        Err(_) => unreachable!(),
    }
}

// A gateway's worker takes a packet, or settles the one in its hand.
fn pass(book: &mut Book, tables: &GatewayTables, hover: &mut Hover)
    requires next { IsNext book.old (actors.Gateway hover.old.gateway) }
    requires tables { tables.now ≡ installed_ops book.old.plan (past book.old.lines) (nodes.Gate hover.old.gateway) }
    requires worker { IsPassing book.old.plan (past book.old.lines) hover.old }
    requires room { held book.old + 2 ≤ book.old.spare }
    ensures adds { Adds book.old book.new (actors.Gateway hover.old.gateway) }
    ensures worker { IsPassing book.new.plan (past book.new.lines) hover.new }
    ensures gateway { hover.new.gateway ≡ hover.old.gateway }
{
    book.is_run();
    if hover.take(book, 0) {
        book.is_run();
    } else {
        settle_at_gateway(book, tables, hover);
    }
}

// The worker of this gateway acts.
pub(crate) fn pass_at(
    book: &mut Book,
    gates: &[GatewayTables],
    hovers: &mut Vec<Hover>,
    gateway: u32,
)
    requires next { IsNext book.old (actors.Gateway gateway) }
    requires room { held book.old + 2 ≤ book.old.spare }
    requires gates { AreGates book.old.plan (past book.old.lines) gates.now }
    requires hovers { AreHovers book.old.plan (past book.old.lines) hovers.old.items }
    ensures adds { Adds book.old book.new (actors.Gateway gateway) }
    ensures hovers { AreHovers book.new.plan (past book.new.lines) hovers.new.items }
{
    let place = gateway as usize;
    pass(book, &gates[place], &mut hovers[place]);
    book.is_run();
}

// The driver does the step that is due.
pub(crate) fn drive(alloc: Global, book: &mut Book) -> Result<(), NoMemory>
    requires next { IsNext book.old Driver }
    requires room { held book.old + 1 ≤ book.old.spare }
    ensures adds { OnOk result (Adds book.old book.new Driver) }
{
    let _done = turn(alloc, book, 0)?;
    Ok(())
}

// The controller ends the hairpin that is the next to end.
pub(crate) fn unpin(alloc: Global, book: &mut Book) -> Result<(), NoMemory>
    requires next { IsNext book.old Controller }
    requires room { held book.old + 1 ≤ book.old.spare }
    ensures adds { OnOk result (Adds book.old book.new Controller) }
{
    let _done = control(alloc, book, 0)?;
    Ok(())
}
