//! What the actors of a run keep beside the book: the tables of the nodes, the packet workers, and the coprocessors.
ghost use Rattle.std.specs.Prelude.{◌≡◌, ◌+◌, ◌*◌, ◌<◌, [], ◌∷◌, ◌++◌, IfOk, OnOk};
ghost use Rattle.and_replay.specs.Parting.{FreshHosts, FreshGates, FreshBatches, FreshWorkers, FreshCoprocs, FreshHovers, AreFresh};

use and_events::Settings;
use and_hover::{Coproc, Hover};
use and_policy::{Batch, NoMemory};
use and_routes::GatewayTables;
use and_tables::HostTables;
use and_worker::Worker;
use std::alloc::Global;

/// The tables of the nodes, what is announced and not yet installed there, the packet workers, and the coprocessors.
#[derive(Drop)]
pub struct Parts {
    /// The tables of the hosts.
    pub hosts: Vec<HostTables>,
    /// The tables of the gateways.
    pub gates: Vec<GatewayTables>,
    /// What a host's installer has announced and not yet installed.
    pub host_batches: Vec<Option<Batch>>,
    /// What a gateway's installer has announced and not yet installed.
    pub gate_batches: Vec<Option<Batch>>,
    /// The workers of the hosts, host by host.
    pub workers: Vec<Worker>,
    /// The coprocessors of the hosts.
    pub coprocs: Vec<Coproc>,
    /// The workers of the gateways.
    pub hovers: Vec<Hover>,
}

// The tables of so many hosts.
#[tactic(auto, using(crate::proofs::Beginning::one_more_host, crate::proofs::Rows::none_at))]
fn make_hosts(alloc: Global, settings: Settings) -> Result<Vec<HostTables>, NoMemory>
    requires { 0 < settings.gateways }
    ensures { IfOk result (λ v. FreshHosts settings settings.hosts v.items) }
{
    let mut hosts = Vec::new(alloc);
    for host in 0..settings.hosts {
        let tables = HostTables::make(alloc, host, settings.gateways)?;
        hosts.push(tables).map_err(|_| NoMemory)?;
    }
    Ok(hosts)
}

// The tables of so many gateways.
#[tactic(auto, using(crate::proofs::Beginning::one_more_gate, crate::proofs::Rows::none_at))]
fn make_gates(alloc: Global, count: u32) -> Result<Vec<GatewayTables>, NoMemory>
    ensures { IfOk result (λ v. FreshGates count v.items) }
{
    let mut gates = Vec::new(alloc);
    for _gateway in 0..count {
        let tables = GatewayTables::make(alloc)?;
        gates.push(tables).map_err(|_| NoMemory)?;
    }
    Ok(gates)
}

// So many nodes that have announced nothing.
#[tactic(auto, using(crate::proofs::Rows::pushed, crate::proofs::Rows::none_at))]
fn make_batches(alloc: Global, count: u32) -> Result<Vec<Option<Batch>>, NoMemory>
    ensures { IfOk result (λ v. FreshBatches count v.items) }
{
    let mut batches = Vec::new(alloc);
    for _node in 0..count {
        batches.push(None).map_err(|_| NoMemory)?;
    }
    Ok(batches)
}

// One worker more.
fn push_worker(workers: &mut Vec<Worker>, worker: Worker) -> Result<(), NoMemory>
    ensures { OnOk result (workers.new.items ≡ workers.old.items ++ worker ∷ []) }
{
    workers.push(worker).map_err(|_| NoMemory)
}

// The workers of one host more.
fn add_workers(
    alloc: Global,
    workers: &mut Vec<Worker>,
    host: u32,
    settings: Settings,
) -> Result<(), NoMemory>
    requires host { host < settings.hosts }
    requires fresh { FreshWorkers settings (host * settings.workers) workers.old.items }
    ensures { OnOk result (FreshWorkers settings (host * settings.workers + settings.workers) workers.new.items) }
{
    for index in 0..settings.workers {
        let worker = Worker::make(alloc, host, index)?;
        push_worker(workers, worker)?;
    }
    Ok(())
}

// The workers of all hosts.
#[tactic(auto, using(crate::proofs::Rows::pushed, crate::proofs::Rows::none_at))]
fn make_workers(alloc: Global, settings: Settings) -> Result<Vec<Worker>, NoMemory>
    ensures { IfOk result (λ v. FreshWorkers settings (settings.hosts * settings.workers) v.items) }
{
    let mut workers = Vec::new(alloc);
    for host in 0..settings.hosts {
        add_workers(alloc, &mut workers, host, settings)?;
    }
    Ok(workers)
}

// The coprocessors of the hosts.
#[tactic(auto, using(crate::proofs::Rows::pushed, crate::proofs::Rows::none_at))]
fn make_coprocs(alloc: Global, count: u32) -> Result<Vec<Coproc>, NoMemory>
    ensures { IfOk result (λ v. FreshCoprocs count v.items) }
{
    let mut coprocs = Vec::new(alloc);
    for host in 0..count {
        let coproc = Coproc::make(host);
        coprocs.push(coproc).map_err(|_| NoMemory)?;
    }
    Ok(coprocs)
}

// The workers of the gateways.
#[tactic(auto, using(crate::proofs::Rows::pushed, crate::proofs::Rows::none_at))]
fn make_hovers(alloc: Global, count: u32) -> Result<Vec<Hover>, NoMemory>
    ensures { IfOk result (λ v. FreshHovers count v.items) }
{
    let mut hovers = Vec::new(alloc);
    for gateway in 0..count {
        let hover = Hover::make(gateway);
        hovers.push(hover).map_err(|_| NoMemory)?;
    }
    Ok(hovers)
}

impl Parts {
    /// The tables of no operations, and workers and coprocessors that have nothing in hand. All memory that they ever use is taken here.
    pub(crate) fn make(alloc: Global, settings: Settings) -> Result<Parts, NoMemory>
        requires { 0 < settings.gateways }
        ensures { IfOk result (λ p. AreFresh settings p) }
    {
        let hosts = make_hosts(alloc, settings)?;
        let gates = make_gates(alloc, settings.gateways)?;
        let host_batches = make_batches(alloc, settings.hosts)?;
        let gate_batches = make_batches(alloc, settings.gateways)?;
        let workers = make_workers(alloc, settings)?;
        let coprocs = make_coprocs(alloc, settings.hosts)?;
        let hovers = make_hovers(alloc, settings.gateways)?;
        Ok(Parts {
            hosts,
            gates,
            host_batches,
            gate_batches,
            workers,
            coprocs,
            hovers,
        })
    }
}
