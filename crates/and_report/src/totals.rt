//! The totals of a run, in one pass over its lines.
ghost use Rattle.std.specs.Prelude.{◌≡◌, [], length, OnOk, IfOk};
ghost use Rattle.and_events.specs.Run.{past};
ghost use Rattle.and_report.specs.Nets.{AreVmNets};
ghost use Rattle.and_report.specs.Totals as spec;

use crate::carried::{follow_nets, start};
use crate::counts::{Endings, NO_ENDINGS, NO_TRAFFIC, Traffic, with_event, with_fate};
use crate::fate::{Fate, Stage};
use crate::fates::fate_under;
use crate::keyed::{Drops, add_drop};
use crate::vms::raise;
use and_events::{Event, Line, Plan};
use and_policy::{NoMemory, Placements};
use std::alloc::Global;
use std::collections::BTreeMap;

/// What fates are counted by: their kinds, the rules and routes that dropped packets at the three stages, and how
/// many packets each VM received.
#[derive(Drop)]
pub(crate) struct FateTotals {
    pub(crate) endings: Endings,
    pub(crate) egress: Drops,
    pub(crate) ingress: Drops,
    pub(crate) route: Drops,
    pub(crate) received: Vec<u64>,
}

/// What a run is counted by.
#[derive(Drop)]
pub(crate) struct Totals {
    pub(crate) traffic: Traffic,
    pub(crate) fates: FateTotals,
}

// Counts the packet for the VM that it came to.
fn receive(received: &mut Vec<u64>, fate: Fate) -> Result<(), NoMemory>
    ensures len { length received.new.items ≡ length received.old.items }
    ensures counts { OnOk result (spec.AddsReceived fate received.old.items received.new.items) }
{
    match fate {
        Fate::Delivered { vm } => raise(received, vm as usize),
        _ => Ok(()),
    }
}

// Counts a fate.
fn add_fate(t: &mut FateTotals, fate: Fate) -> Result<(), NoMemory>
    ensures len { length t.new.received.items ≡ length t.old.received.items }
    ensures totals { OnOk result (spec.AddsFate fate t.old t.new) }
{
    t.endings = with_fate(t.endings, fate)?;
    add_drop(&mut t.egress, Stage::Egress, fate)?;
    add_drop(&mut t.ingress, Stage::Ingress, fate)?;
    add_drop(&mut t.route, Stage::Route, fate)?;
    receive(&mut t.received, fate)?;
    Ok(())
}

// Counts an event, before which packets carry these networks.
fn add_event(
    plan: &Plan,
    vm_nets: &Placements,
    nets: &[u32],
    totals: &mut Totals,
    event: &Event,
) -> Result<(), NoMemory>
    requires { AreVmNets plan.now vm_nets.now }
    ensures { OnOk result (spec.AddsEvent plan.now nets.now event.now totals.old totals.new) }
{
    totals.traffic = with_event(totals.traffic, event)?;
    match fate_under(plan, vm_nets, nets, event) {
        Some(fate) => {
            add_fate(&mut totals.fates, fate)?;
            Ok(())
        }
        None => Ok(()),
    }
}

// No events.
fn nothing(alloc: Global, plan: &Plan) -> Result<Totals, NoMemory>
    ensures { IfOk result (λ totals. spec.AreTotals plan.now [] totals) }
{
    Ok(Totals {
        traffic: NO_TRAFFIC,
        fates: FateTotals {
            endings: NO_ENDINGS,
            egress: BTreeMap::new(alloc),
            ingress: BTreeMap::new(alloc),
            route: BTreeMap::new(alloc),
            received: vec![in alloc; 0u64; plan.names.len()].map_err(|_| NoMemory)?,
        },
    })
}

/// The totals of the lines.
pub(crate) fn totals_of(
    alloc: Global,
    plan: &Plan,
    vm_nets: &Placements,
    lines: &[Line],
) -> Result<Totals, NoMemory>
    requires { AreVmNets plan.now vm_nets.now }
    ensures { IfOk result (λ totals. spec.AreTotals plan.now (past lines.now) totals) }
{
    let mut nets = start(alloc, plan)?;
    let mut totals = nothing(alloc, plan)?;
    for line in lines {
        add_event(plan, vm_nets, &nets, &mut totals, &line.event)?;
        follow_nets(plan, vm_nets, &mut nets, &line.event);
    }
    Ok(totals)
}
