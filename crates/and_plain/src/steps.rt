//! What each event does to the state.
ghost use Rattle.std.specs.Prelude.{◌≡◌, ◌+◌, OnOk, Some, slice_get};
ghost use Rattle.and_events.specs.Programming.{programmes_after};
ghost use Rattle.and_events.specs.declared.plan.Step.TheVariants as plan_steps;
ghost use Rattle.and_events.specs.Flow as flows;
ghost use Rattle.and_events.specs.Flow.{flow_after};
ghost use Rattle.and_events.specs.Ports.{ports_after};
ghost use Rattle.and_events.specs.State as spec;

use crate::facts::{dest_endpoint, dest_net, node_at};
use crate::flow::{Flow, carried_in, seal_by, send_by, stop};
use crate::log::place;
use crate::places::{node_place, queue_place};
use crate::ports::{arrive, boot, comes_to, halt, leaves_host, pause};
use crate::programmes::logs;
use crate::rows::{row_at, set_at};
use crate::state::State;
use crate::usage::give_orders;
use and_events::{
    Arrival, Departure, End, Endpoint, Node, Passage, Plan, Queue, Return, Settings, Step, What,
};
use and_policy::{Entry, NoMemory};
use std::alloc::Global;

// ---- packets

// A send by the hand to an endpoint, by how it ends.
pub(crate) fn send(
    s: &Settings,
    flow: &mut Flow,
    hand: usize,
    packet: u32,
    end: End,
    target: Endpoint,
    net: u32,
) -> Result<(), NoMemory>
    ensures ok { OnOk result (flow.new ≡ flow_after flow.old (spec.send s.now hand packet end target net)) }
{
    let queue = queue_place(s, node_at(target), Queue::Wire);
    send_by(flow, hand, queue, packet, end, net, target)
}

pub(crate) fn departs(
    s: &Settings,
    flow: &mut Flow,
    own: u32,
    hand: usize,
    packet: u32,
    here: Node,
    departure: Departure,
) -> Result<(), NoMemory>
    ensures ok { OnOk result (flow.new ≡ flow_after flow.old (spec.departs s.now own hand packet here departure)) }
{
    match departure {
        Departure::Allowed {
            sealed,
            dest,
            end,
            ..
        } => {
            let net = dest_net(own, dest);
            let target = dest_endpoint(dest);
            if sealed {
                let queue = queue_place(s, here, Queue::Seal);
                seal_by(flow, hand, queue, packet, end, net, target)
            } else {
                send(s, flow, hand, packet, end, target, net)
            }
        }
        Departure::NoVm | Departure::Spoofed | Departure::Denied { .. } => {
            stop(flow, hand, packet);
            Ok(())
        }
    }
}

pub(crate) fn passes(
    s: &Settings,
    flow: &mut Flow,
    hand: usize,
    packet: u32,
    passage: Passage,
) -> Result<(), NoMemory>
    ensures ok { OnOk result (flow.new ≡ flow_after flow.old (spec.passes s.now hand packet passage)) }
{
    match passage {
        Passage::Send { net, host, end, .. } => {
            send(s, flow, hand, packet, end, Endpoint::Host(host), net)
        }
        Passage::Dropped { .. } | Passage::NoOwner { .. } | Passage::Hops { .. } => {
            stop(flow, hand, packet);
            Ok(())
        }
    }
}

pub(crate) fn goes_back(
    s: &Settings,
    flow: &mut Flow,
    hand: usize,
    packet: u32,
    back: Return,
) -> Result<(), NoMemory>
    ensures ok { OnOk result (flow.new ≡ flow_after flow.old (spec.goes_back s.now (flows.carried_in flow.old.carried packet) hand packet back)) }
{
    match back {
        Return::Send { host, end } => {
            let net = carried_in(&flow.carried, packet).net;
            send(s, flow, hand, packet, end, Endpoint::Host(host), net)
        }
        Return::NoOwner | Return::Hops => {
            stop(flow, hand, packet);
            Ok(())
        }
    }
}

pub(crate) fn arrives(
    s: &Settings,
    flow: &mut Flow,
    hand: usize,
    packet: u32,
    arrival: Arrival,
) -> Result<(), NoMemory>
    ensures ok { OnOk result (flow.new ≡ flow_after flow.old (spec.arrives s.now (flows.carried_in flow.old.carried packet) hand packet arrival)) }
{
    let net = carried_in(&flow.carried, packet).net;
    match arrival {
        Arrival::Hairpin { host, end, .. } => {
            send(s, flow, hand, packet, end, Endpoint::Host(host), net)
        }
        Arrival::Absent { gateway, end, .. } => {
            send(s, flow, hand, packet, end, Endpoint::Redirect(gateway), net)
        }
        Arrival::NoOwner | Arrival::Running { .. } | Arrival::Blackout { .. } => {
            stop(flow, hand, packet);
            Ok(())
        }
    }
}

// ---- programmes and ports

// What a step does to log and programmes.
#[tactic(auto, unfolding(and_events::specs::Programming::programmes_after))]
pub(crate) fn word_of_step(plan: &Plan, s: &mut State, step: Option<Step>) -> Result<(), NoMemory>
    ensures ok { OnOk result (s.new ≡ record s.old { programmes = programmes_after s.old.programmes (spec.word_of_step plan.now s.old step) }) }
{
    match step {
        Some(Step::Append(entry)) => logs(&mut s.programmes, entry),
        Some(Step::Review) => {
            let p = &mut s.programmes;
            give_orders(&plan.settings, &p.log, &s.usage, &mut p.ops)
        }
        Some(Step::Resume { vm }) => {
            let Ok(host) = u32::try_from(comes_to(row_at(&s.ports, vm as usize))) else {
                return Err(NoMemory);
            };
            logs(&mut s.programmes, Entry::Place { vm, host })
        }
        _ => Ok(()),
    }
}

// What an entry does to the ports.
#[tactic(auto, unfolding(and_events::specs::Ports::ports_after))]
fn ports_of_entry(alloc: Global, s: &mut State, entry: Entry) -> Result<(), NoMemory>
    ensures ok { OnOk result (s.new ≡ record s.old { ports = ports_after s.old.ports (spec.ports_move_of_entry entry) }) }
{
    match entry {
        Entry::AddVm { vm, host, .. } => {
            boot(&mut s.ports, host as usize, vm as usize);
            Ok(())
        }
        Entry::RemoveVm { vm } => halt(alloc, &mut s.ports, vm as usize),
        _ => Ok(()),
    }
}

// The VM runs at the host to which it was on its way, by the next log entry.
fn resume_ports(s: &mut State, vm: u32) -> Result<(), NoMemory>
    ensures ok { OnOk result (s.new ≡ record s.old { ports = ports_after s.old.ports (spec.ports_move_of_step s.old (Some (plan_steps.Resume vm))) }) }
{
    let row = row_at(&s.ports, vm as usize);
    let old = leaves_host(row);
    let Ok(new) = u32::try_from(comes_to(row)) else {
        return Err(NoMemory);
    };
    let Some(entry) = s.programmes.log.len().checked_add(1) else {
        return Err(NoMemory);
    };
    let Ok(entry) = u32::try_from(entry) else {
        return Err(NoMemory);
    };
    arrive(&mut s.ports, vm as usize, old, new, entry);
    Ok(())
}

// What a step does to the ports.
#[tactic(auto, unfolding(and_events::specs::Ports::ports_after))]
pub(crate) fn ports_of_step(
    alloc: Global,
    s: &mut State,
    step: Option<Step>,
) -> Result<(), NoMemory>
    ensures ok { OnOk result (s.new ≡ record s.old { ports = ports_after s.old.ports (spec.ports_move_of_step s.old step) }) }
{
    match step {
        Some(Step::Append(entry)) => ports_of_entry(alloc, s, entry),
        Some(Step::Blackout { vm, host }) => {
            let old = match place(&s.programmes.log, vm) {
                Some(old) => old,
                None => 0,
            };
            pause(&mut s.ports, vm as usize, old as usize, host as usize);
            Ok(())
        }
        Some(Step::Resume { vm }) => resume_ports(s, vm),
        _ => Ok(()),
    }
}

// What a step does to programmes and ports.
#[tactic(auto, unfolding(and_events::specs::Ports::ports_after, and_events::specs::Programming::programmes_after))]
pub(crate) fn whole_step(
    alloc: Global,
    plan: &Plan,
    s: &mut State,
    step: Option<Step>,
) -> Result<(), NoMemory>
    ensures ok { OnOk result (s.new ≡ record s.old { programmes = programmes_after s.old.programmes (spec.word_of_step plan.now s.old step); ports = ports_after s.old.ports (spec.ports_move_of_step s.old step) }) }
{
    match step {
        Some(Step::Append(_)) => {
            word_of_step(plan, s, step)?;
            ports_of_step(alloc, s, step)
        }
        Some(Step::Resume { vm }) => {
            let Ok(host) = u32::try_from(comes_to(row_at(&s.ports, vm as usize))) else {
                return Err(NoMemory);
            };
            resume_ports(s, vm)?;
            logs(&mut s.programmes, Entry::Place { vm, host })
        }
        Some(Step::Review) => word_of_step(plan, s, step),
        _ => ports_of_step(alloc, s, step),
    }
}

// The step of this number.
pub(crate) fn step_at(plan: &Plan, step: u32) -> Option<Step>
    ensures { result ≡ slice_get plan.now.steps step }
{
    match plan.steps.get(step as usize) {
        Some(step) => Some(*step),
        None => None,
    }
}

// The next step is due.
pub(crate) fn advance(s: &mut State) -> Result<(), NoMemory>
    ensures ok { OnOk result (s.new ≡ record s.old { next = s.old.next + 1 }) }
{
    match s.next.checked_add(1) {
        Some(next) => {
            s.next = next;
            Ok(())
        }
        None => Err(NoMemory),
    }
}

// What a step holds at a node, or no longer holds.
pub(crate) fn holds_of_step(plan: &Plan, s: &mut State, step: Option<Step>)
    ensures { s.new ≡ record s.old { node_holds = spec.holds_by plan.now.settings s.old.node_holds step } }
{
    let (node, what, held) = match step {
        Some(Step::Hold { node, what }) => (node, what, true),
        Some(Step::Free { node, what }) => (node, what, false),
        _ => return,
    };
    let place = node_place(&plan.settings, node);
    match what {
        What::Install => set_at(&mut s.node_holds.install, place, held),
        What::Forward => set_at(&mut s.node_holds.forward, place, held),
    }
}
