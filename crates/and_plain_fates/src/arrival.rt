//! Whether what became of a packet that has come to a host has its reason in the events before.
ghost use Rattle.std.specs.Prelude.{◌≡◌, ◌↔◌, ◌⊎◌, ℕ, Some, IsTrue, IfOk};
ghost use Rattle.and_policy.specs.FlowHash as hashes;
ghost use Rattle.and_policy.specs.Ingress.{landing};
ghost use Rattle.and_policy.specs.declared.decision.Way as ways;
ghost use Rattle.and_policy.specs.declared.port.Port.TheVariants as port_states;
ghost use Rattle.and_events.specs.Just as spec;
ghost use Rattle.and_events.specs.Legal as legal;
ghost use Rattle.and_events.specs.Places as places;
ghost use Rattle.and_events.specs.Ports as ports;
ghost use Rattle.and_events.specs.State as states;
ghost use Rattle.and_events.specs.declared.event.Arrival.TheVariants as arrivals;
ghost use Rattle.and_events.specs.declared.event.Event.TheVariants as events;
ghost use Rattle.and_plain.specs.History.{history};

use crate::all::{all_four, all_three};
use crate::led::led_to;
use crate::loss::is_lost_at;
use crate::said::{Decided, landing_by};
use and_events::{Actor, Arrival, End, Endpoint, Event, Node, Plan};
use and_plain::{State, both, node_of, tuple_at};
use and_policy::{Landing, Name, NoMemory, Port, Tuple, flow_hash};
use std::alloc::Global;

// Whether the ingress rules of the network in which the packet arrives say this of it.
fn is_landing(plan: &Plan, s: &State, decided: Decided, led: Option<u32>, said: Landing) -> bool
    ensures { IsTrue result
        ↔ ((net : ℕ) × (led ≡ Some net) × (landing (legal.entries_at plan.now s.now decided.actor decided.at) net (states.tuple_at plan.now decided.packet) ≡ said)) }
{
    match led {
        Some(net) => landing_by(plan, s, decided, net) == said,
        None => false,
    }
}

// Whether the policy says this of the packet where it arrives.
fn lands(
    alloc: Global,
    plan: &Plan,
    s: &State,
    earlier: &[Event],
    decided: Decided,
    said: Landing,
) -> Result<bool, NoMemory>
    ensures ok { IfOk result (λ yes. IsTrue yes ↔ spec.Lands plan.now (history earlier.now) decided.packet (legal.entries_at plan.now s.now decided.actor decided.at) said) }
{
    let led = led_to(alloc, plan, earlier, decided.packet)?;
    Ok(is_landing(plan, s, decided, led, said))
}

// Whether the policy's word names this owner.
fn owns(said: Landing, vm: u32) -> bool
    ensures { IsTrue result ↔ legal.Owns said vm }
{
    match said {
        Landing::Owned { vm: owner, .. } => owner == vm,
        Landing::NoOwner => false,
    }
}

// Whether this VM is the owner of the destination in the network in which the packet arrives.
fn is_owner(plan: &Plan, s: &State, decided: Decided, led: Option<u32>, vm: u32) -> bool
    ensures { IsTrue result
        ↔ ((net : ℕ) × (led ≡ Some net) × legal.Owns (landing (legal.entries_at plan.now s.now decided.actor decided.at) net (states.tuple_at plan.now decided.packet)) vm) }
{
    match led {
        Some(net) => owns(landing_by(plan, s, decided, net), vm),
        None => false,
    }
}

// Whether the packet arrives for this VM, whatever the rules say.
fn lands_for(
    alloc: Global,
    plan: &Plan,
    s: &State,
    earlier: &[Event],
    decided: Decided,
    vm: u32,
) -> Result<bool, NoMemory>
    ensures ok { IfOk result (λ yes. IsTrue yes ↔ spec.LandsFor plan.now (history earlier.now) decided.packet (legal.entries_at plan.now s.now decided.actor decided.at) vm) }
{
    let led = led_to(alloc, plan, earlier, decided.packet)?;
    Ok(is_owner(plan, s, decided, led, vm))
}

// The VM's port at the actor's host.
fn port_of(s: &State, actor: Actor, vm: u32) -> Port
    ensures { result ≡ ports.port_at s.now.ports (states.host_of (places.node_of actor)) vm }
{
    match node_of(actor) {
        Node::Host(host) => s.port(host, vm),
        Node::Gate(_) => s.port(0, vm),
    }
}

// Whether the VM is on its way, from here or to here.
fn is_moving(port: Port) -> bool
    ensures { IsTrue result ↔ ((port ≡ port_states.Paused) ⊎ (port ≡ port_states.Arriving)) }
{
    match port {
        Port::Paused | Port::Arriving => true,
        Port::Absent | Port::Running | Port::Hairpin { .. } => false,
    }
}

// Whether the port leads to this host.
fn leads_to(port: Port, to: u32) -> bool
    ensures { IsTrue result ↔ ((entry : ℕ) × (port ≡ port_states.Hairpin to entry)) }
{
    match port {
        Port::Hairpin { host, .. } => host == to,
        Port::Absent | Port::Running | Port::Paused | Port::Arriving => false,
    }
}

// The gateway that a packet goes to, of this many; of none, the flow hash itself.
fn gateway_of(gateways: u32, tuple: &Tuple) -> u32
    ensures { result ≡ hashes.gateway_of gateways tuple.now }
{
    let hash = u32::from(flow_hash(tuple));
    if gateways == 0 { hash } else { hash % gateways }
}

// Whether the VM runs at the host, and its rules say so of the packet.
#[tactic(auto, unfolding(and_events::specs::Just::JustBy))]
fn is_delivery_just(
    alloc: Global,
    plan: &Plan,
    s: &State,
    earlier: &[Event],
    decided: Decided,
    vm: u32,
    by: Name,
    pass: bool,
) -> Result<bool, NoMemory>
    requires { s.now ≡ states.state plan.now (history earlier.now) }
    ensures ok { IfOk result (λ yes. (way : ways.Way) → IsTrue yes ↔ spec.JustBy plan.now (history earlier.now) (events.Ingress decided.actor decided.packet decided.at way (arrivals.Running vm by pass))) }
{
    let said = Landing::Owned { vm, by, pass };
    let owned = lands(alloc, plan, s, earlier, decided, said)?;
    let running = port_of(s, decided.actor, vm) == Port::Running;
    Ok(both(owned, running))
}

// Whether the packet's VM is on its way.
#[tactic(auto, unfolding(and_events::specs::Just::JustBy))]
fn is_blackout_just(
    alloc: Global,
    plan: &Plan,
    s: &State,
    earlier: &[Event],
    decided: Decided,
    vm: u32,
) -> Result<bool, NoMemory>
    requires { s.now ≡ states.state plan.now (history earlier.now) }
    ensures ok { IfOk result (λ yes. (way : ways.Way) → IsTrue yes ↔ spec.JustBy plan.now (history earlier.now) (events.Ingress decided.actor decided.packet decided.at way (arrivals.Blackout vm))) }
{
    let owned = lands_for(alloc, plan, s, earlier, decided, vm)?;
    let moving = is_moving(port_of(s, decided.actor, vm));
    Ok(both(owned, moving))
}

// Whether the packet's VM has moved to this host, and the packet ended so on its way there.
#[tactic(auto, unfolding(and_events::specs::Just::JustBy))]
fn is_hairpin_just(
    alloc: Global,
    plan: &Plan,
    s: &State,
    earlier: &[Event],
    decided: Decided,
    vm: u32,
    host: u32,
    end: End,
) -> Result<bool, NoMemory>
    requires { s.now ≡ states.state plan.now (history earlier.now) }
    ensures ok { IfOk result (λ yes. (way : ways.Way) → IsTrue yes ↔ spec.JustBy plan.now (history earlier.now) (events.Ingress decided.actor decided.packet decided.at way (arrivals.Hairpin vm host end))) }
{
    let owned = lands_for(alloc, plan, s, earlier, decided, vm)?;
    let leads = leads_to(port_of(s, decided.actor, vm), host);
    let lost = is_lost_at(plan, s, earlier, decided.packet, Endpoint::Host(host), end)?;
    Ok(all_three(owned, leads, lost))
}

// Whether the packet's VM is not here, and the packet ended so on its way to the gateway of its flow.
#[tactic(auto, unfolding(and_events::specs::Just::JustBy))]
fn is_absence_just(
    alloc: Global,
    plan: &Plan,
    s: &State,
    earlier: &[Event],
    decided: Decided,
    vm: u32,
    gateway: u32,
    end: End,
) -> Result<bool, NoMemory>
    requires { s.now ≡ states.state plan.now (history earlier.now) }
    ensures ok { IfOk result (λ yes. (way : ways.Way) → IsTrue yes ↔ spec.JustBy plan.now (history earlier.now) (events.Ingress decided.actor decided.packet decided.at way (arrivals.Absent vm gateway end))) }
{
    let owned = lands_for(alloc, plan, s, earlier, decided, vm)?;
    let absent = port_of(s, decided.actor, vm) == Port::Absent;
    let tuple = tuple_at(plan, decided.packet);
    let right = gateway == gateway_of(plan.settings.gateways, &tuple);
    let target = Endpoint::Redirect(gateway);
    let lost = is_lost_at(plan, s, earlier, decided.packet, target, end)?;
    Ok(all_four(owned, absent, right, lost))
}

/// Whether the arrival has its reason.
#[tactic(auto, unfolding(and_events::specs::Just::JustBy))]
pub(crate) fn is_arrival_just(
    alloc: Global,
    plan: &Plan,
    s: &State,
    earlier: &[Event],
    decided: Decided,
    arrival: Arrival,
) -> Result<bool, NoMemory>
    requires { s.now ≡ states.state plan.now (history earlier.now) }
    ensures ok { IfOk result (λ yes. (way : ways.Way) → IsTrue yes ↔ spec.JustBy plan.now (history earlier.now) (events.Ingress decided.actor decided.packet decided.at way arrival)) }
{
    match arrival {
        Arrival::NoOwner => lands(alloc, plan, s, earlier, decided, Landing::NoOwner),
        Arrival::Running { vm, by, pass } => {
            is_delivery_just(alloc, plan, s, earlier, decided, vm, by, pass)
        }
        Arrival::Blackout { vm } => is_blackout_just(alloc, plan, s, earlier, decided, vm),
        Arrival::Hairpin { vm, host, end } => {
            is_hairpin_just(alloc, plan, s, earlier, decided, vm, host, end)
        }
        Arrival::Absent { vm, gateway, end } => {
            is_absence_just(alloc, plan, s, earlier, decided, vm, gateway, end)
        }
    }
}
