//! Which decisions an actor may write.
ghost use Rattle.std.specs.Prelude.{◌≡◌, ◌↔◌, ◌<◌, ℕ, IsTrue};
ghost use Rattle.and_policy.specs.Ingress.{landing};
ghost use Rattle.and_policy.specs.Owners.{routed, located};
ghost use Rattle.and_policy.specs.Programmes.{leaving};
ghost use Rattle.and_policy.specs.declared.port.Port.TheVariants as port_states;
ghost use Rattle.and_events.specs.Flow as flows;
ghost use Rattle.and_events.specs.Legal as spec;
ghost use Rattle.and_events.specs.Places as spec_places;
ghost use Rattle.and_events.specs.State as states;

use crate::conditions::clamp;
use crate::facts::{dest_endpoint, tuple_at, vm_at};
use crate::places::{hand_place, is_actor, node_of, queue_place};
use crate::ports::port_at;
use crate::rows::at_or;
use crate::sends::{carried_at, ends_at, sends, sends_with_hops};
use crate::state::{State, announced_of, programme_of};
use and_events::{
    Actor, Arrival, Departure, End, Endpoint, Held, Node, Passage, Plan, Queue, Return,
};
use and_policy::plain::{landing_at, leaving, located_at, routed_at};
use and_policy::{Landing, Leaving, Located, Port, Routed, flow_hash};

/// What the actor has in hand.
pub(crate) fn hand_of(plan: &Plan, s: &State, actor: Actor) -> Option<Held>
    ensures { result ≡ flows.hand_at s.now.flow.hands (spec_places.hand_place plan.now.settings actor) }
{
    at_or(&s.flow.hands, hand_place(&plan.settings, actor), None)
}

/// Whether the actor may decide of the packet, which it took from this queue, at this number.
pub(crate) fn decides(
    plan: &Plan,
    s: &State,
    actor: Actor,
    packet: u32,
    queue: Queue,
    at: u32,
) -> bool
    ensures { IsTrue result ↔ spec.Decides plan.now s.now actor packet queue at }
{
    let Some(held) = hand_of(plan, s, actor) else {
        return false;
    };
    is_actor(&plan.settings, actor)
        && held.packet == packet
        && held.queue == queue
        && held.need <= at
        && at <= announced_of(plan, s, node_of(actor))
}

/// Whether the departure is what the policy said, and ends as the queues have it.
pub(crate) fn departs(
    plan: &Plan,
    s: &State,
    here: Node,
    packet: u32,
    said: Leaving,
    departure: Departure,
) -> bool
    ensures { IsTrue result ↔ spec.Departs plan.now s.now here packet said departure }
{
    match departure {
        Departure::NoVm => said == Leaving::NoVm,
        Departure::Spoofed => said == Leaving::Spoofed,
        Departure::Denied { number } => said == Leaving::Denied { number },
        Departure::Allowed {
            by,
            sealed,
            dest,
            end,
        } => {
            let is_said = said == Leaving::Allowed { by, sealed, dest };
            if sealed {
                is_said && ends_at(plan, s, queue_place(&plan.settings, here, Queue::Seal), end)
            } else {
                is_said && sends_with_hops(plan, s, packet, dest_endpoint(dest), end)
            }
        }
    }
}

/// Whether the passage is what the policy said, and ends as the queues have it.
pub(crate) fn passes(plan: &Plan, s: &State, packet: u32, said: Routed, passage: Passage) -> bool
    ensures { IsTrue result ↔ spec.Passes plan.now s.now packet said passage }
{
    match passage {
        Passage::Dropped { by } => said == Routed::Dropped { by },
        Passage::NoOwner { by } => said == Routed::NoOwner { by },
        Passage::Send { by, net, host, end } => {
            said == Routed::To { by, net, host }
                && sends_with_hops(plan, s, packet, Endpoint::Host(host), end)
        }
        Passage::Hops { by } => match said {
            Routed::To { by: name, host, .. } => {
                name == by && sends(plan, s, packet, Endpoint::Host(host), End::Hops)
            }
            Routed::Dropped { .. } | Routed::NoOwner { .. } => false,
        },
    }
}

/// Whether the return is what the policy said, and ends as the queues have it.
pub(crate) fn goes_back(plan: &Plan, s: &State, packet: u32, said: Located, back: Return) -> bool
    ensures { IsTrue result ↔ spec.GoesBack plan.now s.now packet said back }
{
    match back {
        Return::NoOwner => said == Located::NoOwner,
        Return::Send { host, end } => {
            said == Located::To { host }
                && sends_with_hops(plan, s, packet, Endpoint::Host(host), end)
        }
        Return::Hops => match said {
            Located::To { host } => sends(plan, s, packet, Endpoint::Host(host), End::Hops),
            Located::NoOwner => false,
        },
    }
}

// Whether the policy's word names this owner.
fn owns(said: Landing, vm: u32) -> bool
    ensures { IsTrue result ↔ spec.Owns said vm }
{
    match said {
        Landing::Owned { vm: owner, .. } => owner == vm,
        Landing::NoOwner => false,
    }
}

// Whether the port leads to this host.
fn leads_to(port: Port, to: u32) -> bool
    ensures { IsTrue result ↔ ((entry : ℕ) × (port ≡ port_states.Hairpin to entry)) }
{
    match port {
        Port::Hairpin { host, .. } => host == to,
        _ => false,
    }
}

/// Whether the arrival is what policy and port say, and ends as the queues have it.
pub(crate) fn arrives(
    plan: &Plan,
    s: &State,
    here: u32,
    packet: u32,
    said: Landing,
    arrival: Arrival,
) -> bool
    requires { 0 < plan.now.settings.gateways }
    ensures { IsTrue result ↔ spec.Arrives plan.now s.now here packet said arrival }
{
    match arrival {
        Arrival::NoOwner => said == Landing::NoOwner,
        Arrival::Running { vm, by, pass } => {
            let port = port_at(&s.ports, here as usize, vm as usize);
            said == Landing::Owned { vm, by, pass } && port == Port::Running
        }
        Arrival::Blackout { vm } => {
            let port = port_at(&s.ports, here as usize, vm as usize);
            owns(said, vm) && (port == Port::Paused || port == Port::Arriving)
        }
        Arrival::Hairpin { vm, host, end } => {
            let port = port_at(&s.ports, here as usize, vm as usize);
            owns(said, vm)
                && leads_to(port, host)
                && sends(plan, s, packet, Endpoint::Host(host), end)
        }
        Arrival::Absent { vm, gateway, end } => {
            let port = port_at(&s.ports, here as usize, vm as usize);
            let to = u32::from(flow_hash(&tuple_at(plan, packet))) % plan.settings.gateways;
            owns(said, vm)
                && port == Port::Absent
                && gateway == to
                && sends(plan, s, packet, Endpoint::Redirect(gateway), end)
        }
    }
}

/// What the operations up to this number say of a packet that leaves.
pub(crate) fn leaving_at(plan: &Plan, s: &State, actor: Actor, packet: u32, at: u32) -> Leaving
    requires { 0 < plan.now.settings.gateways }
    ensures { result ≡ leaving plan.now.settings.gateways (states.programme_of plan.now s.now (spec_places.node_of actor)) at (states.packet_at plan.now packet).vm (states.tuple_at plan.now packet) }
{
    let ops = programme_of(plan, s, node_of(actor));
    let tuple = tuple_at(plan, packet);
    leaving(
        plan.settings.gateways,
        ops,
        clamp(ops, at),
        vm_at(plan, packet),
        &tuple,
    )
}

/// What they say of a packet that a gateway routes.
pub(crate) fn routed_by(plan: &Plan, s: &State, actor: Actor, packet: u32, at: u32) -> Routed
    ensures { result ≡ routed (spec.entries_at plan.now s.now actor at) (states.carried_at s.now packet).net (states.tuple_at plan.now packet).destination }
{
    let ops = programme_of(plan, s, node_of(actor));
    let net = carried_at(s, packet).net;
    routed_at(ops, clamp(ops, at), net, tuple_at(plan, packet).destination)
}

/// What they say of a packet that a gateway redirects.
pub(crate) fn located_by(plan: &Plan, s: &State, actor: Actor, packet: u32, at: u32) -> Located
    ensures { result ≡ located (spec.entries_at plan.now s.now actor at) (states.carried_at s.now packet).net (states.tuple_at plan.now packet).destination }
{
    let ops = programme_of(plan, s, node_of(actor));
    let net = carried_at(s, packet).net;
    located_at(ops, clamp(ops, at), net, tuple_at(plan, packet).destination)
}

/// What they say of a packet that has come to a host.
pub(crate) fn landing_by(plan: &Plan, s: &State, actor: Actor, packet: u32, at: u32) -> Landing
    ensures { result ≡ landing (spec.entries_at plan.now s.now actor at) (states.carried_at s.now packet).net (states.tuple_at plan.now packet) }
{
    let ops = programme_of(plan, s, node_of(actor));
    let net = carried_at(s, packet).net;
    landing_at(ops, clamp(ops, at), net, &tuple_at(plan, packet))
}
