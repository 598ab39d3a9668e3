//! When an event is legal.
ghost use Rattle.std.specs.Prelude.{◌≡◌, ◌↔◌, ◌<◌, Some, IsTrue};
ghost use Rattle.and_policy.specs.declared.decision.Way as ways;
ghost use Rattle.and_events.specs.declared.event.Event.TheVariants as events;
ghost use Rattle.and_events.specs.declared.plan.Step as plan_steps;
ghost use Rattle.and_plain.specs.Doing as doing;
ghost use Rattle.and_events.specs.Legal as spec;
ghost use Rattle.and_events.specs.Places as places;
ghost use Rattle.and_events.specs.State as states;
ghost use Rattle.and_events.specs.declared.event.Node.TheVariants as node_kinds;
ghost use Rattle.and_events.specs.declared.event.Queue.TheVariants as queues;

use crate::conditions::{can_announce, can_install, is_up_to_date, knows_vm};
use crate::decisions::{
    arrives, decides, departs, goes_back, hand_of, landing_by, leaving_at, located_by, passes,
    routed_by,
};
use crate::facts::vm_at;
use crate::places::{is_actor, node_of, queue_place};
use crate::rest::{can_unpin, is_at_rest, is_over};
use crate::rows::both;
use crate::sends::{carried_at, ends_at, sends_with_hops};
use crate::state::{State, announced_of, home, programme_of};
use crate::steps::step_at;
use crate::takes::can_take;
use and_events::{
    Actor, Arrival, Departure, End, Endpoint, Event, Node, Passage, Plan, Queue, Return, Step, What,
};

/// Whether the condition of a step holds.
pub(crate) fn can_step(plan: &Plan, s: &State, step: Step) -> bool
    ensures { IsTrue result ↔ spec.CanStep plan.now s.now step }
{
    match step {
        Step::Append(_) | Step::Review | Step::Free { .. } | Step::Resume { .. } => true,
        Step::Hold { node, what } => match what {
            What::Forward => true,
            What::Install => is_up_to_date(plan, s, node),
        },
        Step::Wait => is_at_rest(plan, s),
        Step::Inject { packet } => knows_vm(plan, s, home(plan, s, packet), vm_at(plan, packet)),
        Step::Blackout { vm, host } => knows_vm(plan, s, host, vm),
        Step::Finish => is_over(plan, s),
    }
}

// Whether a step is due by its number, and its condition holds.
fn is_due(plan: &Plan, s: &State, number: u32, step: Step) -> bool
    ensures { IsTrue result ↔ (number ≡ s.now.next) × spec.CanStep plan.now s.now step }
{
    number as usize == s.next && can_step(plan, s, step)
}

/// The plan's step of this number, where it is the next and its condition holds.
pub(crate) fn legal_step(plan: &Plan, s: &State, number: u32) -> Option<Step>
    ensures { (step : plan_steps.Step) → (result ≡ Some step) ↔ spec.Steps plan.now s.now number step }
{
    let Some(step) = step_at(plan, number) else {
        return None;
    };
    if is_due(plan, s, number, step) {
        return Some(step);
    }
    None
}

// Whether the step is one that the event does.
fn is_done_by(step: Option<Step>, event: &Event) -> bool
    ensures { IsTrue result ↔ doing.IsDoneBy step event.now }
{
    let Some(step) = step else {
        return false;
    };
    match *event {
        Event::Append { .. } => matches!(step, Step::Append(_)),
        Event::Review { .. } => matches!(step, Step::Review),
        Event::Hold { .. } => matches!(step, Step::Hold { .. }),
        Event::Free { .. } => matches!(step, Step::Free { .. }),
        Event::Wait { .. } => matches!(step, Step::Wait),
        Event::Inject { packet, .. } => match step {
            Step::Inject { packet: given } => given == packet,
            _ => false,
        },
        Event::Blackout { .. } => matches!(step, Step::Blackout { .. }),
        Event::Resume { .. } => matches!(step, Step::Resume { .. }),
        Event::Finish { .. } => matches!(step, Step::Finish),
        Event::Announce { .. }
        | Event::Installed { .. }
        | Event::Take { .. }
        | Event::Egress { .. }
        | Event::Sealed { .. }
        | Event::Route { .. }
        | Event::Redirect { .. }
        | Event::Ingress { .. }
        | Event::Unpin { .. } => false,
    }
}

// How an injection ends.
fn inject_end(full: bool) -> End
    ensures { result ≡ spec.inject_end full }
{
    if full { End::Full } else { End::Queued }
}

// Whether the try of the packet at the `out` queue of its VM's host ends so.
fn enters(plan: &Plan, s: &State, packet: u32, full: bool) -> bool
    ensures { IsTrue result
        ↔ spec.EndsAt plan.now s.now
        (places.queue_place plan.now.settings (node_kinds.Host (states.home plan.now s.now packet)) queues.Out)
        (spec.inject_end full) }
{
    let host = Node::Host(home(plan, s, packet));
    ends_at(
        plan,
        s,
        queue_place(&plan.settings, host, Queue::Out),
        inject_end(full),
    )
}

// Whether the actor may send the packet that it has sealed, and that ends so.
#[tactic(auto, unfolding(and_events::specs::Legal::Legal))]
fn can_seal(plan: &Plan, s: &State, actor: Actor, packet: u32, end: End) -> bool
    ensures { IsTrue result ↔ spec.Legal plan.now s.now (events.Sealed actor packet end) }
{
    let Actor::Coproc(_) = actor else {
        return false;
    };
    let Some(held) = hand_of(plan, s, actor) else {
        return false;
    };
    let target = carried_at(s, packet).target;
    is_actor(&plan.settings, actor)
        && held.packet == packet
        && held.queue == Queue::Seal
        && sends_with_hops(plan, s, packet, target, end)
}

// Whether the actor, a host worker, may decide so of a packet that leaves.
#[tactic(auto, unfolding(and_events::specs::Legal::Legal))]
fn can_depart(
    plan: &Plan,
    s: &State,
    actor: Actor,
    packet: u32,
    at: u32,
    departure: Departure,
) -> bool
    requires { 0 < plan.now.settings.gateways }
    ensures { (way : ways.Way) → IsTrue result ↔ spec.Legal plan.now s.now (events.Egress actor packet at way departure) }
{
    let Actor::Worker { .. } = actor else {
        return false;
    };
    let said = leaving_at(plan, s, actor, packet, at);
    decides(plan, s, actor, packet, Queue::Out, at)
        && departs(plan, s, node_of(actor), packet, said, departure)
}

// Whether the actor, a gateway worker, may decide so of a packet that it routes.
#[tactic(auto, unfolding(and_events::specs::Legal::Legal))]
fn can_pass(plan: &Plan, s: &State, actor: Actor, packet: u32, at: u32, passage: Passage) -> bool
    ensures { IsTrue result ↔ spec.Legal plan.now s.now (events.Route actor packet at passage) }
{
    let Actor::Gateway(_) = actor else {
        return false;
    };
    let Endpoint::Route(_) = carried_at(s, packet).target else {
        return false;
    };
    let said = routed_by(plan, s, actor, packet, at);
    decides(plan, s, actor, packet, Queue::Wire, at) && passes(plan, s, packet, said, passage)
}

// Whether the actor, a gateway worker, may decide so of a packet that it redirects.
#[tactic(auto, unfolding(and_events::specs::Legal::Legal))]
fn can_go_back(plan: &Plan, s: &State, actor: Actor, packet: u32, at: u32, back: Return) -> bool
    ensures { IsTrue result ↔ spec.Legal plan.now s.now (events.Redirect actor packet at back) }
{
    let Actor::Gateway(_) = actor else {
        return false;
    };
    let Endpoint::Redirect(_) = carried_at(s, packet).target else {
        return false;
    };
    let said = located_by(plan, s, actor, packet, at);
    decides(plan, s, actor, packet, Queue::Wire, at) && goes_back(plan, s, packet, said, back)
}

// Whether the actor, a host worker, may decide so of a packet that has come.
#[tactic(auto, unfolding(and_events::specs::Legal::Legal))]
fn can_arrive(plan: &Plan, s: &State, actor: Actor, packet: u32, at: u32, arrival: Arrival) -> bool
    requires { 0 < plan.now.settings.gateways }
    ensures { (way : ways.Way) → IsTrue result ↔ spec.Legal plan.now s.now (events.Ingress actor packet at way arrival) }
{
    let Actor::Worker { host, .. } = actor else {
        return false;
    };
    let said = landing_by(plan, s, actor, packet, at);
    decides(plan, s, actor, packet, Queue::Wire, at)
        && arrives(plan, s, host, packet, said, arrival)
}

/// Whether the event may happen in the state.
#[tactic(auto, unfolding(and_events::specs::Legal::Legal))]
pub fn is_legal(plan: &Plan, s: &State, event: &Event) -> bool
    requires { 0 < plan.now.settings.gateways }
    ensures { IsTrue result ↔ spec.Legal plan.now s.now event.now }
{
    match *event {
        Event::Append { step } => is_done_by(legal_step(plan, s, step), event),
        Event::Review { step } => is_done_by(legal_step(plan, s, step), event),
        Event::Hold { step } => is_done_by(legal_step(plan, s, step), event),
        Event::Free { step } => is_done_by(legal_step(plan, s, step), event),
        Event::Wait { step } => is_done_by(legal_step(plan, s, step), event),
        Event::Blackout { step } => is_done_by(legal_step(plan, s, step), event),
        Event::Resume { step } => is_done_by(legal_step(plan, s, step), event),
        Event::Finish { step } => is_done_by(legal_step(plan, s, step), event),
        Event::Inject { step, packet, full } => {
            let is_due = is_done_by(legal_step(plan, s, step), event);
            both(is_due, enters(plan, s, packet, full))
        }
        Event::Announce { node, upto } => {
            can_announce(plan, s, node) && upto as usize == programme_of(plan, s, node).len()
        }
        Event::Installed { node, upto } => {
            can_install(plan, s, node) && upto == announced_of(plan, s, node)
        }
        Event::Take {
            actor,
            queue,
            packet,
        } => can_take(plan, s, actor, queue, packet),
        Event::Egress {
            actor,
            packet,
            at,
            way: _way,
            departure,
        } => { can_depart(plan, s, actor, packet, at, departure) }
        Event::Sealed { actor, packet, end } => can_seal(plan, s, actor, packet, end),
        Event::Route {
            actor,
            packet,
            at,
            passage,
        } => can_pass(plan, s, actor, packet, at, passage),
        Event::Redirect {
            actor,
            packet,
            at,
            back,
        } => can_go_back(plan, s, actor, packet, at, back),
        Event::Ingress {
            actor,
            packet,
            at,
            way: _way,
            arrival,
        } => { can_arrive(plan, s, actor, packet, at, arrival) }
        Event::Unpin { host, vm } => can_unpin(plan, s, host, vm),
    }
}
