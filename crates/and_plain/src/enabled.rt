//! Which actors may act.
ghost use Rattle.std.specs.Prelude.{◌≡◌, ◌↔◌, ◌<◌, ◌⊎◌, ℕ, Option, Some, IsTrue, slice_get};
ghost use Rattle.and_events.specs.Flow as flows;
ghost use Rattle.and_events.specs.Legal as spec;
ghost use Rattle.and_events.specs.Places as places;
ghost use Rattle.and_events.specs.declared.plan.Step as plan_steps;
ghost use Rattle.and_events.specs.declared.event.Queue as queues;

use crate::conditions::{can_announce, can_install};
use crate::decisions::hand_of;
use crate::legal::can_step;
use crate::places::{is_actor, node_of, queue_place};
use crate::rest::{is_ripe, vm_count};
use crate::rows::row_at;
use crate::state::State;
use crate::takes::can_take;
use and_events::{Actor, Node, Plan, Queue, Step};

// Whether the node's installer may announce or install.
fn can_programme(plan: &Plan, s: &State, node: Node) -> bool
    ensures { IsTrue result ↔ (spec.CanAnnounce plan.now s.now node ⊎ spec.CanInstall plan.now s.now node) }
{
    let announces = can_announce(plan, s, node);
    let installs = can_install(plan, s, node);
    announces || installs
}

// Whether one of the first VMs has a ripe hairpin at the host.
fn some_below(plan: &Plan, s: &State, host: u32, count: usize) -> bool
    ensures { IsTrue result ↔ ((vm : ℕ) × (vm < count) × spec.IsRipe plan.now s.now host vm) }
{
    for vm in 0..count {
        if is_ripe(plan, s, host, vm) {
            return true;
        }
    }
    false
}

// Whether some VM has a ripe hairpin at the host.
fn some_at(plan: &Plan, s: &State, host: u32) -> bool
    ensures { IsTrue result ↔ ((vm : ℕ) × spec.IsRipe plan.now s.now host vm) }
{
    some_below(plan, s, host, vm_count(s))
}

// Whether some VM has a ripe hairpin at one of the first hosts.
fn some_before(plan: &Plan, s: &State, hosts: u32) -> bool
    ensures { IsTrue result ↔ ((host : ℕ) × (host < hosts) × ((vm : ℕ) × spec.IsRipe plan.now s.now host vm)) }
{
    for host in 0..hosts {
        if some_at(plan, s, host) {
            return true;
        }
    }
    false
}

// Whether there is a ripe hairpin.
fn can_unpin_some(plan: &Plan, s: &State) -> bool
    ensures { IsTrue result ↔ ((host vm : ℕ) × spec.IsRipe plan.now s.now host vm) }
{
    some_before(plan, s, plan.settings.hosts)
}

// The step that is due.
fn next_step(plan: &Plan, s: &State) -> Option<Step>
    ensures { result ≡ slice_get plan.now.steps s.now.next }
{
    match plan.steps.get(s.next) {
        Some(step) => Some(*step),
        None => None,
    }
}

// Whether there is a step whose condition holds.
fn may_step(plan: &Plan, s: &State, step: Option<Step>) -> bool
    ensures { IsTrue result ↔ ((due : plan_steps.Step) × (step ≡ Some due) × spec.CanStep plan.now s.now due) }
{
    match step {
        Some(step) => can_step(plan, s, step),
        None => false,
    }
}

// Whether the driver may do the step that is due.
fn can_drive(plan: &Plan, s: &State) -> bool
    ensures { IsTrue result ↔ ((step : plan_steps.Step) × (slice_get plan.now.steps s.now.next ≡ Some step) × spec.CanStep plan.now s.now step) }
{
    may_step(plan, s, next_step(plan, s))
}

// Whether the actor may take some packet from the queue, whose packets are these.
fn takes_first(plan: &Plan, s: &State, actor: Actor, queue: Queue, packets: &[u32]) -> bool
    requires { packets.now ≡ flows.queue_at s.now.flow.queues (places.queue_place plan.now.settings (places.node_of actor) queue) }
    ensures { IsTrue result ↔ ((i : ℕ) × spec.CanTake plan.now s.now actor queue i) }
{
    match packets {
        [] => false,
        [first, _rest @ ..] => can_take(plan, s, actor, queue, *first),
    }
}

// Whether the actor may take some packet from the queue.
fn takes_of(plan: &Plan, s: &State, actor: Actor, queue: Queue) -> bool
    ensures { IsTrue result ↔ ((i : ℕ) × spec.CanTake plan.now s.now actor queue i) }
{
    let packets = row_at(
        &s.flow.queues,
        queue_place(&plan.settings, node_of(actor), queue),
    );
    takes_first(plan, s, actor, queue, packets)
}

// Whether the actor may take some packet.
fn takes_some(plan: &Plan, s: &State, actor: Actor) -> bool
    ensures { IsTrue result ↔ ((q : queues.Queue) × (i : ℕ) × spec.CanTake plan.now s.now actor q i) }
{
    let out = takes_of(plan, s, actor, Queue::Out);
    let wire = takes_of(plan, s, actor, Queue::Wire);
    let seal = takes_of(plan, s, actor, Queue::Seal);
    any(out, wire, seal)
}

// Whether one of the three holds.
fn any(a: bool, b: bool, c: bool) -> bool
    ensures { IsTrue result ↔ (IsTrue a ⊎ (IsTrue b ⊎ IsTrue c)) }
{
    a || b || c
}

// Whether the actor has a packet in hand.
fn has_hand(plan: &Plan, s: &State, actor: Actor) -> bool
    ensures { IsTrue result ↔ (places.IsActor plan.now.settings actor × spec.HasHand plan.now s.now actor) }
{
    is_actor(&plan.settings, actor) && hand_of(plan, s, actor).is_some()
}

// Whether the actor has a packet in hand, or may take one.
fn works(plan: &Plan, s: &State, actor: Actor) -> bool
    ensures { IsTrue result
        ↔ ((places.IsActor plan.now.settings actor × spec.HasHand plan.now s.now actor)
        ⊎ ((q : queues.Queue) × (i : ℕ) × spec.CanTake plan.now s.now actor q i)) }
{
    let has = has_hand(plan, s, actor);
    let takes = takes_some(plan, s, actor);
    has || takes
}

/// Whether the actor is enabled: a condition of its events holds, or it has a packet in hand.
pub fn is_enabled(plan: &Plan, s: &State, actor: Actor) -> bool
    ensures { IsTrue result ↔ spec.Enabled plan.now s.now actor }
{
    match actor {
        Actor::HostInstall(host) => can_programme(plan, s, Node::Host(host)),
        Actor::GateInstall(gate) => can_programme(plan, s, Node::Gate(gate)),
        Actor::Controller => can_unpin_some(plan, s),
        Actor::Driver => can_drive(plan, s),
        Actor::Worker { .. } | Actor::Coproc(_) | Actor::Gateway(_) => works(plan, s, actor),
    }
}
