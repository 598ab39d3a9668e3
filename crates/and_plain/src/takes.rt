//! Which packets an actor may take.
ghost use Rattle.std.specs.Prelude.{◌≡◌, ◌↔◌, ◌∷◌, ℕ, List, IsTrue, None};
ghost use Rattle.and_events.specs.Flow as flows;
ghost use Rattle.and_events.specs.Legal as spec;
ghost use Rattle.and_events.specs.Places as places;

use crate::conditions::forward_held;
use crate::nodes::is_empty_at;
use crate::places::{hand_place, is_actor, node_of, queue_place};
use crate::rows::{at_or, row_at};
use crate::state::State;
use and_events::{Actor, Node, Plan, Queue};

/// Whether the actor takes packets from this queue now: a host worker from `out` only where `wire` is empty.
pub(crate) fn takes_from(plan: &Plan, s: &State, actor: Actor, queue: Queue) -> bool
    ensures { IsTrue result ↔ spec.TakesFrom plan.now s.now actor queue }
{
    match (actor, queue) {
        (Actor::Worker { host, .. }, Queue::Out) => {
            is_empty_at(
                s,
                queue_place(&plan.settings, Node::Host(host), Queue::Wire),
            )
        }
        (Actor::Worker { .. } | Actor::Gateway(_), Queue::Wire) => true,
        (Actor::Coproc(_), Queue::Seal) => true,
        _ => false,
    }
}

// Whether the packet is the first of the list.
fn is_first(packets: &[u32], packet: u32) -> bool
    ensures { IsTrue result ↔ ((rest : List ℕ) × (packets.now ≡ packet ∷ rest)) }
{
    match packets {
        [] => false,
        [first, _rest @ ..] => *first == packet,
    }
}

// Whether the packet is the front of the queue at a place.
fn is_front(s: &State, place: usize, packet: u32) -> bool
    ensures { IsTrue result ↔ flows.HasFront s.now.flow place packet }
{
    is_first(row_at(&s.flow.queues, place), packet)
}

// Whether the actor has nothing in hand.
fn is_free(plan: &Plan, s: &State, actor: Actor) -> bool
    ensures { IsTrue result ↔ (flows.hand_at s.now.flow.hands (places.hand_place plan.now.settings actor) ≡ None) }
{
    at_or(&s.flow.hands, hand_place(&plan.settings, actor), None).is_none()
}

/// Whether the actor may take this packet from this queue.
pub(crate) fn can_take(plan: &Plan, s: &State, actor: Actor, queue: Queue, packet: u32) -> bool
    ensures { IsTrue result ↔ spec.CanTake plan.now s.now actor queue packet }
{
    let node = node_of(actor);
    let place = queue_place(&plan.settings, node, queue);
    is_actor(&plan.settings, actor)
        && is_free(plan, s, actor)
        && !forward_held(plan, s, node)
        && takes_from(plan, s, actor, queue)
        && is_front(s, place, packet)
}
