//! When a try at a queue, and a send, may end so.
ghost use Rattle.std.specs.Prelude.{◌≡◌, ◌≢◌, ◌↔◌, IsTrue};
ghost use Rattle.and_events.specs.declared.event.End.TheVariants as ends;
ghost use Rattle.and_events.specs.Legal as spec;
ghost use Rattle.and_events.specs.State as states;

use crate::facts::node_at;
use crate::flow::carried_in;
use crate::places::{capacity_at, is_node, queue_place};
use crate::rows::row_at;
use crate::state::State;
use and_events::{Carried, End, Endpoint, Plan, Queue};

/// Whether a try at the queue of this place ends so.
pub(crate) fn ends_at(plan: &Plan, s: &State, queue: usize, end: End) -> bool
    ensures { IsTrue result ↔ spec.EndsAt plan.now s.now queue end }
{
    let is_there = queue < s.flow.queues.len();
    let count = row_at(&s.flow.queues, queue).len();
    let capacity = capacity_at(&plan.settings, queue) as usize;
    match end {
        End::Queued => is_there && count < capacity,
        End::Full => is_there && count == capacity,
        End::Hops => false,
    }
}

/// What is known of the packet.
pub fn carried_at(s: &State, packet: u32) -> Carried
    ensures { result ≡ states.carried_at s.now packet }
{
    carried_in(&s.flow.carried, packet)
}

/// Whether a send of the packet to this endpoint ends so. The hops are looked at first.
pub(crate) fn sends(plan: &Plan, s: &State, packet: u32, target: Endpoint, end: End) -> bool
    ensures { IsTrue result ↔ spec.Sends plan.now s.now packet target end }
{
    let hops = carried_at(s, packet).hops;
    let node = node_at(target);
    let queue = queue_place(&plan.settings, node, Queue::Wire);
    match end {
        End::Hops => hops == 0,
        End::Queued | End::Full => {
            hops > 0 && ends_at(plan, s, queue, end) && is_node(&plan.settings, node)
        }
    }
}

/// Whether a send of the packet to this endpoint ends so, where a want of hops has its own name.
pub(crate) fn sends_with_hops(
    plan: &Plan,
    s: &State,
    packet: u32,
    target: Endpoint,
    end: End,
) -> bool
    ensures { IsTrue result ↔ (end ≢ ends.Hops) × spec.Sends plan.now s.now packet target end }
{
    match end {
        End::Hops => false,
        End::Queued | End::Full => sends(plan, s, packet, target, end),
    }
}
