//! Whether a packet that was due to go somewhere was lost for the reason that is written.
ghost use Rattle.std.specs.Prelude.{◌≡◌, ◌↔◌, IsTrue, IfOk};
ghost use Rattle.and_events.specs.Just as spec;
ghost use Rattle.and_events.specs.State as states;
ghost use Rattle.and_plain.specs.History.{history};

use crate::sent::sends;
use and_events::{End, Endpoint, Event, Plan, Queue};
use and_plain::{State, capacity_at, node_at, queue_place, row_at};
use and_policy::NoMemory;

// Whether the queue at this place is full.
pub(crate) fn is_full(plan: &Plan, s: &State, queue: usize) -> bool
    ensures { IsTrue result ↔ spec.IsFull plan.now s.now queue }
{
    row_at(s.queues(), queue).len() == capacity_at(&plan.settings, queue) as usize
}

// Whether the wire queue of the endpoint is full.
fn is_full_at(plan: &Plan, s: &State, target: Endpoint) -> bool
    ensures { IsTrue result ↔ spec.IsFullAt plan.now s.now target }
{
    is_full(
        plan,
        s,
        queue_place(&plan.settings, node_at(target), Queue::Wire),
    )
}

// Whether the packet was sent as often as the hop limit says.
pub(crate) fn is_spent(plan: &Plan, earlier: &[Event], packet: u32) -> Result<bool, NoMemory>
    ensures ok { IfOk result (λ yes. IsTrue yes ↔ spec.IsSpent plan.now (history earlier.now) packet) }
{
    let count = sends(plan, earlier, packet)?;
    Ok(count == plan.settings.hop_limit as usize)
}

// Whether the packet, due to go to this endpoint, ended so.
pub(crate) fn is_lost_at(
    plan: &Plan,
    s: &State,
    earlier: &[Event],
    packet: u32,
    target: Endpoint,
    end: End,
) -> Result<bool, NoMemory>
    requires { s.now ≡ states.state plan.now (history earlier.now) }
    ensures ok { IfOk result (λ yes. IsTrue yes ↔ spec.LostAt plan.now (history earlier.now) packet target end) }
{
    match end {
        End::Queued => Ok(true),
        End::Full => Ok(is_full_at(plan, s, target)),
        End::Hops => is_spent(plan, earlier, packet),
    }
}
