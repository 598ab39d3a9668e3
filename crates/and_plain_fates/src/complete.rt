//! Whole runs.
ghost use Rattle.std.specs.Prelude.{◌≡◌, ◌↔◌, ℕ, List, ◌∷◌, IsTrue, IfOk, length};
ghost use Rattle.and_events.specs.Complete.{IsComplete};
ghost use Rattle.and_events.specs.State.{state};
ghost use Rattle.and_events.specs.declared.event.Event as event_type;
ghost use Rattle.and_events.specs.declared.event.Event.TheVariants as kinds;
ghost use Rattle.and_plain.specs.History.{history};

use and_events::{Event, Plan};
use and_plain::{both, state_of};
use and_policy::NoMemory;
use std::alloc::Global;

// Whether the last event is the end.
fn ends(events: &[Event]) -> bool
    ensures { IsTrue result ↔ ((n : ℕ) × (earlier : List event_type.Event) × (history events.now ≡ kinds.Finish n ∷ earlier)) }
{
    match events {
        [] => false,
        [.., last] => is_finish(last),
    }
}

// Whether the event is the end.
fn is_finish(event: &Event) -> bool
    ensures { IsTrue result ↔ ((n : ℕ) × (event.now ≡ kinds.Finish n)) }
{
    match *event {
        Event::Finish { .. } => true,
        _ => false,
    }
}

// Whether the events end with every step done.
fn is_done(alloc: Global, plan: &Plan, events: &[Event]) -> Result<bool, NoMemory>
    ensures ok { IfOk result (λ yes. IsTrue yes ↔ ((state plan.now (history events.now)).next ≡ length plan.now.steps)) }
{
    let s = state_of(alloc, plan, events)?;
    Ok(s.next() == plan.steps.len())
}

/// Whether the events, the oldest of which is first, are complete: the last is the end, and every step has its event.
pub fn is_complete(alloc: Global, plan: &Plan, events: &[Event]) -> Result<bool, NoMemory>
    ensures ok { IfOk result (λ yes. IsTrue yes ↔ IsComplete plan.now (history events.now)) }
{
    let done = is_done(alloc, plan, events)?;
    Ok(both(ends(events), done))
}
