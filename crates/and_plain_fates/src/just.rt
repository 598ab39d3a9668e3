//! Whether what became of a packet has its reason.
ghost use Rattle.std.specs.Prelude.{◌≡◌, ◌↔◌, IsTrue, IfOk};
ghost use Rattle.and_events.specs.Just as spec;
ghost use Rattle.and_events.specs.Run as runs;
ghost use Rattle.and_events.specs.State as states;
ghost use Rattle.and_plain.specs.History.{history};

use crate::arrival::is_arrival_just;
use crate::fate::is_fate;
use crate::loss::is_lost_at;
use crate::reasons::{is_departure_just, is_injection_just, is_passage_just, is_return_just};
use crate::said::Decided;
use and_events::{Event, Plan};
use and_plain::{State, after, both, carried_at, start};
use and_policy::NoMemory;
use std::alloc::Global;

// Whether the event, where it is a fate, has its reason in the earlier ones.
#[tactic(auto, unfolding(and_events::specs::Just::JustBy))]
fn is_just_by(
    alloc: Global,
    plan: &Plan,
    s: &State,
    earlier: &[Event],
    event: &Event,
) -> Result<bool, NoMemory>
    requires { s.now ≡ states.state plan.now (history earlier.now) }
    ensures ok { IfOk result (λ yes. IsTrue yes ↔ spec.JustBy plan.now (history earlier.now) event.now) }
{
    match *event {
        Event::Inject {
            step: _step,
            packet,
            full: _full,
        } => Ok(is_injection_just(plan, s, earlier, packet)),
        Event::Egress {
            actor,
            packet,
            at,
            way: _way,
            departure,
        } => {
            let decided = Decided { actor, packet, at };
            is_departure_just(alloc, plan, s, earlier, decided, departure)
        }
        Event::Sealed { packet, end, .. } => {
            is_lost_at(plan, s, earlier, packet, carried_at(s, packet).target, end)
        }
        Event::Route {
            actor,
            packet,
            at,
            passage,
        } => is_passage_just(plan, s, earlier, Decided { actor, packet, at }, passage),
        Event::Redirect {
            actor,
            packet,
            at,
            back,
        } => is_return_just(alloc, plan, s, earlier, Decided { actor, packet, at }, back),
        Event::Ingress {
            actor,
            packet,
            at,
            way: _way,
            arrival,
        } => {
            let decided = Decided { actor, packet, at };
            is_arrival_just(alloc, plan, s, earlier, decided, arrival)
        }
        _ => Ok(true),
    }
}

// Whether the event, where it is a fate of the packet, has its reason in the earlier ones.
fn is_just_at(
    alloc: Global,
    plan: &Plan,
    s: &State,
    earlier: &[Event],
    event: &Event,
    packet: u32,
) -> Result<bool, NoMemory>
    requires { s.now ≡ states.state plan.now (history earlier.now) }
    ensures ok { IfOk result (λ yes. IsTrue yes ↔ (IsTrue (runs.is_it packet (runs.fate_of event.now)) → spec.JustBy plan.now (history earlier.now) event.now)) }
{
    if is_fate(event, packet) {
        is_just_by(alloc, plan, s, earlier, event)
    } else {
        Ok(true)
    }
}

/// Whether every fate of the packet has its reason in the events before it and in the policy. The oldest event comes first.
/// An error only for want of memory, or where the number of the packet's sends leaves its type's range.
pub fn is_just(alloc: Global, plan: &Plan, events: &[Event], packet: u32) -> Result<bool, NoMemory>
    ensures ok { IfOk result (λ yes. IsTrue yes ↔ spec.Just plan.now (history events.now) packet) }
{
    let mut s = start(alloc, plan)?;
    let mut just = true;
    for (n, event) in events.iter().enumerate() {
        let here = is_just_at(alloc, plan, &s, &events[..n], event, packet)?;
        just = both(just, here);
        after(alloc, plan, &mut s, event)?;
    }
    Ok(just)
}
