//! Whether decisions are no older than what was installed when the packet was taken.
ghost use Rattle.std.specs.Prelude.{◌≡◌, ◌↔◌, ◌≤◌, ◌==◌, ℕ, Some, IsTrue, IfOk};
ghost use Rattle.and_events.specs.Fresh as spec;
ghost use Rattle.and_events.specs.Places as places;
ghost use Rattle.and_events.specs.State as states;
ghost use Rattle.and_plain.specs.History.{history};
ghost use Rattle.and_plain_fates.specs.Takes.{take_by};

use crate::first::actor_number;
use and_events::{Actor, Event, Plan};
use and_plain::{State, after, announced_of, both, installed_of, node_of, start};
use and_policy::NoMemory;
use std::alloc::Global;

// What the actor's node had installed at its last take of the packet, one event further.
fn take_after(
    plan: &Plan,
    s: &State,
    actor: Actor,
    packet: u32,
    before: Option<u32>,
    event: &Event,
) -> Option<u32>
    ensures { result ≡ take_by plan.now s.now actor packet before event.now }
{
    match *event {
        Event::Take {
            actor: taker,
            packet: taken,
            ..
        } => {
            let same = actor_number(&plan.settings, taker) == actor_number(&plan.settings, actor);
            if same && taken == packet {
                Some(installed_of(plan, s, node_of(actor)))
            } else {
                before
            }
        }
        _ => before,
    }
}

// What the actor's node had installed just before the actor's last take of the packet; none where it never took it.
// The oldest event comes first.
fn installed_at_take(
    alloc: Global,
    plan: &Plan,
    events: &[Event],
    actor: Actor,
    packet: u32,
) -> Result<Option<u32>, NoMemory>
    ensures ok { IfOk result (λ taken. taken ≡ spec.installed_at_take plan.now (history events.now) actor packet) }
{
    let mut s = start(alloc, plan)?;
    let mut taken = None;
    for (n, event) in events.iter().enumerate() {
        taken = take_after(plan, &s, actor, packet, taken, event);
        after(alloc, plan, &mut s, event)?;
    }
    Ok(taken)
}

// Whether the packet was taken, and the number is at least what was installed then.
fn is_since(taken: Option<u32>, at: u32) -> bool
    ensures { IsTrue result ↔ ((need : ℕ) × (taken ≡ Some need) × (need ≤ at)) }
{
    match taken {
        Some(need) => need <= at,
        None => false,
    }
}

// Whether the number is announced at the actor's node.
fn is_announced(plan: &Plan, s: &State, actor: Actor, at: u32) -> bool
    ensures { IsTrue result ↔ (at ≤ states.announced_of plan.now s.now (places.node_of actor)) }
{
    at <= announced_of(plan, s, node_of(actor))
}

// Whether the actor's decision of the packet at this number is fresh.
fn is_fresh_here(
    alloc: Global,
    plan: &Plan,
    s: &State,
    earlier: &[Event],
    actor: Actor,
    packet: u32,
    at: u32,
) -> Result<bool, NoMemory>
    requires { s.now ≡ states.state plan.now (history earlier.now) }
    ensures ok { IfOk result (λ yes. IsTrue yes ↔ spec.FreshAt plan.now (history earlier.now) actor packet at) }
{
    let taken = installed_at_take(alloc, plan, earlier, actor, packet)?;
    let since = is_since(taken, at);
    let announced = is_announced(plan, s, actor, at);
    Ok(both(since, announced))
}

// Whether the actor's decision of `decided` at this number is fresh, where that is the packet.
fn is_fresh_at(
    alloc: Global,
    plan: &Plan,
    s: &State,
    earlier: &[Event],
    actor: Actor,
    decided: u32,
    at: u32,
    packet: u32,
) -> Result<bool, NoMemory>
    requires { s.now ≡ states.state plan.now (history earlier.now) }
    ensures ok { IfOk result (λ yes. IsTrue yes ↔ (IsTrue (decided == packet) → spec.FreshAt plan.now (history earlier.now) actor packet at)) }
{
    if decided != packet {
        return Ok(true);
    }
    is_fresh_here(alloc, plan, s, earlier, actor, packet, at)
}

// Whether the event, after the earlier ones, is no decision about the packet that is not fresh.
fn is_fresh_by(
    alloc: Global,
    plan: &Plan,
    s: &State,
    earlier: &[Event],
    event: &Event,
    packet: u32,
) -> Result<bool, NoMemory>
    requires { s.now ≡ states.state plan.now (history earlier.now) }
    ensures ok { IfOk result (λ yes. IsTrue yes ↔ spec.FreshBy plan.now (history earlier.now) packet (spec.decision_of event.now)) }
{
    match *event {
        Event::Egress {
            actor,
            packet: decided,
            at,
            ..
        }
        | Event::Route {
            actor,
            packet: decided,
            at,
            ..
        }
        | Event::Redirect {
            actor,
            packet: decided,
            at,
            ..
        }
        | Event::Ingress {
            actor,
            packet: decided,
            at,
            ..
        } => is_fresh_at(alloc, plan, s, earlier, actor, decided, at, packet),
        _ => Ok(true),
    }
}

/// Whether every decision about the packet is no older than what was installed when it was taken, and was announced before.
/// The oldest event comes first.
pub fn is_fresh(alloc: Global, plan: &Plan, events: &[Event], packet: u32) -> Result<bool, NoMemory>
    ensures ok { IfOk result (λ yes. IsTrue yes ↔ spec.Fresh plan.now (history events.now) packet) }
{
    let mut s = start(alloc, plan)?;
    let mut fresh = true;
    for (n, event) in events.iter().enumerate() {
        let here = is_fresh_by(alloc, plan, &s, &events[..n], event, packet)?;
        fresh = both(fresh, here);
        after(alloc, plan, &mut s, event)?;
    }
    Ok(fresh)
}
