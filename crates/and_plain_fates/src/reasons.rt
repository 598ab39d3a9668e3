//! Whether what became of a packet that left its VM, or that a gateway sent on, has its reason in the events before.
ghost use Rattle.std.specs.Prelude.{◌≡◌, ◌↔◌, ℕ, Bool, Some, IsTrue, IfOk};
ghost use Rattle.and_policy.specs.Owners.{located};
ghost use Rattle.and_policy.specs.declared.decision.Located.TheVariants as locateds;
ghost use Rattle.and_policy.specs.declared.decision.Routed.TheVariants as routeds;
ghost use Rattle.and_policy.specs.declared.decision.Way as ways;
ghost use Rattle.and_events.specs.Just as spec;
ghost use Rattle.and_events.specs.Legal as legal;
ghost use Rattle.and_events.specs.State as states;
ghost use Rattle.and_events.specs.declared.event.Event.TheVariants as events;
ghost use Rattle.and_events.specs.declared.event.Passage.TheVariants as passages;
ghost use Rattle.and_events.specs.declared.event.Return.TheVariants as returns;
ghost use Rattle.and_plain.specs.History.{history};
ghost use Rattle.and_plain_fates.specs.Behind as behind;

use crate::led::led_to;
use crate::loss::{is_full, is_lost_at, is_spent};
use crate::said::{Decided, exit_by, located_by, routed_by};
use and_events::{Actor, Departure, End, Endpoint, Event, Node, Passage, Plan, Queue, Return};
use and_plain::{State, both, dest_endpoint, home, node_of, queue_place};
use and_policy::{Exit, Located, Name, NoMemory, Routed};
use std::alloc::Global;

/// Whether the `out` queue of the host of the packet's VM is full.
#[tactic(auto, unfolding(and_events::specs::Just::JustBy))]
pub(crate) fn is_injection_just(plan: &Plan, s: &State, earlier: &[Event], packet: u32) -> bool
    requires { s.now ≡ states.state plan.now (history earlier.now) }
    ensures { (step : ℕ) (full : Bool) → IsTrue result ↔ spec.JustBy plan.now (history earlier.now) (events.Inject step packet full) }
{
    let host = Node::Host(home(plan, s, packet));
    is_full(plan, s, queue_place(&plan.settings, host, Queue::Out))
}

// Whether the egress rules say this of the packet.
fn is_exit(
    alloc: Global,
    plan: &Plan,
    s: &State,
    decided: Decided,
    said: Exit,
) -> Result<bool, NoMemory>
    ensures ok { IfOk result (λ yes. IsTrue yes ↔ (behind.exit_of plan.now decided.packet (legal.entries_at plan.now s.now decided.actor decided.at) ≡ said)) }
{
    let exit = exit_by(alloc, plan, s, decided)?;
    Ok(exit == said)
}

// Whether a packet that is to be sealed ended so: nothing is sent, so no hop can be wanting.
fn is_lost_at_seal(plan: &Plan, s: &State, actor: Actor, end: End) -> bool
    ensures { IsTrue result ↔ behind.LostAtSeal plan.now s.now actor end }
{
    match end {
        End::Queued => true,
        End::Full => {
            is_full(
                plan,
                s,
                queue_place(&plan.settings, node_of(actor), Queue::Seal),
            )
        }
        End::Hops => false,
    }
}

/// Whether the departure has its reason.
#[tactic(auto, unfolding(and_events::specs::Just::JustBy))]
pub(crate) fn is_departure_just(
    alloc: Global,
    plan: &Plan,
    s: &State,
    earlier: &[Event],
    decided: Decided,
    departure: Departure,
) -> Result<bool, NoMemory>
    requires { s.now ≡ states.state plan.now (history earlier.now) }
    ensures ok { IfOk result (λ yes. (way : ways.Way) → IsTrue yes ↔ spec.JustBy plan.now (history earlier.now) (events.Egress decided.actor decided.packet decided.at way departure)) }
{
    match departure {
        Departure::NoVm => is_exit(alloc, plan, s, decided, Exit::NoVm),
        Departure::Spoofed => is_exit(alloc, plan, s, decided, Exit::Spoofed),
        Departure::Denied { number } => is_exit(alloc, plan, s, decided, Exit::Denied { number }),
        Departure::Allowed {
            sealed,
            dest,
            end,
            ..
        } => {
            if sealed {
                Ok(is_lost_at_seal(plan, s, decided.actor, end))
            } else {
                is_lost_at(plan, s, earlier, decided.packet, dest_endpoint(dest), end)
            }
        }
    }
}

// Whether the route leads somewhere, by this name.
fn leads_by(said: Routed, name: Name) -> bool
    ensures { IsTrue result ↔ ((net host : ℕ) × (said ≡ routeds.To name net host)) }
{
    match said {
        Routed::To { by, .. } => by == name,
        Routed::Dropped { .. } | Routed::NoOwner { .. } => false,
    }
}

// Whether the packet was due to go by this name, and no hop was left.
#[tactic(auto, unfolding(and_events::specs::Just::JustBy))]
fn is_route_spent(
    plan: &Plan,
    s: &State,
    earlier: &[Event],
    decided: Decided,
    by: Name,
) -> Result<bool, NoMemory>
    requires { s.now ≡ states.state plan.now (history earlier.now) }
    ensures ok { IfOk result (λ yes. IsTrue yes ↔ spec.JustBy plan.now (history earlier.now) (events.Route decided.actor decided.packet decided.at (passages.Hops by))) }
{
    let spent = is_spent(plan, earlier, decided.packet)?;
    let leads = leads_by(routed_by(plan, s, decided), by);
    Ok(both(leads, spent))
}

/// Whether the passage has its reason.
#[tactic(auto, unfolding(and_events::specs::Just::JustBy))]
pub(crate) fn is_passage_just(
    plan: &Plan,
    s: &State,
    earlier: &[Event],
    decided: Decided,
    passage: Passage,
) -> Result<bool, NoMemory>
    requires { s.now ≡ states.state plan.now (history earlier.now) }
    ensures ok { IfOk result (λ yes. IsTrue yes ↔ spec.JustBy plan.now (history earlier.now) (events.Route decided.actor decided.packet decided.at passage)) }
{
    match passage {
        Passage::Dropped { by } => Ok(routed_by(plan, s, decided) == Routed::Dropped { by }),
        Passage::NoOwner { by } => Ok(routed_by(plan, s, decided) == Routed::NoOwner { by }),
        Passage::Send { host, end, .. } => {
            is_lost_at(plan, s, earlier, decided.packet, Endpoint::Host(host), end)
        }
        Passage::Hops { by } => is_route_spent(plan, s, earlier, decided, by),
    }
}

// Whether the network in which the packet arrives has no owner of its destination.
fn is_nowhere(plan: &Plan, s: &State, decided: Decided, led: Option<u32>) -> bool
    ensures { IsTrue result
        ↔ ((net : ℕ) × (led ≡ Some net) × (located (legal.entries_at plan.now s.now decided.actor decided.at) net (spec.address plan.now decided.packet) ≡ locateds.NoOwner)) }
{
    match led {
        Some(net) => located_by(plan, s, decided, net) == Located::NoOwner,
        None => false,
    }
}

// Whether the packet's destination has no owner.
#[tactic(auto, unfolding(and_events::specs::Just::JustBy))]
fn is_ownerless(
    alloc: Global,
    plan: &Plan,
    s: &State,
    earlier: &[Event],
    decided: Decided,
) -> Result<bool, NoMemory>
    requires { s.now ≡ states.state plan.now (history earlier.now) }
    ensures ok { IfOk result (λ yes. IsTrue yes ↔ spec.JustBy plan.now (history earlier.now) (events.Redirect decided.actor decided.packet decided.at returns.NoOwner)) }
{
    let led = led_to(alloc, plan, earlier, decided.packet)?;
    Ok(is_nowhere(plan, s, decided, led))
}

// Whether the network in which the packet arrives has an owner of its destination at some host.
fn is_somewhere(plan: &Plan, s: &State, decided: Decided, led: Option<u32>) -> bool
    ensures { IsTrue result
        ↔ ((net host : ℕ) × (led ≡ Some net) × (located (legal.entries_at plan.now s.now decided.actor decided.at) net (spec.address plan.now decided.packet) ≡ locateds.To host)) }
{
    match led {
        Some(net) => is_at_host(located_by(plan, s, decided, net)),
        None => false,
    }
}

// Whether the owner is at a host.
fn is_at_host(said: Located) -> bool
    ensures { IsTrue result ↔ ((host : ℕ) × (said ≡ locateds.To host)) }
{
    match said {
        Located::To { .. } => true,
        Located::NoOwner => false,
    }
}

// Whether the packet was due to go to the host of its destination's owner, and no hop was left.
#[tactic(auto, unfolding(and_events::specs::Just::JustBy))]
fn is_return_spent(
    alloc: Global,
    plan: &Plan,
    s: &State,
    earlier: &[Event],
    decided: Decided,
) -> Result<bool, NoMemory>
    requires { s.now ≡ states.state plan.now (history earlier.now) }
    ensures ok { IfOk result (λ yes. IsTrue yes ↔ spec.JustBy plan.now (history earlier.now) (events.Redirect decided.actor decided.packet decided.at returns.Hops)) }
{
    let led = led_to(alloc, plan, earlier, decided.packet)?;
    let spent = is_spent(plan, earlier, decided.packet)?;
    let somewhere = is_somewhere(plan, s, decided, led);
    Ok(both(somewhere, spent))
}

/// Whether the return has its reason.
#[tactic(auto, unfolding(and_events::specs::Just::JustBy))]
pub(crate) fn is_return_just(
    alloc: Global,
    plan: &Plan,
    s: &State,
    earlier: &[Event],
    decided: Decided,
    back: Return,
) -> Result<bool, NoMemory>
    requires { s.now ≡ states.state plan.now (history earlier.now) }
    ensures ok { IfOk result (λ yes. IsTrue yes ↔ spec.JustBy plan.now (history earlier.now) (events.Redirect decided.actor decided.packet decided.at back)) }
{
    match back {
        Return::NoOwner => is_ownerless(alloc, plan, s, earlier, decided),
        Return::Send { host, end } => {
            is_lost_at(plan, s, earlier, decided.packet, Endpoint::Host(host), end)
        }
        Return::Hops => is_return_spent(alloc, plan, s, earlier, decided),
    }
}
