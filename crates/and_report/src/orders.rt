//! How many offload orders the programmes have after any lines.
ghost use Rattle.std.specs.Prelude.{◌≡◌, ◌<◌, length, slice_get, IfOk};
ghost use Rattle.std.specs.List.{count_by, list_any};
ghost use Rattle.and_events.specs.Places as places;
ghost use Rattle.and_events.specs.Run.{past};
ghost use Rattle.and_events.specs.State as states;
ghost use Rattle.and_report.specs.Orders as spec;
ghost use Rattle.and_report.specs.Tally as tallies;

use and_events::{Event, Line, Node, Plan, Settings, Step};
use and_plain::{State, after, node_count, programme_of, start};
use and_policy::{NoMemory, Op};
use std::alloc::Global;

fn is_review(plan: &Plan, step: u32) -> bool
    ensures { result ≡ spec.is_review (slice_get plan.now.steps step) }
{
    matches!(plan.steps.get(step as usize), Some(Step::Review))
}

// Whether the event does a step that reviews the usage.
fn gives_orders(plan: &Plan, event: &Event) -> bool
    ensures { result ≡ spec.gives_orders plan.now event.now }
{
    match *event {
        Event::Append { step } => is_review(plan, step),
        Event::Review { step } => is_review(plan, step),
        Event::Resume { step } => is_review(plan, step),
        _ => false,
    }
}

// Whether one of the events does.
#[tactic(auto, using(crate::proofs::Past::past_more))]
fn any_gives_orders(plan: &Plan, lines: &[Line]) -> bool
    ensures { result ≡ list_any (spec.gives_orders plan.now) (past lines.now) }
{
    let mut any = false;
    for line in lines {
        any = gives_orders(plan, &line.event) || any;
    }
    any
}

// The state after the lines.
#[tactic(auto, using(crate::proofs::Past::past_more), unfolding(and_events::specs::State::state))]
fn state_after(alloc: Global, plan: &Plan, lines: &[Line]) -> Result<State, NoMemory>
    ensures { IfOk result (λ s. s ≡ states.state plan.now (past lines.now)) }
{
    let mut s = start(alloc, plan)?;
    for line in lines {
        after(alloc, plan, &mut s, &line.event)?;
    }
    Ok(s)
}

fn is_order(op: &Op) -> bool
    ensures { result ≡ tallies.is_order op.now }
{
    matches!(*op, Op::Offload(_))
}

fn count_orders(programme: &[Op]) -> usize
    ensures { result ≡ count_by tallies.is_order programme.now }
{
    programme.iter().filter(|op| is_order(op)).count()
}

// The node at a place: hosts come first, then gateways.
fn node_at(s: &Settings, place: usize) -> Node
    requires { place < places.node_count s.now }
    ensures { places.node_place s.now result ≡ place }
{
    let Settings {
        hosts,
        gateways: _gateways,
        ..
    } = *s;
    if place < hosts as usize {
        Node::Host(place as u32)
    } else {
        Node::Gate((place - hosts as usize) as u32)
    }
}

// The orders of all programmes. More than the type holds are more than memory holds.
fn orders_in(plan: &Plan, s: &State) -> Result<u64, NoMemory>
    requires { length s.now.programmes.ops ≡ places.node_count plan.now.settings }
    ensures { IfOk result (λ orders. orders ≡ tallies.orders_among s.now.programmes.ops) }
{
    let mut orders = 0u64;
    for place in 0..node_count(&plan.settings) {
        let programme = programme_of(plan, s, node_at(&plan.settings, place));
        match orders.checked_add(count_orders(programme) as u64) {
            Some(sum) => orders = sum,
            None => return Err(NoMemory),
        }
    }
    Ok(orders)
}

/// How many offload orders the programmes have after the lines. Without a review there are none; else the plain
/// program's state has them.
pub(crate) fn orders(alloc: Global, plan: &Plan, lines: &[Line]) -> Result<u64, NoMemory>
    ensures { IfOk result (λ orders. orders ≡ tallies.orders_among (states.state plan.now (past lines.now)).programmes.ops) }
{
    if !any_gives_orders(plan, lines) {
        return Ok(0);
    }
    let s = state_after(alloc, plan, lines)?;
    orders_in(plan, &s)
}
