//! The plain order of one thread.
ghost use Rattle.std.specs.Prelude.{◌↔◌, IsTrue, IfOk};
ghost use Rattle.and_events.specs.Fresh.{decision_of};
ghost use Rattle.and_events.specs.Legal.{Enabled};
ghost use Rattle.and_events.specs.Ordered as spec;
ghost use Rattle.and_events.specs.Places as places;
ghost use Rattle.and_plain.specs.History.{history};

use crate::all::all_three;
use crate::first::is_first;
use and_events::{Event, Plan};
use and_plain::{State, actor_of, after, both, installed_of, is_enabled, node_of, start};
use and_policy::NoMemory;
use std::alloc::Global;

// Whether the event, where it decides, does so at what the node has installed.
fn is_at_installed(plan: &Plan, s: &State, event: &Event) -> bool
    ensures { IsTrue result ↔ spec.IsAtInstalled plan.now s.now (decision_of event.now) }
{
    match *event {
        Event::Egress { actor, at, .. }
        | Event::Route { actor, at, .. }
        | Event::Redirect { actor, at, .. }
        | Event::Ingress { actor, at, .. } => at == installed_of(plan, s, node_of(actor)),
        _ => true,
    }
}

// Whether the event's actor is enabled, and is the first that is, and decides at what its node has installed.
fn is_due(plan: &Plan, s: &State, event: &Event) -> bool
    ensures { IsTrue result
        ↔ (Enabled plan.now s.now (places.actor_of event.now) × spec.IsFirst plan.now s.now (places.actor_of event.now)
        × spec.IsAtInstalled plan.now s.now (decision_of event.now)) }
{
    let actor = actor_of(event);
    let enabled = is_enabled(plan, s, actor);
    let first = is_first(plan, s, actor);
    let installed = is_at_installed(plan, s, event);
    all_three(enabled, first, installed)
}

/// Whether at each event, the oldest of which is first, the enabled actor with the smallest number acted, and each decision
/// was at what the node had installed.
pub fn is_in_plain_order(alloc: Global, plan: &Plan, events: &[Event]) -> Result<bool, NoMemory>
    ensures ok { IfOk result (λ yes. IsTrue yes ↔ spec.IsInPlainOrder plan.now (history events.now)) }
{
    let mut s = start(alloc, plan)?;
    let mut ordered = true;
    for (n, event) in events.iter().enumerate() {
        ordered = both(ordered, is_due(plan, &s, event));
        after(alloc, plan, &mut s, event)?;
    }
    Ok(ordered)
}
