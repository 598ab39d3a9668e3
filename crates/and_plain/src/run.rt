//! Which lists of events are runs.
ghost use Rattle.std.specs.Prelude.{◌<◌, IfOk, MatchOption};
ghost use Rattle.and_events.specs.Run.{Run};
ghost use Rattle.and_plain.specs.History.{history, IsFirstIllegal};

use crate::events::after;
use crate::legal::is_legal;
use crate::state::start;
use and_events::{Event, Plan};
use and_policy::NoMemory;
use std::alloc::Global;

/// The number, from 0, of the first event that is not legal in the state just before it; none where the events, the oldest
/// of which is first, are a run of the plan.
pub fn first_illegal(
    alloc: Global,
    plan: &Plan,
    events: &[Event],
) -> Result<Option<usize>, NoMemory>
    requires { 0 < plan.now.settings.gateways }
    ensures ok { IfOk result (λ found. MatchOption found (Run plan.now (history events.now)) (λ n. IsFirstIllegal plan.now events.now n)) }
{
    let mut s = start(alloc, plan)?;
    for (n, event) in events.iter().enumerate() {
        if !is_legal(plan, &s, event) {
            return Ok(Some(n));
        }
        after(alloc, plan, &mut s, event)?;
    }
    Ok(None)
}
