//! The plan of a scenario and a capture.
ghost use Rattle.std.specs.Prelude.{◌≡◌, ◌≤◌, length, IfOk};
ghost use Rattle.and_events.specs.Planned.{planned, items_applied, nothing_planned};
ghost use Rattle.and_events.specs.Sound.{IsSound};
ghost use Rattle.and_planner.specs.Planners.{planning_of};
ghost use Rattle.and_planner.specs.Plans.{CanPlan};

use crate::planner::Planner;
use and_capture::{Capture, Taken};
use and_events::{Item, Plan, Scenario, Settings, Step};
use and_policy::NoMemory;
use std::alloc::Global;

/// Applies the items in order.
fn apply_all(
    alloc: Global,
    settings: Settings,
    items: &[Item],
    frames: Vec<Taken>,
) -> Result<Planner, NoMemory>
    requires items { length items.now ≤ 65536 }
    requires frames { length frames.items ≤ 100000 }
    ensures planning { IfOk result (λ p. planning_of p ≡ items_applied settings 0 items.now (nothing_planned frames.items)) }
    ensures settings { IfOk result (λ p. p.state.settings ≡ settings) }
    ensures frames { IfOk result (λ p. length p.frames.items ≤ 100000) }
{
    let mut planner = Planner::make(alloc, settings, frames)?;
    for (number, item) in items.iter().enumerate() {
        planner.apply(alloc, number as u32, item)?;
    }
    Ok(planner)
}

/// The plan of a scenario and a capture. No item looks back over the log, and the frames move into
/// the packets.
fn made(alloc: Global, scenario: Scenario, capture: Capture) -> Result<Plan, NoMemory>
    requires { CanPlan scenario capture }
    ensures planned { IfOk result (λ p. p ≡ planned scenario capture) }
{
    let Scenario {
        settings,
        names,
        items,
    } = scenario;
    let frames = capture.frames.len() as u32;
    let nanos = capture.nanos;
    let mut planner = apply_all(alloc, settings, items.as_slice(), capture.frames.into_vec())?;
    planner.state.free_all(&mut planner.steps)?;
    planner.steps.push(Step::Finish)?;
    Ok(Plan {
        settings,
        steps: planner.steps,
        log: planner.state.to_log(alloc)?,
        packets: planner.packets,
        refused: planner.refused,
        skipped: planner.skipped,
        frames,
        unsent: planner.frames.len() as u32,
        nanos,
        names,
    })
}

/// The plan of a scenario and a capture, which is sound. Want of memory is the only error, and then nothing of the plan is left.
pub fn plan(alloc: Global, scenario: Scenario, capture: Capture) -> Result<Plan, NoMemory>
    requires { CanPlan scenario capture }
    ensures planned { IfOk result (λ p. p ≡ planned scenario capture) }
    ensures sound { IfOk result (λ p. IsSound p) }
{
    made(alloc, scenario, capture)
}
