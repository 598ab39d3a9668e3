//! What a scenario and a capture plan, by the definitions alone: no code is named here. A plan's steps are shown to fit as the items give
//! them, one after another; at the end each thing that is still held is freed, once.
ghost use Rattle.std.specs.Prelude.{◌≤◌, length};
ghost use Rattle.and_capture.specs.declared.capture.Capture.{Capture};
ghost use Rattle.and_events.specs.declared.plan.Scenario.{Scenario};
ghost use Rattle.and_events.specs.Planned.{planned};
ghost use Rattle.and_events.specs.Sound.{IsSound};
ghost use Rattle.and_planner.specs.Scenarios.{IsScenario};

/// The plan of a scenario whose numbers are in their ranges, with a capture of at most 100,000 frames, is sound.
#[tactic(auto, using(crate::proofs::Planned::planned_is_sound))]
pub fn plans_are_sound()
    ensures { (scenario : Scenario) (capture : Capture) → IsScenario scenario → length capture.frames ≤ 100000 → IsSound (planned scenario capture) }
{}
