//! What the numbers of a report add up to.
ghost use Rattle.std.specs.Prelude.{◌≡◌, ◌+◌, List, length};
ghost use Rattle.std.specs.List.{count_by};
ghost use Rattle.and_events.specs.declared.event.Event.{Event};
ghost use Rattle.and_capture.specs.declared.capture.Capture.{Capture};
ghost use Rattle.and_events.specs.declared.plan.Plan.{Plan};
ghost use Rattle.and_events.specs.declared.plan.Scenario.{Scenario};
ghost use Rattle.and_events.specs.Complete.{IsComplete};
ghost use Rattle.and_events.specs.Planned.{planned};
ghost use Rattle.and_events.specs.Run.{Run};
ghost use Rattle.and_events.specs.Sound.{IsSound};
ghost use Rattle.and_report.specs.Sums.{ended, is_fate};
ghost use Rattle.and_report.specs.Tally.{tally};

/// The lines `delivered`, `dropped`, `lost blackout`, `lost queue` and `lost hops` count each event that is a
/// packet's fate exactly once: in one of the five, and no other event.
#[tactic(auto, using(crate::proofs::Ended::ends_once))]
pub fn fates_are_counted_once()
    ensures { (plan : Plan) (h : List Event) → ended (tally plan h).fates ≡ count_by is_fate h }
{}

/// After a complete run of a sound plan the line `injected` is the sum of the lines `delivered`, `dropped`, `lost blackout`, `lost queue` and
/// `lost hops`.
#[tactic(auto, using(crate::proofs::WholeRuns::all_end))]
pub fn packets_add_up()
    ensures { (plan : Plan) (h : List Event) → IsSound plan → Run plan h → IsComplete plan h → length plan.packets ≡ ended (tally plan h).fates }
{}

/// Of each plan of a scenario and a capture the line `frames` is the sum of the lines `skipped`, `unsent` and `injected`.
#[tactic(auto, using(crate::proofs::Framed::frames_add_up))]
pub fn frames_add_up()
    ensures { (scenario : Scenario) (capture : Capture) → (planned scenario capture).frames
        ≡ length (planned scenario capture).skipped + (planned scenario capture).unsent + length (planned scenario capture).packets }
{}
