//! How complete runs end.
ghost use Rattle.std.specs.Prelude.{List};
ghost use Rattle.and_events.specs.declared.event.Event.{Event};
ghost use Rattle.and_events.specs.declared.plan.Plan.{Plan};
ghost use Rattle.and_events.specs.Complete.{IsComplete};
ghost use Rattle.and_events.specs.Run.{Run};
ghost use Rattle.and_events.specs.Sound.{IsSound};
ghost use Rattle.and_laws.specs.Ends.{IsAllDone};
ghost use Rattle.and_laws.specs.Fates.{HasOneFate};

/// A complete run gives each packet of its plan exactly one fate.
#[tactic(auto, using(crate::proofs::Complete::one_fate))]
pub fn one_fate_at_the_end()
    ensures { (plan : Plan) (h : List Event) → IsSound plan → Run plan h → IsComplete plan h → HasOneFate plan h }
{}

/// After a complete run no packet is queued or in hand, every programme is installed, no hairpin is left, and the log is the
/// plan's.
#[tactic(auto, using(crate::proofs::AllDone::all_done))]
pub fn all_done_at_the_end()
    ensures { (plan : Plan) (h : List Event) → IsSound plan → Run plan h → IsComplete plan h → IsAllDone plan h }
{}
