//! No run is stuck before its end.
ghost use Rattle.std.specs.Prelude.{◌<◌, List, length};
ghost use Rattle.and_events.specs.declared.event.Event.{Event};
ghost use Rattle.and_events.specs.declared.plan.Plan.{Plan};
ghost use Rattle.and_events.specs.Run.{Run};
ghost use Rattle.and_events.specs.Sound.{IsSound};
ghost use Rattle.and_events.specs.State.{state};
ghost use Rattle.and_laws.specs.Progress.{GoesOn};

/// Until the last step of the plan is done some actor is enabled, whatever is held and whichever VMs move.
#[tactic(auto, using(crate::proofs::Unstuck::goes_on))]
pub fn runs_go_on()
    ensures { (plan : Plan) (h : List Event) → IsSound plan → Run plan h → (state plan h).next < length plan.steps → GoesOn plan (state plan h) }
{}
