//! How long a run can be.
ghost use Rattle.std.specs.Prelude.{◌≤◌, List, length};
ghost use Rattle.and_events.specs.declared.event.Event.{Event};
ghost use Rattle.and_events.specs.declared.plan.Plan.{Plan};
ghost use Rattle.and_events.specs.Run.{Run};
ghost use Rattle.and_laws.specs.Bound.{bound, HasShortProgrammes};

/// No run of a plan has more events than the plan's bound: five for a step, two for each operation of a node's programme, and
/// two for a hop of a packet. So every run ends.
#[tactic(auto, using(crate::proofs::Bounded::run_ends))]
pub fn runs_are_bounded()
    ensures { (plan : Plan) (h : List Event) → Run plan h → length h ≤ bound plan }
{}

/// No node's programme has more operations than steps were done, even with an order for each key that was used since the last
/// review; and no more steps are done than the plan has.
#[tactic(auto, using(crate::proofs::Paying::short_programmes))]
pub fn programmes_are_short()
    ensures { (plan : Plan) (h : List Event) → Run plan h → HasShortProgrammes plan h }
{}
