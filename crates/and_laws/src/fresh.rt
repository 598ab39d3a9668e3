//! Decisions are no older than what was installed when the packet was taken.
ghost use Rattle.std.specs.Prelude.{List, ℕ};
ghost use Rattle.and_events.specs.declared.event.Event.{Event};
ghost use Rattle.and_events.specs.declared.plan.Plan.{Plan};
ghost use Rattle.and_events.specs.Fresh.{Fresh};
ghost use Rattle.and_events.specs.Run.{Run};

/// Each decision of a run about a packet has at least the operations that the node had installed just before the actor's last
/// take of the packet, and at most those that were announced just before the decision.
#[tactic(auto, using(crate::proofs::Needs::fresh))]
pub fn decisions_are_fresh()
    ensures { (plan : Plan) (h : List Event) → Run plan h → (i : ℕ) → Fresh plan h i }
{}
