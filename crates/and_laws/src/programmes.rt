//! What the nodes of a run are programmed with.
ghost use Rattle.std.specs.Prelude.{List};
ghost use Rattle.and_events.specs.declared.event.Event.{Event};
ghost use Rattle.and_events.specs.declared.plan.Plan.{Plan};
ghost use Rattle.and_events.specs.Run.{Run};
ghost use Rattle.and_laws.specs.Programmed.{AreProgrammed};

/// Each node's programme without its orders is the log; what it has installed was announced, and what was announced is in its
/// programme.
#[tactic(auto, using(crate::proofs::Programmed::programmed))]
pub fn programmes_follow_the_log()
    ensures { (plan : Plan) (h : List Event) → Run plan h → AreProgrammed plan h }
{}
