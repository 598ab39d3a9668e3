//! What a trace says of the history that it was written for.
ghost use Rattle.std.specs.Prelude.{◌≡◌, List};
ghost use Rattle.and_events.specs.declared.event.Event.{Event};
ghost use Rattle.and_events.specs.declared.plan.Plan.{Plan};
ghost use Rattle.and_events.specs.Run.{Run};
ghost use Rattle.and_trace.specs.Spelling.{HaveSpellings, IsSpelled, trace};

/// Two different histories whose events have a spelling never have the same trace.
#[tactic(auto, using(crate::proofs::Names::names_one))]
pub fn trace_names_one_history()
    ensures { (g h : List Event) → IsSpelled g → IsSpelled h → trace g ≡ trace h → g ≡ h }
{}

/// Each event of a run that names an actor names one that takes packets: a worker, a coprocessor or a gateway's worker. That
/// the numbers of the lines fit is the clause `spelled` of `print_trace`.
#[tactic(auto, using(crate::proofs::Runs::runs_have_spellings))]
pub fn runs_have_spellings()
    ensures { (plan : Plan) (h : List Event) → Run plan h → HaveSpellings h }
{}
