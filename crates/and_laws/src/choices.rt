//! What an actor is free to choose, and that a plain run has no choice but its ways.
ghost use Rattle.std.specs.Prelude.{List};
ghost use Rattle.and_events.specs.declared.event.Actor.{Actor};
ghost use Rattle.and_events.specs.declared.event.Event.{Event};
ghost use Rattle.and_events.specs.declared.plan.Plan.{Plan};
ghost use Rattle.and_events.specs.Legal.{Enabled};
ghost use Rattle.and_events.specs.Run.{Run};
ghost use Rattle.and_events.specs.Sound.{IsSound};
ghost use Rattle.and_events.specs.State.{State, state};
ghost use Rattle.and_laws.specs.Choices.{IsOneRun, IsToldByChoice};
ghost use Rattle.and_laws.specs.Having.{DecidesAnywhere, HasEvent};

/// In any state, two legal events of one actor are one, unless they decide at other numbers or in other ways: whose turn it is, the number
/// and the way tell the event.
#[tactic(auto, using(crate::proofs::OneEvent::told_by_choice))]
pub fn choices_tell_events()
    ensures { (plan : Plan) (s : State) → IsToldByChoice plan s }
{}

/// An actor that is enabled in a run of a sound plan has a legal event; and with a packet in hand it can decide at each number from what the
/// packet needs on that is announced, in each way that is open to it.
#[tactic(auto, using(crate::proofs::Having::has_event, crate::proofs::Having::anywhere))]
pub fn enabled_actors_have_events()
    ensures event { (plan : Plan) (h : List Event) (a : Actor) → IsSound plan → Run plan h → Enabled plan (state plan h) a → HasEvent plan (state plan h) a }
    ensures decision { (plan : Plan) (h : List Event) → IsSound plan → Run plan h → DecidesAnywhere plan (state plan h) }
{}

/// A sound plan has at most one complete run in the plain order whose ways are by a given rule.
#[tactic(auto, using(crate::proofs::SameRuns::one_run))]
pub fn plain_runs_are_one()
    ensures { (plan : Plan) → IsSound plan → IsOneRun plan }
{}
