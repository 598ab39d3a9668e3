//! Where the packets of a run are, and what became of them.
ghost use Rattle.std.specs.Prelude.{List, ◌∷◌};
ghost use Rattle.and_events.specs.declared.event.Event.{Event};
ghost use Rattle.and_events.specs.declared.plan.Plan.{Plan};
ghost use Rattle.and_events.specs.Run.{Run};
ghost use Rattle.and_events.specs.Sound.{IsSound};
ghost use Rattle.and_laws.specs.Decided.{AreFirstInjected, IsBeforeFate};
ghost use Rattle.and_laws.specs.Fates.{HasFatesAndPlaces, HasOneFateOrPlace, IsAccounted, IsInjectedOnce};
ghost use Rattle.and_events.specs.Fresh.{decision_of};

/// Each packet of a run has together as many fates and places as it was injected. In a run of a sound plan that is one for
/// each packet that was injected, and none is injected twice.
#[tactic(auto, using(crate::proofs::Fates::each_has_one, crate::proofs::Injected::injected_once, crate::proofs::Injected::one_together))]
pub fn one_fate_or_place()
    ensures as_many { (plan : Plan) (h : List Event) → Run plan h → HasFatesAndPlaces plan h }
    ensures once { (plan : Plan) (h : List Event) → IsSound plan → Run plan h → IsInjectedOnce plan h }
    ensures one { (plan : Plan) (h : List Event) → IsSound plan → Run plan h → HasOneFateOrPlace plan h }
{}

/// At each moment of a run the packets injected so far are as many as the fates, the queued and the held together: what comes
/// before an event of a run is a run.
#[tactic(auto, using(crate::proofs::Fates::accounted))]
pub fn all_accounted()
    ensures { (plan : Plan) (h : List Event) → Run plan h → IsAccounted plan h }
{}

/// Before an event that decides of a packet the packet had no fate: no decision about a packet follows its fate.
#[tactic(auto, using(crate::proofs::Deciding::decides_before_fate))]
pub fn no_decision_after_fate()
    ensures { (plan : Plan) (e : Event) (h : List Event) → IsSound plan → Run plan (e ∷ h) → IsBeforeFate h (decision_of e) }
{}

/// The packets injected so far are those whose numbers are below their count.
#[tactic(auto, using(crate::proofs::Counted::first_injected))]
pub fn first_packets_are_injected()
    ensures { (plan : Plan) (h : List Event) → IsSound plan → Run plan h → AreFirstInjected h }
{}
