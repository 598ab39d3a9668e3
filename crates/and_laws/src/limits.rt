//! The limits of a run: the capacities of its queues and the hop limit of its packets.
ghost use Rattle.std.specs.Prelude.{List};
ghost use Rattle.and_events.specs.declared.event.Event.{Event};
ghost use Rattle.and_events.specs.declared.plan.Plan.{Plan};
ghost use Rattle.and_events.specs.Run.{Run};
ghost use Rattle.and_events.specs.Sound.{IsSound};
ghost use Rattle.and_laws.specs.Limits.{HasAllHops, HasDueLosses, IsWithinCapacity};

/// No queue holds more than its capacity.
#[tactic(auto, using(crate::proofs::Capacity::queues_within))]
pub fn queues_are_within_capacity()
    ensures { (plan : Plan) (h : List Event) → Run plan h → IsWithinCapacity plan h }
{}

/// The sends of each packet and the hops that it has left add up to the hop limit.
#[tactic(auto, using(crate::proofs::Hops::hops_left))]
pub fn hops_add_up()
    ensures { (plan : Plan) (h : List Event) → Run plan h → HasAllHops plan h }
{}

/// A packet that is lost at a full queue found it exactly at its capacity, and one that is lost at the hop limit was sent that
/// often.
#[tactic(auto, using(crate::proofs::Losses::due_losses))]
pub fn losses_are_due()
    ensures { (plan : Plan) (h : List Event) → IsSound plan → Run plan h → HasDueLosses plan h }
{}
