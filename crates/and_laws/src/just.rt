//! Every fate of a packet has its reason in the policy and in what happened before.
ghost use Rattle.std.specs.Prelude.{List, ℕ};
ghost use Rattle.and_events.specs.declared.event.Event.{Event};
ghost use Rattle.and_events.specs.declared.plan.Plan.{Plan};
ghost use Rattle.and_events.specs.Just.{Just};
ghost use Rattle.and_events.specs.Run.{Run};
ghost use Rattle.and_events.specs.Sound.{IsSound};
ghost use Rattle.and_laws.specs.Offloads.{HasRightOffloads, HasRightOrders};
ghost use Rattle.and_laws.specs.Stages.{HaveRightHands, Stages};

/// Each fate in a run of a sound plan has its reason, read off the history and the policy: why a packet was delivered, which
/// word dropped it, or that it was lost in a blackout, at a full queue or at the hop limit.
#[tactic(auto, using(crate::proofs::Justified::just))]
pub fn fates_are_just()
    ensures { (plan : Plan) (h : List Event) → IsSound plan → Run plan h → (i : ℕ) → Just plan h i }
{}

/// In a run of a sound plan each live offload order leads where the route of its source network leads, under the entries among
/// the operations by which it is live; and so does each packet that is offloaded.
#[tactic(auto, using(crate::proofs::Offloading::right_orders, crate::proofs::Offloading::right_offloads))]
pub fn offloads_lead_right()
    ensures orders { (plan : Plan) (h : List Event) → IsSound plan → Run plan h → HasRightOrders plan h }
    ensures offloads { (plan : Plan) (h : List Event) → IsSound plan → Run plan h → HasRightOffloads plan h }
{}

/// Where a packet is says which decisions led it there: what waits in an `out` queue was not decided of; what waits for a node
/// in its `wire` queue was sent to that node, and an Egress, and past the gateway the one Route, led it there; what waits to be
/// sealed had its Egress. So of what actors have in hand, each from a queue of its kind.
#[tactic(auto, using(crate::proofs::Staged::stages, crate::proofs::Hands::right_hands))]
pub fn places_follow_decisions()
    ensures stages { (plan : Plan) (h : List Event) → IsSound plan → Run plan h → Stages plan h }
    ensures hands { (plan : Plan) (h : List Event) → Run plan h → HaveRightHands plan h }
{}
