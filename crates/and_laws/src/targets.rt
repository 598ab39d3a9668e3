//! Where packets are sent.
ghost use Rattle.std.specs.Prelude.{List};
ghost use Rattle.and_events.specs.declared.event.Event.{Event};
ghost use Rattle.and_events.specs.declared.plan.Plan.{Plan};
ghost use Rattle.and_events.specs.Run.{Run};
ghost use Rattle.and_events.specs.Sound.{IsSound};
ghost use Rattle.and_laws.specs.Targets.{LeadsToNodes};

/// In a run of a sound plan a packet is never due to go anywhere but to a node of the plan: the hosts that routes, look-ups,
/// live orders and hairpins name are hosts of the plan, the gateways by the flow hash gateways of it, and so is the target that
/// is kept of each packet.
#[tactic(auto, using(crate::proofs::Leads::to_nodes))]
pub fn packets_go_to_nodes()
    ensures { (plan : Plan) (h : List Event) → IsSound plan → Run plan h → LeadsToNodes plan h }
{}
