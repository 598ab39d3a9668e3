//! The ports of the VMs in a run.
ghost use Rattle.std.specs.Prelude.{List};
ghost use Rattle.and_events.specs.declared.event.Event.{Event};
ghost use Rattle.and_events.specs.declared.plan.Plan.{Plan};
ghost use Rattle.and_events.specs.Run.{Run};
ghost use Rattle.and_events.specs.Sound.{IsSound};
ghost use Rattle.and_laws.specs.LivePorts.{FollowsSteps, HasRunningPorts};

/// A live VM outside a blackout has one running port, and one in a blackout none.
#[tactic(auto, using(crate::proofs::Following::running_ports))]
pub fn live_vms_run_once()
    ensures { (plan : Plan) (h : List Event) → IsSound plan → Run plan h → HasRunningPorts plan h }
{}

/// The log is what the steps gave so far. A VM that is live by them and in no blackout runs at its place, one in a blackout is
/// paused there and arriving at the host to which it is on its way, and apart from hairpins there are no other ports.
#[tactic(auto, using(crate::proofs::Following::follows_steps))]
pub fn ports_follow_the_steps()
    ensures { (plan : Plan) (h : List Event) → IsSound plan → Run plan h → FollowsSteps plan h }
{}
