//! What the policy says of a packet under the log entries behind a decision.
ghost use Rattle.std.specs.Prelude.{◌≡◌, IfOk};
ghost use Rattle.and_policy.specs.Ingress.{landing};
ghost use Rattle.and_policy.specs.Owners.{located};
ghost use Rattle.and_events.specs.Just as spec;
ghost use Rattle.and_events.specs.Legal as legal;
ghost use Rattle.and_events.specs.State as states;
ghost use Rattle.and_plain_fates.specs.Behind as behind;

use crate::behind::entries_at;
use crate::led::exit_of;
use and_events::{Actor, Plan};
use and_plain::{State, clamp, node_of, programme_of, source_net, tuple_at};
use and_policy::plain::{landing_at, located_at, routed_at};
use and_policy::{Exit, Landing, Located, NoMemory, Routed};
use std::alloc::Global;

/// Who decided, of which packet, at which number.
#[derive(Clone, Copy)]
pub(crate) struct Decided {
    pub(crate) actor: Actor,
    pub(crate) packet: u32,
    pub(crate) at: u32,
}

/// What the egress rules say of the packet.
pub(crate) fn exit_by(
    alloc: Global,
    plan: &Plan,
    s: &State,
    decided: Decided,
) -> Result<Exit, NoMemory>
    ensures ok { IfOk result (λ said. said ≡ behind.exit_of plan.now decided.packet (legal.entries_at plan.now s.now decided.actor decided.at)) }
{
    let entries = entries_at(alloc, plan, s, decided.actor, decided.at)?;
    Ok(exit_of(plan, entries.as_slice(), decided.packet))
}

/// What the route of the packet's source network says.
pub(crate) fn routed_by(plan: &Plan, s: &State, decided: Decided) -> Routed
    ensures { result ≡ behind.routed_from plan.now decided.packet (legal.entries_at plan.now s.now decided.actor decided.at) }
{
    let ops = programme_of(plan, s, node_of(decided.actor));
    let net = source_net(plan, decided.packet);
    let address = tuple_at(plan, decided.packet).destination;
    routed_at(ops, clamp(ops, decided.at), net, address)
}

/// Where the owner of the packet's destination is in this network.
pub(crate) fn located_by(plan: &Plan, s: &State, decided: Decided, net: u32) -> Located
    ensures { result ≡ located (legal.entries_at plan.now s.now decided.actor decided.at) net (spec.address plan.now decided.packet) }
{
    let ops = programme_of(plan, s, node_of(decided.actor));
    let address = tuple_at(plan, decided.packet).destination;
    located_at(ops, clamp(ops, decided.at), net, address)
}

/// What the ingress rules of this network say of the packet.
pub(crate) fn landing_by(plan: &Plan, s: &State, decided: Decided, net: u32) -> Landing
    ensures { result ≡ landing (legal.entries_at plan.now s.now decided.actor decided.at) net (states.tuple_at plan.now decided.packet) }
{
    let ops = programme_of(plan, s, node_of(decided.actor));
    let tuple = tuple_at(plan, decided.packet);
    landing_at(ops, clamp(ops, decided.at), net, &tuple)
}
