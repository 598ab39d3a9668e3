//! The policy as a plain program: each function computes the definition of its name by passes over the list, and keeps
//! no table.
//!
//! The functions over a log take a list of entries. Those whose name ends in `_at`, and those that speak of offload orders,
//! take the operations of a node's programme and how many of them count.
ghost use Rattle.std.specs.Prelude.{◌≡◌, ◌<◌, ◌≤◌, length};
ghost use Rattle.and_policy.specs.Egress as egresses;
ghost use Rattle.and_policy.specs.Ingress as ingresses;
ghost use Rattle.and_policy.specs.Owners as owners;
ghost use Rattle.and_policy.specs.Programmes as programmes;
ghost use Rattle.and_policy.specs.Programmes.{prefix};
ghost use Rattle.and_policy.specs.Routes as routes;

mod logged;
mod orders;
mod routes;
mod rules;
mod sides;
mod touches;
mod vms;

use crate::decision::{Exit, Landing, Leaving, Located, Routed, Routing};
use crate::entry::{Entry, Op, Order};
use crate::packet::Tuple;
pub use rules::{is_side, matches, verdict, verdict_by};

/// What the log says of a packet that leaves this VM.
pub fn egress(log: &[Entry], vm: u32, tuple: &Tuple) -> Exit
    ensures { result ≡ egresses.egress log.now vm tuple.now }
{
    sides::egress_in(log, vm, tuple)
}

/// What the log says of a packet that has come for the owner of its destination in the network.
pub fn landing(log: &[Entry], net: u32, tuple: &Tuple) -> Landing
    ensures { result ≡ ingresses.landing log.now net tuple.now }
{
    sides::landing_in(log, net, tuple)
}

/// What the routes of the network say of a destination. The address is the number whose highest byte is the first on the wire.
pub fn route(log: &[Entry], net: u32, address: u32) -> Routing
    ensures { result ≡ routes.route log.now net address }
{
    routes::route_in(log, net, address)
}

/// The live VM of the network with this address, the number whose highest byte is the first on the wire.
pub fn owner(log: &[Entry], net: u32, address: u32) -> Option<u32>
    ensures { result ≡ owners.owner log.now net address }
{
    vms::owner(log, net, address)
}

/// The route of the network for the address, and where it leads the place of the address's owner. The address is the number
/// whose highest byte is the first on the wire.
pub fn routed(log: &[Entry], net: u32, address: u32) -> Routed
    ensures { result ≡ owners.routed log.now net address }
{
    sides::routed_in(log, net, address)
}

/// The place of the address's owner in the network itself. The address is the number whose highest byte is the first on the wire.
pub fn located(log: &[Entry], net: u32, address: u32) -> Located
    ensures { result ≡ owners.located log.now net address }
{
    sides::located_in(log, net, address)
}

/// [`landing`] under the first `count` operations.
#[tactic(auto, using(crate::proofs::LoggedLemmas::entries_of_ops))]
pub fn landing_at(ops: &[Op], count: u32, net: u32, tuple: &Tuple) -> Landing
    requires { count ≤ length ops.now }
    ensures { result ≡ ingresses.landing (prefix ops.now count) net tuple.now }
{
    sides::landing_in(&ops[..count as usize], net, tuple)
}

/// [`routed`] under the first `count` operations.
#[tactic(auto, using(crate::proofs::LoggedLemmas::entries_of_ops))]
pub fn routed_at(ops: &[Op], count: u32, net: u32, address: u32) -> Routed
    requires { count ≤ length ops.now }
    ensures { result ≡ owners.routed (prefix ops.now count) net address }
{
    sides::routed_in(&ops[..count as usize], net, address)
}

/// [`located`] under the first `count` operations.
#[tactic(auto, using(crate::proofs::LoggedLemmas::entries_of_ops))]
pub fn located_at(ops: &[Op], count: u32, net: u32, address: u32) -> Located
    requires { count ≤ length ops.now }
    ensures { result ≡ owners.located (prefix ops.now count) net address }
{
    sides::located_in(&ops[..count as usize], net, address)
}

/// The live order for this source network and address under the first `count` operations. The address is the number whose
/// highest byte is the first on the wire.
#[tactic(auto, using(crate::proofs::LoggedLemmas::entries_of_ops))]
pub fn live(ops: &[Op], count: u32, net: u32, ip: u32) -> Option<Order>
    requires { count ≤ length ops.now }
    ensures { result ≡ programmes.live ops.now count net ip }
{
    orders::live_in(&ops[..count as usize], net, ip)
}

/// What the first `count` operations say of a packet of this VM, with this many gateways. A packet that may leave goes by
/// the live order for its network and destination, or else to the gateway of its flow hash.
#[tactic(auto, using(crate::proofs::LoggedLemmas::entries_of_ops))]
pub fn leaving(gateways: u32, ops: &[Op], count: u32, vm: u32, tuple: &Tuple) -> Leaving
    requires gateways { 0 < gateways }
    requires count { count ≤ length ops.now }
    ensures { result ≡ programmes.leaving gateways ops.now count vm tuple.now }
{
    orders::leaving_in(gateways, &ops[..count as usize], vm, tuple)
}

/// The greatest place up to `count` whose operation touches the network, or 0. Places count from 1.
pub fn touched(ops: &[Op], count: u32, net: u32) -> u32
    requires { count ≤ length ops.now }
    ensures { result ≡ programmes.touched ops.now count net }
{
    touches::touched_in(ops, count, net)
}
