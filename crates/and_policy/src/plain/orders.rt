//! Offload orders of a programme.
ghost use Rattle.std.specs.Prelude.{◌≡◌, ◌<◌, ◌∷◌, Option, option_map};
ghost use Rattle.std.specs.List.{list_any};
ghost use Rattle.and_policy.specs.Egress.{egress};
ghost use Rattle.and_policy.specs.Homes.{home_of};
ghost use Rattle.and_policy.specs.Logs.{Vm, vm_of};
ghost use Rattle.and_policy.specs.Programmes as spec;
ghost use Rattle.and_policy.specs.Steps.{log_of, living_in, order_for};

use crate::decision::{Dest, Exit, Leaving};
use crate::entry::{Op, Order};
use crate::packet::Tuple;
use crate::plain::sides::egress_in;
use crate::plain::vms::{Home, find_home, net_of, now};
use crate::underlay::flow_hash;

/// Whether the network is this one.
pub(crate) fn is_net(found: Option<u32>, net: u32) -> bool
    ensures { result ≡ spec.is_net found net }
{
    match found {
        None => false,
        Some(found) => found == net,
    }
}

// Whether the operation is an order for this network and address.
fn is_for(net: u32, ip: u32, op: &Op) -> bool
    ensures { result ≡ spec.orders_for net ip op.now }
{
    match op {
        Op::Entry(_) => false,
        Op::Offload(order) => order.net == net && order.ip == ip,
    }
}

// Whether the operation, which stands after the order among `ops`, ends it.
fn ends(ops: &[Op], order: &Order, op: &Op) -> bool
    ensures { result ≡ spec.ends (log_of ops.now) order.now op.now }
{
    match op {
        Op::Entry(entry) => {
            let net = net_of(ops, entry);
            is_net(net, order.net) || is_net(net, order.to_net)
        }
        Op::Offload(_) => is_for(order.net, order.ip, op),
    }
}

// Whether some operation of `later` ends the order.
fn is_ended(ops: &[Op], order: &Order, later: &[Op]) -> bool
    ensures { result ≡ list_any (spec.ends (log_of ops.now) order.now) later.now }
{
    let mut ended = false;
    let mut at = later.len();
    while at > 0 {
        at -= 1;
        ended = ends(ops, order, &later[at]) || ended;
    }
    ended
}

/// Whether the order lives, `later` being what stands after it among `ops`.
pub(crate) fn lives(ops: &[Op], order: &Order, later: &[Op]) -> bool
    ensures { result ≡ spec.lives (log_of ops.now) order.now later.now }
{
    !is_ended(ops, order, later) && now(ops) < order.until as usize
}

/// What was found of the orders for one network and address.
#[derive(Debug, Clone, Copy, PartialEq, Eq)]
struct Search {
    /// Whether there is one.
    seen: bool,
    /// The one that lives.
    live: Option<Order>,
}

// The search, one operation further to the front. Only the last of the orders can live.
fn search_step(ops: &[Op], net: u32, ip: u32, op: &Op, later: &[Op], search: Search) -> Search
    requires seen { search.seen ≡ list_any (spec.orders_for net ip) later.now }
    requires live { search.live ≡ order_for net ip (living_in ops.now later.now) }
    ensures seen { result.seen ≡ list_any (spec.orders_for net ip) (op.now ∷ later.now) }
    ensures live { result.live ≡ order_for net ip (living_in ops.now (op.now ∷ later.now)) }
{
    match op {
        Op::Offload(order) if order.net == net && order.ip == ip => {
            if search.seen {
                return search;
            }
            let live = if lives(ops, order, later) {
                Some(*order)
            } else {
                search.live
            };
            Search { seen: true, live }
        }
        _ => search,
    }
}

/// The live order for this network and address.
pub(crate) fn live_in(ops: &[Op], net: u32, ip: u32) -> Option<Order>
    ensures { result ≡ order_for net ip (living_in ops.now ops.now) }
{
    let mut search = Search {
        seen: false,
        live: None,
    };
    let mut at = ops.len();
    while at > 0 {
        at -= 1;
        search = search_step(ops, net, ip, &ops[at], &ops[at + 1..], search);
    }
    search.live
}

// What a host decides where the egress verdict is known.
fn leaving_by(exit: Exit, dest: Dest) -> Leaving
    ensures { result ≡ spec.leaving_by exit dest }
{
    match exit {
        Exit::NoVm => Leaving::NoVm,
        Exit::Spoofed => Leaving::Spoofed,
        Exit::Denied { number } => Leaving::Denied { number },
        Exit::Allowed { by, sealed } => Leaving::Allowed { by, sealed, dest },
    }
}

// Where a packet goes that may leave: by the order, or else to the gateway of its flow hash.
fn dest_by(gateways: u32, tuple: &Tuple, order: Option<Order>) -> Dest
    requires { 0 < gateways }
    ensures { result ≡ spec.dest_by gateways tuple.now order }
{
    match order {
        None => Dest::Hover {
            gateway: u32::from(flow_hash(tuple)) % gateways,
        },
        Some(order) => Dest::Offload {
            host: order.to_host,
            net: order.to_net,
        },
    }
}

// The network of the VM's home; 0 where it has none.
fn own_net(home: Option<Home>) -> u32
    ensures { (vm : Option Vm) → home ≡ option_map home_of vm → result ≡ spec.own_net vm }
{
    match home {
        None => 0,
        Some(home) => home.net,
    }
}

/// What the operations say of a packet of this VM, with this many gateways.
pub(crate) fn leaving_in(gateways: u32, ops: &[Op], vm: u32, tuple: &Tuple) -> Leaving
    requires { 0 < gateways }
    ensures { let own = spec.own_net (vm_of (log_of ops.now) vm) in
        let order = order_for own tuple.now.destination (living_in ops.now ops.now) in
        result ≡ spec.leaving_by (egress (log_of ops.now) vm tuple.now) (spec.dest_by gateways tuple.now order) }
{
    let exit = egress_in(ops, vm, tuple);
    let net = own_net(find_home(ops, vm));
    let order = live_in(ops, net, tuple.destination);
    leaving_by(exit, dest_by(gateways, tuple, order))
}
