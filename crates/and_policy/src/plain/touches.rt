//! What touches a network: its entries, its orders, and what ends its orders.
ghost use Rattle.std.specs.Prelude.{◌≡◌, ◌<◌, ◌≤◌, ◌||◌, ◌∷◌, ◌-◌, length, slice_get};
ghost use Rattle.std.specs.List.{list_any};
ghost use Rattle.and_policy.specs.Programmes as spec;
ghost use Rattle.and_policy.specs.Steps.{log_of, living_in, is_one_gone};

use crate::entry::{Op, Order};
use crate::plain::orders::{is_net, lives};
use crate::plain::vms::net_of;

// Whether the operation, one of `ops`, is an entry of the network or an order with it as source.
fn is_of(ops: &[Op], net: u32, op: &Op) -> bool
    ensures { result ≡ (spec.is_entry_of (log_of ops.now) net op.now || spec.is_order_of net op.now) }
{
    match op {
        Op::Entry(entry) => is_net(net_of(ops, entry), net),
        Op::Offload(order) => order.net == net,
    }
}

// Whether the orders are the same.
fn is_same(a: &Order, b: &Order) -> bool
    ensures { result ≡ spec.same_order a.now b.now }
{
    a.net == b.net
        && a.ip == b.ip
        && a.to_net == b.to_net
        && a.to_host == b.to_host
        && a.until == b.until
}

// Whether the order is the operation and lives, `later` being what stands after it among `ops`; or else as it was found.
fn living_step(ops: &[Op], order: &Order, op: &Op, later: &[Op], found: bool) -> bool
    requires { found ≡ list_any (spec.same_order order.now) (living_in ops.now later.now) }
    ensures { result ≡ list_any (spec.same_order order.now) (living_in ops.now (op.now ∷ later.now)) }
{
    match op {
        Op::Offload(other) if is_same(order, other) && lives(ops, other, later) => true,
        _ => found,
    }
}

// Whether the order lives among the operations.
fn is_living(ops: &[Op], order: &Order) -> bool
    ensures { result ≡ list_any (spec.same_order order.now) (living_in ops.now ops.now) }
{
    let mut found = false;
    let mut at = ops.len();
    while at > 0 {
        at -= 1;
        found = living_step(ops, order, &ops[at], &ops[at + 1..], found);
    }
    found
}

// Whether the operation is an order of the network that lives among `earlier` and not among `until`; or else as it was found.
fn ending_step(earlier: &[Op], until: &[Op], net: u32, op: &Op, later: &[Op], found: bool) -> bool
    requires { found ≡ is_one_gone net (living_in earlier.now later.now) (living_in until.now until.now) }
    ensures { result ≡ is_one_gone net (living_in earlier.now (op.now ∷ later.now)) (living_in until.now until.now) }
{
    match op {
        Op::Offload(order)
            if order.net == net && lives(earlier, order, later) && !is_living(until, order) => true,
        _ => found,
    }
}

// Whether some order of the network lives among `earlier` and not among `until`.
fn ends_order(earlier: &[Op], until: &[Op], net: u32) -> bool
    ensures { result ≡ is_one_gone net (living_in earlier.now earlier.now) (living_in until.now until.now) }
{
    let mut found = false;
    let mut at = earlier.len();
    while at > 0 {
        at -= 1;
        found = ending_step(earlier, until, net, &earlier[at], &earlier[at + 1..], found);
    }
    found
}

// Whether the operation at this place is an entry of the network or an order with it as source.
#[tactic(auto, using(crate::proofs::LoggedLemmas::entries_of_ops))]
fn is_own(ops: &[Op], place: usize, net: u32) -> bool
    requires first { 0 < place }
    requires last { place ≤ length ops.now }
    ensures { let k = spec.prefix ops.now place in
        result ≡ spec.is_some_and (λ op. spec.is_entry_of k net op || spec.is_order_of net op) (slice_get ops.now (place - 1)) }
{
    match ops.get(place - 1) {
        Some(op) => is_of(&ops[..place], net, op),
        None => false,
    }
}

// Whether the operation at this place ends an order of the network.
#[tactic(auto, using(crate::proofs::LoggedLemmas::entries_of_ops))]
fn ends_at(ops: &[Op], place: usize, net: u32) -> bool
    requires first { 0 < place }
    requires last { place ≤ length ops.now }
    ensures { result ≡ spec.ends_order ops.now place net }
{
    ends_order(&ops[..place - 1], &ops[..place], net)
}

// Whether the operation at this place touches the network.
fn touches(ops: &[Op], place: usize, net: u32) -> bool
    requires first { 0 < place }
    requires last { place ≤ length ops.now }
    ensures { result ≡ spec.touches ops.now place net }
{
    is_own(ops, place, net) || ends_at(ops, place, net)
}

/// The greatest place up to `count` whose operation touches the network, or 0.
#[tactic(auto, using(crate::proofs::Touched::touched_here, crate::proofs::Touched::touched_earlier))]
pub(crate) fn touched_in(ops: &[Op], count: u32, net: u32) -> u32
    requires { count ≤ length ops.now }
    ensures { result ≡ spec.touched ops.now count net }
{
    let mut place = count;
    while place > 0 {
        if touches(ops, place as usize, net) {
            return place;
        }
        place -= 1;
    }
    0
}
