//! The orders among the operations, by their places, which count from 1.
ghost use Rattle.std.specs.Prelude.{◌≡◌, ◌<◌, ◌&&◌, ◌==◌, ℕ, if◌then◌else◌};
ghost use Rattle.and_policy.specs.declared.entry.Order.{Order};
ghost use Rattle.and_tables.specs.Chains.{IsChain, IsLinked, link_at};
ghost use Rattle.and_tables.specs.Numbers.{at, at_pair};
ghost use Rattle.and_tables.specs.Orders as orders;
ghost use Rattle.and_tables.specs.Orders.{AreTouched, IsNoneBelow};

use crate::chain::{Chain, Link};
use crate::maps::{change, last, last_of};
use and_policy::{Op, Order};
use std::collections::HashMap;

// The order that is the operation at this place.
fn order_at(ops: &[Op], place: u32) -> Option<Order>
    ensures { result ≡ orders.order_at ops.now place }
{
    if place == 0 {
        return None;
    }
    match ops.get(place as usize - 1) {
        Some(Op::Offload(order)) => Some(*order),
        _ => None,
    }
}

// Whether the order at this place lives, at this many ticks, where none for the same comes later.
fn lives(ticks: u32, entered: &HashMap<u32, u32>, place: u32, order: &Order) -> bool
    ensures { result ≡ orders.lives_at ticks (at entered.now) place order.now }
{
    place >= last(entered, order.net) && place >= last(entered, order.to_net) && ticks < order.until
}

/// The order at this place, where it lives and none for the same comes later.
pub(crate) fn live_at(
    ops: &[Op],
    ticks: u32,
    entered: &HashMap<u32, u32>,
    place: u32,
) -> Option<Order>
    ensures { result ≡ orders.live_at ops.now ticks (at entered.now) place }
{
    match order_at(ops, place) {
        Some(order) if lives(ticks, entered, place, &order) => Some(order),
        _ => None,
    }
}

// The order at this place, where it lives.
fn alive_at(
    ops: &[Op],
    ticks: u32,
    entered: &HashMap<u32, u32>,
    ordered: &HashMap<(u32, u32), u32>,
    place: u32,
) -> Option<Order>
    ensures { result ≡ orders.alive_at ops.now ticks (at entered.now) (at_pair ordered.now) place }
{
    match order_at(ops, place) {
        Some(order)
            if last_of(ordered, order.net, order.ip) == place
                && lives(ticks, entered, place, &order) => Some(order),
        _ => None,
    }
}

/// Writes the place `here` at the source network of each live order of the chain that ends with `last`, but for those before `floor`, where none lives.
pub(crate) fn touch_ended(
    ops: &[Op],
    ticks: u32,
    entered: &HashMap<u32, u32>,
    ordered: &HashMap<(u32, u32), u32>,
    chain: &Chain,
    last: Link,
    floor: u32,
    here: u32,
    touched: &mut HashMap<u32, u32>,
)
    requires linked { IsLinked chain.now }
    requires touched { AreTouched ops.now (at touched.old) }
    requires here { 0 < here }
    ensures { (by : Order → ℕ) (key : ℕ) → last ≡ link_at chain.now.last key → IsChain by ops.now chain.now → IsNoneBelow by ops.now ticks (at entered.now) (at_pair ordered.now) key floor → (net : ℕ)
        → at touched.new net ≡ (if orders.any_alive ops.now ticks (at entered.now) (at_pair ordered.now) (λ o. (by o == key) && (o.net == net)) then here else at touched.old net) }
{
    let mut link = last;
    while link.number > 0 && link.place >= floor {
        if let Some(order) = alive_at(ops, ticks, entered, ordered, link.place) {
            change(touched, order.net, here);
        }
        link = chain.before(link);
    }
}
