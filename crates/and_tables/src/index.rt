//! What is looked up.
ghost use Rattle.std.specs.Prelude.{◌≡◌, ◌<◌, ◌+◌, ◌==◌, ◌&&◌, ◌++◌, ◌∷◌, [], ℕ, List, length, if◌then◌else◌, OnOk};
ghost use Rattle.and_policy.specs.declared.entry.Order.{Order};
ghost use Rattle.and_policy.specs.Programmes as programmes;
ghost use Rattle.and_tables.specs.Chains.{IsChain};
ghost use Rattle.and_tables.specs.Kept.{AreChained};
ghost use Rattle.and_tables.specs.Indexes.{IsSameIndex, HasLinks, HasOwnLinks, HasRoom};
ghost use Rattle.and_tables.specs.Numbers.{at, at_pair};
ghost use Rattle.and_tables.specs.Orders.{any_alive, hits};
ghost use Rattle.and_tables.specs.Steps as step;

use crate::chain::Chain;
use crate::maps::{last, put_of};
use crate::orders::touch_ended;
use crate::steps::{enter, own};
use and_policy::{Entry, NoMemory, Op};
use std::alloc::Global;
use std::collections::HashMap;

/// Places by keys.
#[derive(Drop)]
pub struct Index {
    /// By network: the place of its last entry.
    pub(crate) entered: HashMap<u32, u32>,
    /// By source network and address: the place of the last order.
    pub(crate) ordered: HashMap<(u32, u32), u32>,
    /// By network: the place of the last operation that touched it.
    pub(crate) touched: HashMap<u32, u32>,
    /// The orders by destination network.
    pub(crate) into: Chain,
    /// The orders by the number of ticks at which they are over.
    pub(crate) until: Chain,
}

impl Index {
    /// The look-ups of no operations.
    pub(crate) fn new(alloc: Global) -> Index
        ensures entered { (net : ℕ) → at result.entered net ≡ 0 }
        ensures ordered { (net ip : ℕ) → at_pair result.ordered net ip ≡ 0 }
        ensures touched { (net : ℕ) → at result.touched net ≡ 0 }
        ensures chained { AreChained [] result }
    {
        Index {
            entered: HashMap::new(alloc),
            ordered: HashMap::new(alloc),
            touched: HashMap::new(alloc),
            into: Chain::new(alloc),
            until: Chain::new(alloc),
        }
    }

    // Makes room for one order more.
    fn room_for_order(&mut self) -> Result<(), NoMemory>
        ensures entered { self.new.entered ≡ self.old.entered }
        ensures touched { self.new.touched ≡ self.old.touched }
        ensures same { IsSameIndex self.old self.new }
        ensures ok { OnOk result (HasLinks self.new) }
    {
        self.ordered.reserve(1).map_err(|_| NoMemory)?;
        self.into.room()?;
        self.until.room()
    }

    /// Makes room for the operation.
    pub(crate) fn room(&mut self, op: &Op) -> Result<(), NoMemory>
        ensures same { IsSameIndex self.old self.new }
        ensures ok { OnOk result (HasRoom op.now self.new) }
    {
        self.entered.reserve(1).map_err(|_| NoMemory)?;
        self.touched.reserve(1).map_err(|_| NoMemory)?;
        match op {
            Op::Entry(_) => Ok(()),
            Op::Offload(_) => self.room_for_order(),
        }
    }

    // Writes the place `here` at the source network of each live order into the network.
    fn touch_into(&mut self, ops: &[Op], name: Option<u32>, ticks: u32, here: u32)
        requires chained { AreChained ops.now self.old }
        requires here { 0 < here }
        ensures entered { self.new.entered ≡ self.old.entered }
        ensures ordered { self.new.ordered ≡ self.old.ordered }
        ensures into { self.new.into ≡ self.old.into }
        ensures until { self.new.until ≡ self.old.until }
        ensures touched { (net : ℕ) → at self.new.touched net
            ≡ (if any_alive ops.now ticks (at self.old.entered) (at_pair self.old.ordered) (λ o. programmes.is_net name o.to_net && (o.net == net)) then here else at self.old.touched net) }
    {
        let Some(net) = name else {
            return;
        };
        let first = self.into.last(net);
        if first.number == 0 {
            return;
        }
        let floor = last(&self.entered, net);
        touch_ended(
            ops,
            ticks,
            &self.entered,
            &self.ordered,
            &self.into,
            first,
            floor,
            here,
            &mut self.touched,
        );
    }

    // Writes the place `here` at the source network of each live order that is over at `now` ticks.
    fn touch_over(&mut self, ops: &[Op], ticks: u32, now: u32, here: u32)
        requires chained { AreChained ops.now self.old }
        requires here { 0 < here }
        ensures entered { self.new.entered ≡ self.old.entered }
        ensures ordered { self.new.ordered ≡ self.old.ordered }
        ensures into { self.new.into ≡ self.old.into }
        ensures until { self.new.until ≡ self.old.until }
        ensures touched { (net : ℕ) → at self.new.touched net
            ≡ (if any_alive ops.now ticks (at self.old.entered) (at_pair self.old.ordered) (λ o. (o.until == now) && (o.net == net)) then here else at self.old.touched net) }
    {
        touch_ended(
            ops,
            ticks,
            &self.entered,
            &self.ordered,
            &self.until,
            self.until.last(now),
            0,
            here,
            &mut self.touched,
        );
    }

    // Writes the place `here` at the source network of each live order that the operation ends. An order that it renews has its own network.
    fn touch(&mut self, ops: &[Op], name: Option<u32>, op: &Op, ticks: u32, now: u32, here: u32)
        requires chained { AreChained ops.now self.old }
        requires here { 0 < here }
        ensures entered { self.new.entered ≡ self.old.entered }
        ensures ordered { self.new.ordered ≡ self.old.ordered }
        ensures into { self.new.into ≡ self.old.into }
        ensures until { self.new.until ≡ self.old.until }
        ensures touched { (net : ℕ) → at self.new.touched net
            ≡ (if any_alive ops.now ticks (at self.old.entered) (at_pair self.old.ordered) (λ o. hits name op.now now o && (o.net == net)) then here else at self.old.touched net) }
    {
        match op {
            Op::Offload(_) => {}
            Op::Entry(entry) => match entry {
                Entry::Tick => self.touch_over(ops, ticks, now, here),
                _ => self.touch_into(ops, name, ticks, here),
            },
        }
    }

    // Where the operation stands, if it is an order.
    fn link(&mut self, op: &Op, here: u32)
        requires room { HasOwnLinks op.now self.old }
        requires into { length self.old.into.before.items < here }
        requires until { length self.old.until.before.items < here }
        ensures entered { self.new.entered ≡ self.old.entered }
        ensures touched { self.new.touched ≡ self.old.touched }
        ensures ordered { (net ip : ℕ) → at_pair self.new.ordered net ip ≡ (if programmes.orders_for net ip op.now then here else at_pair self.old.ordered net ip) }
        ensures into { (p : List Op) → here ≡ length p + 1 → IsChain (λ (o : Order). o.to_net) p self.old.into → IsChain (λ (o : Order). o.to_net) (p ++ op.now ∷ []) self.new.into }
        ensures until { (p : List Op) → here ≡ length p + 1 → IsChain (λ (o : Order). o.until) p self.old.until → IsChain (λ (o : Order). o.until) (p ++ op.now ∷ []) self.new.until }
    {
        match op {
            Op::Entry(_) => {}
            Op::Offload(order) => {
                put_of(&mut self.ordered, order.net, order.ip, here);
                self.into.push(order.to_net, here);
                self.until.push(order.until, here);
            }
        }
    }

    /// One operation more, which stands at the place `here` after the others and names this network. There were so many ticks before it, and are
    /// `now`.
    pub(crate) fn apply(
        &mut self,
        ops: &[Op],
        name: Option<u32>,
        op: &Op,
        ticks: u32,
        now: u32,
        here: u32,
    )
        requires room { HasRoom op.now self.old }
        requires chained { AreChained ops.now self.old }
        requires here { here ≡ length ops.now + 1 }
        ensures entered { (net : ℕ) → at self.new.entered net ≡ (if programmes.is_net name net then here else at self.old.entered net) }
        ensures ordered { (net ip : ℕ) → at_pair self.new.ordered net ip ≡ (if programmes.orders_for net ip op.now then here else at_pair self.old.ordered net ip) }
        ensures touched { (net : ℕ) → at self.new.touched net
            ≡ (if any_alive ops.now ticks (at self.old.entered) (at_pair self.old.ordered) (λ o. hits name op.now now o && (o.net == net)) then here
            else (if programmes.is_net (step.own name op.now) net then here else at self.old.touched net)) }
        ensures chained { AreChained (ops.now ++ op.now ∷ []) self.new }
    {
        enter(&mut self.touched, own(name, op), here);
        self.touch(ops, name, op, ticks, now, here);
        enter(&mut self.entered, name, here);
        self.link(op, here);
    }
}
