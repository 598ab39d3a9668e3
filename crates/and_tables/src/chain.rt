//! Chains of orders with the same key: from the last one to the one before it, and so on.
ghost use Rattle.std.specs.Prelude.{◌≡◌, ◌<◌, ◌+◌, ◌==◌, ◌++◌, ◌∷◌, [], ℕ, List, length, if◌then◌else◌, OnOk};
ghost use Rattle.std.specs.HashMap as hash;
ghost use Rattle.and_policy.specs.declared.entry.Op.{Op};
ghost use Rattle.and_policy.specs.declared.entry.Op.TheVariants as ops;
ghost use Rattle.and_policy.specs.declared.entry.Order.{Order};
ghost use Rattle.and_tables.specs.Chains.{IsChain, IsLinked, IsSameChain, before, link_at};
ghost use Rattle.and_tables.specs.Indexes.{HasLink};

use and_policy::NoMemory;
use std::alloc::Global;
use std::collections::HashMap;

/// Where an order stands.
#[derive(Clone, Copy)]
pub struct Link {
    /// Its place among the operations, from 1; 0 where there is no order.
    pub(crate) place: u32,
    /// Its number among the orders, from 1; 0 where there is no order.
    pub(crate) number: u32,
}

/// No order.
const NOWHERE: Link = Link {
    place: 0,
    number: 0,
};

/// The orders by a key that each has. Operations that are no orders take no room.
#[derive(Drop)]
pub struct Chain {
    /// By key: the last order.
    pub(crate) last: HashMap<u32, Link>,
    /// For each order: the order before it with the same key.
    pub(crate) before: Vec<Link>,
}

// The link at the key.
fn link_of(map: &HashMap<u32, Link>, key: u32) -> Link
    ensures { result ≡ link_at map.now key }
{
    map.get(&key).copied().unwrap_or(NOWHERE)
}

// Puts the link at the key, for which there is room.
fn put_link(map: &mut HashMap<u32, Link>, key: u32, link: Link)
    requires { 0 < hash.spare map.old }
    ensures { (q : ℕ) → link_at map.new q ≡ (if key == q then link else link_at map.old q) }
{
    let put: Result<_, _> = map.insert(key, link);
    let _ = put.unwrap();
}

impl Chain {
    /// The chains of no operations.
    pub(crate) fn new(alloc: Global) -> Chain
        ensures { (by : Order → ℕ) → IsChain by [] result }
    {
        Chain {
            last: HashMap::new(alloc),
            before: Vec::new(alloc),
        }
    }

    /// Makes room for one order more.
    pub(crate) fn room(&mut self) -> Result<(), NoMemory>
        ensures same { IsSameChain self.old self.new }
        ensures ok { OnOk result (HasLink self.new) }
    {
        self.last.reserve(1).map_err(|_| NoMemory)?;
        self.before.reserve(1).map_err(|_| NoMemory)?;
        Ok(())
    }

    /// One operation more, an order with this key, which stands at this place.
    pub(crate) fn push(&mut self, key: u32, place: u32)
        requires room { HasLink self.old }
        requires few { length self.old.before.items < place }
        ensures { (by : Order → ℕ) (p : List Op) (order : Order) → IsChain by p self.old → by order ≡ key → place ≡ length p + 1
            → IsChain by (p ++ ops.Offload order ∷ []) self.new }
    {
        self.before.push_reserved(link_of(&self.last, key));
        let number = self.before.len() as u32;
        put_link(&mut self.last, key, Link { place, number });
    }

    /// The last order with this key.
    pub(crate) fn last(&self, key: u32) -> Link
        ensures { result ≡ link_at self.now.last key }
    {
        link_of(&self.last, key)
    }

    /// The order before this one, with the same key.
    pub(crate) fn before(&self, link: Link) -> Link
        requires linked { IsLinked self.now }
        requires some { 0 < link.number }
        ensures before { result ≡ before self.now link.number }
        ensures smaller { result.number < link.number }
    {
        let index = link.number as usize - 1;
        self.before.get(index).copied().unwrap_or(NOWHERE)
    }
}
