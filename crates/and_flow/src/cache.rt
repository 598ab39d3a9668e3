//! The cache, by groups of flows of one hash.
ghost use Rattle.std.specs.Prelude.{◌≡◌, ◌<◌, slice_set, slice_index_or, [], IfOk, length};
ghost use Rattle.std.specs.List.{find};
ghost use Rattle.and_policy.specs.Caches as caches;
ghost use Rattle.and_flow.specs.Groups.{tag_of};

use crate::group::Group;
use and_policy::{Cached, FlowKey, NoMemory, Outcome, flow_hash};
use std::alloc::Global;
use std::marker::Model;

/// The flow cache of a worker: 64 groups of at most 16 entries each. Contracts see its groups, each with its oldest entry first.
#[derive(Drop)]
pub struct FlowCache {
    groups: Vec<Group>,
}

impl Model for FlowCache {
    ghost use Rattle.std.specs.Prelude.{◌≡◌, length};
    ghost use Rattle.and_policy.specs.Caches.{Cache};

    ghost Value = { Cache };

    ghost view = { λ c. c.groups.items };

    ghost invariant = { λ c. length c.groups.items ≡ 64 };
}

// The group of a key and its tag in the group, both of its flow hash.
#[tactic(auto, unfolding(crate::specs::Groups::tag_of))]
fn group_of(key: &FlowKey) -> (usize, u8)
    ensures group { result.0 ≡ caches.group_of key.now }
    ensures bound { result.0 < 64 }
    ensures tag { result.1 ≡ tag_of key.now }
{
    let hash = flow_hash(&key.tuple);
    (hash as usize % 64, (hash / 64 % 256) as u8)
}

// What a group answers.
fn look_at(groups: &[Group], at: usize, tag: u8, key: &FlowKey, floor: u32) -> Option<Outcome>
    requires at { at < length groups.now }
    requires tag { tag ≡ tag_of key.now }
    ensures { result ≡ caches.answer floor (find (λ x. caches.same_key x.key key.now) (slice_index_or groups.now at [])) }
{
    let group = &groups[at];
    group.look(tag, key, floor)
}

// Puts an entry into a group.
fn put_at(groups: &mut Vec<Group>, at: usize, tag: u8, new: Cached)
    requires at { at < length groups.old.items }
    requires tag { tag ≡ tag_of new.key }
    ensures { groups.new.items ≡ slice_set groups.old.items at (caches.put_in (slice_index_or groups.old.items at []) new) }
{
    groups[at].put(tag, new);
}

#[tactic(auto, unfolding(and_policy::specs::Caches::put, and_policy::specs::Caches::look))]
impl FlowCache {
    /// An empty cache, with all the memory that it will ever use. Want of memory is the only error.
    pub fn make(alloc: Global) -> Result<FlowCache, NoMemory>
        ensures { IfOk result (λ c. c ≡ caches.empty) }
    {
        let mut groups = Vec::with_capacity(alloc, 64).map_err(|_| NoMemory)?;
        for _group in 0..64_u32 {
            groups.push(Group::make(alloc)?).map_err(|_| NoMemory)?;
        }
        Ok(FlowCache { groups })
    }

    /// The outcome of the key's entry, where it has one and its stamp is at least the floor: an entry that was put before so many operations
    /// does not answer. Takes no memory.
    pub fn look(&self, key: &FlowKey, floor: u32) -> Option<Outcome>
        ensures { result ≡ caches.look self.now key.now floor }
    {
        let (at, tag) = group_of(key);
        look_at(&self.groups, at, tag, key, floor)
    }

    /// Puts an outcome that stands on so many operations (`stamp`). The key's old entry goes, and the oldest of the group where there are then
    /// 17. Takes no memory.
    pub fn put(&mut self, key: &FlowKey, stamp: u32, outcome: Outcome)
        ensures { self.new ≡ caches.put self.old (record { key = key.now; stamp = stamp; outcome = outcome }) }
    {
        let new = Cached {
            key: *key,
            stamp,
            outcome,
        };
        let (at, tag) = group_of(key);
        put_at(&mut self.groups, at, tag, new);
    }
}
