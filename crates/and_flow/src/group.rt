//! One group of a flow cache.
ghost use Rattle.std.specs.Prelude.{◌≡◌, ◌+◌, ◌<◌, ◌≤◌, ◌∷◌, ◌++◌, [], length, take, drop, slice_index_or, Some, None, IfOk, MatchOption};
ghost use Rattle.std.specs.Vec.{vec_capacity};
ghost use Rattle.and_policy.specs.Matching.{is_side};
ghost use Rattle.std.specs.List.{find, remove};
ghost use Rattle.and_policy.specs.Caches as caches;
ghost use Rattle.and_policy.specs.declared.cached.Cached.{Cached};
ghost use Rattle.and_flow.specs.Groups.{tag_of, tags_of, KeysOnce};

use and_policy::{Cached, FlowKey, NoMemory, Outcome, Side, Tuple};
use std::alloc::Global;
use std::marker::Model;

/// The entries of a group, at most 16, the oldest first. It has their memory from the start.
#[derive(Drop)]
pub struct Group {
    items: Vec<Cached>,
    // A byte of each entry's flow hash, so that a look reads few of the entries.
    tags: Vec<u8>,
}

impl Model for Group {
    ghost use Rattle.std.specs.Prelude.{List, ◌≡◌, ◌≤◌, length};
    ghost use Rattle.std.specs.Vec.{vec_capacity};
    ghost use Rattle.and_policy.specs.declared.cached.Cached.{Cached};
    ghost use Rattle.and_flow.specs.Groups.{tags_of, KeysOnce};

    ghost Value = { List Cached };

    ghost view = { λ g. g.items.items };

    ghost invariant = { λ g. (length g.items.items ≤ 16) × (16 ≤ vec_capacity g.items) × (16 ≤ vec_capacity g.tags) × (g.tags.items ≡ tags_of g.items.items) × KeysOnce g.items.items };
}

// Whether the sides are the same.
fn same_side(a: Side, b: Side) -> bool
    ensures { result ≡ is_side a b }
{
    match (a, b) {
        (Side::Egress, Side::Egress) | (Side::Ingress, Side::Ingress) => true,
        _ => false,
    }
}

// Whether the tuples are the same.
fn same_tuple(a: &Tuple, b: &Tuple) -> bool
    ensures { result ≡ caches.same_tuple a.now b.now }
{
    a.protocol == b.protocol
        && a.source == b.source
        && a.destination == b.destination
        && a.source_port == b.source_port
        && a.destination_port == b.destination_port
}

// Whether the keys are the same.
fn same_key(a: &FlowKey, b: &FlowKey) -> bool
    ensures { result ≡ caches.same_key a.now b.now }
{
    same_side(a.side, b.side) && a.scope == b.scope && same_tuple(&a.tuple, &b.tuple)
}

// Whether the entry at this place is the key's.
fn is_at(tags: &[u8], items: &[Cached], at: usize, tag: u8, key: &FlowKey) -> bool
    requires at { at < length items.now }
    requires tags { tags.now ≡ tags_of items.now }
    requires tag { tag ≡ tag_of key.now }
    ensures { (d : Cached) → result ≡ caches.same_key (slice_index_or items.now at d).key key.now }
{
    tags[at] == tag && same_key(&items[at].key, key)
}

// The place of the first entry of the key.
fn place_of(tags: &[u8], items: &[Cached], tag: u8, key: &FlowKey) -> Option<usize>
    requires tags { tags.now ≡ tags_of items.now }
    requires tag { tag ≡ tag_of key.now }
    ensures { MatchOption result (find (λ x. caches.same_key x.key key.now) items.now ≡ None) (λ at.
        (at < length items.now) × ((d : Cached) → find (λ x. caches.same_key x.key key.now) items.now ≡ Some (slice_index_or items.now at d))) }
{
    for at in 0..items.len() {
        if is_at(tags, items, at, tag, key) {
            return Some(at);
        }
    }
    None
}

// What `Vec::remove` does, which is made for longer lists and costs more at 16.
fn remove_at<T: Copy>(list: &mut Vec<T>, at: usize)
    requires { at < length list.old.items }
    ensures items { list.new.items ≡ remove list.old.items at }
    ensures capacity { vec_capacity list.new ≡ vec_capacity list.old }
{
    let last = list.len() - 1;
    move_down(list, at, last);
    list.pop();
}

// Moves the items after this place down by one, over the one there. The last stays in its old place too.
fn move_down<T: Copy>(list: &mut [T], at: usize, last: usize)
    requires { (at ≤ last) × (last + 1 ≡ length list.old) }
    ensures { list.new ≡ take last (remove list.old at) ++ drop last list.old }
{
    for to in at..last {
        list[to] = list[to + 1];
    }
}

// Takes the entry of the key out.
fn take_out(tags: &mut Vec<u8>, items: &mut Vec<Cached>, tag: u8, key: &FlowKey)
    requires tags { tags.old.items ≡ tags_of items.old.items }
    requires tag { tag ≡ tag_of key.now }
    requires once { KeysOnce items.old.items }
    ensures items { items.new.items ≡ caches.without key.now items.old.items }
    ensures tags { tags.new.items ≡ tags_of items.new.items }
    ensures len { length items.new.items ≤ length items.old.items }
    ensures capacity { vec_capacity items.new ≡ vec_capacity items.old }
    ensures capacity_of_tags { vec_capacity tags.new ≡ vec_capacity tags.old }
{
    if let Some(at) = place_of(tags, items, tag, key) {
        remove_at(tags, at);
        remove_at(items, at);
    }
}

// Adds the newest, in the place of the oldest where there are 16.
fn add(tags: &mut Vec<u8>, items: &mut Vec<Cached>, tag: u8, new: Cached)
    requires tags { tags.old.items ≡ tags_of items.old.items }
    requires tag { tag ≡ tag_of new.key }
    requires few { length items.old.items ≤ 16 }
    requires capacity { 16 ≤ vec_capacity items.old }
    requires capacity_of_tags { 16 ≤ vec_capacity tags.old }
    ensures items { items.new.items ≡ caches.at_most_16 (items.old.items ++ new ∷ []) }
    ensures tags { tags.new.items ≡ tags_of items.new.items }
    ensures few { length items.new.items ≤ 16 }
    ensures capacity { vec_capacity items.new ≡ vec_capacity items.old }
    ensures capacity_of_tags { vec_capacity tags.new ≡ vec_capacity tags.old }
{
    if items.len() >= 16 {
        remove_at(tags, 0);
        remove_at(items, 0);
    }
    tags.push_reserved(tag);
    items.push_reserved(new);
}

impl Group {
    /// No entries.
    pub(crate) fn make(alloc: Global) -> Result<Group, NoMemory>
        ensures { IfOk result (λ g. g ≡ []) }
    {
        let items = Vec::with_capacity(alloc, 16).map_err(|_| NoMemory)?;
        let tags = Vec::with_capacity(alloc, 16).map_err(|_| NoMemory)?;
        Ok(Group { items, tags })
    }

    /// The outcome of the key, where its stamp is at least the floor.
    pub(crate) fn look(&self, tag: u8, key: &FlowKey, floor: u32) -> Option<Outcome>
        requires tag { tag ≡ tag_of key.now }
        ensures { result ≡ caches.answer floor (find (λ x. caches.same_key x.key key.now) self.now) }
    {
        let at = place_of(&self.tags, &self.items, tag, key)?;
        answer(floor, &self.items[at])
    }

    /// Puts an entry.
    pub(crate) fn put(&mut self, tag: u8, new: Cached)
        requires tag { tag ≡ tag_of new.key }
        ensures { self.new ≡ caches.put_in self.old new }
    {
        take_out(&mut self.tags, &mut self.items, tag, &new.key);
        add(&mut self.tags, &mut self.items, tag, new);
    }
}

// The outcome of an entry whose stamp is not below the floor.
fn answer(floor: u32, item: &Cached) -> Option<Outcome>
    ensures { result ≡ caches.answer floor (Some item.now) }
{
    if floor <= item.stamp {
        Some(item.outcome)
    } else {
        None
    }
}
