//! The queues of all nodes.
ghost use Rattle.std.specs.Prelude.{◌≡◌, ℕ, ◌+◌, ◌^◌, ◌<◌, ◌≤◌, ◌↔◌, nat_le, List, [], length, IsTrue, IsErr, IfOk, OnOk, OnErr, Some, replicate, slice_get, slice_set, slice_index, if◌then◌else◌};
ghost use Rattle.std.specs.List.{All};
ghost use Rattle.and_events.specs.Flow.{queue_at, pushed, popped};
ghost use Rattle.and_events.specs.Places.{queue_count, capacity_at, IsSmall};
ghost use Rattle.and_kept.specs.Lanes.{queue_of, grown, shrunk, parcels_at, with_parcel, without_first, AreEmpty};

use crate::count::{count_queues, one_if};
use and_events::Settings;
use and_parcel::{Parcel, ParcelQueue};
use and_policy::NoMemory;
use std::alloc::Global;
use std::marker::Model;

/// The queues of all nodes, by place. Contracts see them as the numbers of their packets, their parcels and their
/// capacities.
#[derive(Drop)]
pub struct Queues {
    items: Vec<ParcelQueue>,
    occupied: usize,
}

impl Model for Queues {
    ghost use Rattle.and_kept.specs.Lanes.{Lanes, lanes_of, IsCounted};

    ghost Value = { Lanes };

    ghost view = { λ q. lanes_of q.items.items };

    ghost invariant = { λ q. IsCounted q.items.items q.occupied };
}

impl Queues {
    /// Empty queues with the capacities of the settings. All memory is taken here.
    pub fn make(alloc: Global, settings: Settings) -> Result<Queues, NoMemory>
        requires { IsSmall settings }
        ensures numbers { IfOk result (λ queues. queues.numbers ≡ replicate (queue_count settings) []) }
        ensures parcels { IfOk result (λ queues. queues.parcels ≡ replicate (queue_count settings) []) }
        ensures capacities { IfOk result (λ queues. (q : ℕ) → q < queue_count settings → slice_index queues.capacities q ≡ capacity_at settings q) }
    {
        let items = make_queues(alloc, settings)?;
        Ok(Queues { items, occupied: 0 })
    }

    /// Whether the queue is empty.
    pub fn is_empty(&self, queue: usize) -> bool
        requires { queue < length self.now.numbers }
        ensures { IsTrue result ↔ (queue_at self.now.numbers queue ≡ []) }
    {
        let entry = &self.items[queue];
        entry.is_empty()
    }

    /// Whether all queues are empty.
    pub fn are_empty(&self) -> bool
        ensures { IsTrue result ↔ All (λ q. q ≡ []) self.now.numbers }
    {
        self.occupied == 0
    }

    /// Puts the parcel at the end of the queue, or drops it where the queue is full, and says whether that is so.
    pub fn push(&mut self, queue: usize, parcel: Parcel) -> bool
        requires { queue < length self.old.numbers }
        ensures full { result ≡ nat_le (slice_index self.old.capacities queue) (length (queue_at self.old.numbers queue)) }
        ensures numbers { self.new.numbers ≡ (if result then self.old.numbers else pushed self.old.numbers queue parcel.packet) }
        ensures parcels { self.new.parcels ≡ (if result then self.old.parcels else with_parcel self.old.parcels queue parcel) }
        ensures capacities { self.new.capacities ≡ self.old.capacities }
    {
        let was_empty = is_empty_at(&self.items, queue);
        let full = push_at(&mut self.items, queue, parcel);
        if full {
            return true;
        }
        self.occupied += one_if(was_empty);
        false
    }

    /// Takes the first parcel of the queue.
    pub fn pop(&mut self, queue: usize) -> Parcel
        requires queue { queue < length self.old.numbers }
        requires some { 0 < length (queue_at self.old.numbers queue) }
        ensures number { slice_get (queue_at self.old.numbers queue) 0 ≡ Some result.packet }
        ensures parcel { slice_get (parcels_at self.old.parcels queue) 0 ≡ Some result }
        ensures numbers { self.new.numbers ≡ popped self.old.numbers queue }
        ensures parcels { self.new.parcels ≡ without_first self.old.parcels queue }
        ensures capacities { self.new.capacities ≡ self.old.capacities }
    {
        let parcel = pop_at(&mut self.items, queue);
        let now_empty = is_empty_at(&self.items, queue);
        self.occupied -= one_if(now_empty);
        parcel
    }
}

// The capacity of the queue at a place.
fn capacity_of(settings: Settings, queue: u32) -> u32
    requires { IsSmall settings }
    ensures { result ≡ capacity_at settings queue }
{
    if queue < settings.hosts {
        settings.out_queue
    } else if queue < 2 * settings.hosts {
        settings.seal_queue
    } else {
        settings.wire_queue
    }
}

// Empty queues, each with its capacity.
fn make_queues(alloc: Global, settings: Settings) -> Result<Vec<ParcelQueue>, NoMemory>
    requires { IsSmall settings }
    ensures { IfOk result (λ queues. AreEmpty settings (queue_count settings) queues.items) }
{
    let mut queues: Vec<ParcelQueue> = Vec::new(alloc);
    let count = count_queues(settings);
    for place in 0..count {
        let capacity = capacity_of(settings, place);
        let queue = ParcelQueue::make(alloc, capacity)?;
        if queues.push(queue).is_err() {
            return Err(NoMemory);
        }
    }
    Ok(queues)
}

// Whether the queue at a place is empty.
fn is_empty_at(queues: &[ParcelQueue], queue: usize) -> bool
    requires { queue < length queues.now }
    ensures { IsTrue result ↔ ((queue_of queues.now queue).parcels ≡ []) }
{
    let entry = &queues[queue];
    entry.is_empty()
}

// Puts a parcel at the end of the queue at a place, or drops it where that queue is full, and says whether that is so.
fn push_at(queues: &mut Vec<ParcelQueue>, queue: usize, parcel: Parcel) -> bool
    requires { queue < length queues.old.items }
    ensures full { let q = queue_of queues.old.items queue in IsTrue result ↔ (length q.parcels ≡ q.capacity) }
    ensures queues { let q = queue_of queues.old.items queue in
        queues.new.items ≡ (if result then queues.old.items else slice_set queues.old.items queue (grown q parcel)) }
{
    let entry = &mut queues[queue];
    match entry.push(parcel) {
        Ok(()) => false,
        Err(_) => true,
    }
}

// Takes the first parcel of the queue at a place.
fn pop_at(queues: &mut Vec<ParcelQueue>, queue: usize) -> Parcel
    requires queue { queue < length queues.old.items }
    requires some { 0 < length (queue_of queues.old.items queue).parcels }
    ensures parcel { slice_get (queue_of queues.old.items queue).parcels 0 ≡ Some result }
    ensures queue { queues.new.items ≡ slice_set queues.old.items queue (shrunk (queue_of queues.old.items queue)) }
{
    let entry = &mut queues[queue];
    match entry.pop() {
        Some(parcel) => parcel,
        None => unreachable!(),
    }
}
