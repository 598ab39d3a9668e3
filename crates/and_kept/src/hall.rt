//! Queues and hands, and which hands have work.
ghost use Rattle.std.specs.Prelude.{◌≡◌, ◌<◌, ◌^◌, ◌↔◌, nat_le, [], length, IsTrue, IfOk, Some, None, true, false, replicate, slice_get, slice_set, if◌then◌else◌};
ghost use Rattle.std.specs.List.{All};
ghost use Rattle.and_events.specs.Flow.{hand_at, queue_at, pushed, popped};
ghost use Rattle.and_events.specs.Places.{node_count, queue_count, hand_count, capacity_at, IsSmall};
ghost use Rattle.and_kept.specs.Busy as spec;
ghost use Rattle.and_kept.specs.Lanes.{parcels_at, with_parcel, without_first};
ghost use Rattle.and_kept.specs.Numbers.{count_below};

use crate::busy::{hands_at, refresh, takers};
use crate::count::{count_hands, count_nodes, no_marks};
use crate::hands::Hands;
use crate::numbers::NumberSet;
use crate::queues::Queues;
use and_events::{Held, Queue, Settings};
use and_parcel::Parcel;
use and_policy::NoMemory;
use std::alloc::Global;
use std::marker::Model;

/// Queues and hands by their places, whether forwarding is held at the nodes, and the set of the hands that have work,
/// which is kept where one of these changes.
#[derive(Drop)]
pub(crate) struct Hall {
    settings: Settings,
    queues: Queues,
    hands: Hands,
    held: Vec<bool>,
    busy: NumberSet,
}

impl Model for Hall {
    ghost use Rattle.and_kept.specs.Busy.{HallView, IsHall};

    ghost Value = { HallView };

    ghost view = { λ h. record { settings = h.settings; queues = h.queues.numbers; parcels = h.queues.parcels; hands = h.hands; held = h.held.items } };

    ghost invariant = { λ h. IsHall h.settings h.queues h.hands h.held.items h.busy };
}

impl Hall {
    /// Empty queues and hands, and nothing held. All memory is taken here.
    pub(crate) fn make(alloc: Global, settings: Settings) -> Result<Hall, NoMemory>
        requires { IsSmall settings }
        ensures { IfOk result (λ h. h ≡ record {
          settings = settings;
          queues = replicate (queue_count settings) [];
          parcels = replicate (queue_count settings) [];
          hands = replicate (hand_count settings) None;
          held = replicate (node_count settings) false;
        }) }
    {
        let queues = Queues::make(alloc, settings)?;
        let nodes = count_nodes(settings);
        let count = count_hands(settings);
        let hands = Hands::make(alloc, count as usize)?;
        let held = no_marks(alloc, nodes as usize)?;
        let mut busy = NumberSet::make(alloc, count)?;
        refresh(settings, &queues, &hands, &held, &mut busy, (0, count));
        Ok(Hall {
            settings,
            queues,
            hands,
            held,
            busy,
        })
    }

    /// The settings.
    pub(crate) fn settings(&self) -> Settings
        ensures is { result ≡ self.now.settings }
        ensures small { IsSmall result }
    {
        self.settings
    }

    /// Whether the queue is empty.
    pub(crate) fn is_empty(&self, queue: usize) -> bool
        requires { queue < queue_count self.now.settings }
        ensures { IsTrue result ↔ (queue_at self.now.queues queue ≡ []) }
    {
        self.queues.is_empty(queue)
    }

    /// Whether all queues are empty.
    pub(crate) fn all_empty(&self) -> bool
        ensures { IsTrue result ↔ All (λ q. q ≡ []) self.now.queues }
    {
        self.queues.are_empty()
    }

    /// Whether all hands are empty.
    pub(crate) fn all_free(&self) -> bool
        ensures { IsTrue result ↔ All (λ h. h ≡ None) self.now.hands }
    {
        self.hands.are_empty()
    }

    /// What is in the hand.
    pub(crate) fn hand(&self, hand: usize) -> Option<Held>
        requires { hand < hand_count self.now.settings }
        ensures { result ≡ hand_at self.now.hands hand }
    {
        self.hands.at(hand)
    }

    /// Forwarding is held at the node, or is not. Its own hands alone are looked at.
    pub(crate) fn hold(&mut self, node: usize, on: bool)
        requires { node < node_count self.old.settings }
        ensures { self.new ≡ record self.old { held = slice_set self.old.held node on } }
    {
        self.held[node] = on;
        let (workers, other) = hands_at(self.settings, node as u32);
        refresh(
            self.settings,
            &self.queues,
            &self.hands,
            &self.held,
            &mut self.busy,
            workers,
        );
        refresh(
            self.settings,
            &self.queues,
            &self.hands,
            &self.held,
            &mut self.busy,
            other,
        );
    }

    /// A parcel comes into the queue, or is lost where the queue is full. Says whether it is lost.
    pub(crate) fn enter(&mut self, queue: usize, parcel: Parcel) -> bool
        requires { queue < queue_count self.old.settings }
        ensures settings { self.new.settings ≡ self.old.settings }
        ensures full { result ≡ nat_le (capacity_at self.old.settings queue) (length (queue_at self.old.queues queue)) }
        ensures queues { self.new.queues ≡ (if result then self.old.queues else pushed self.old.queues queue parcel.packet) }
        ensures parcels { self.new.parcels ≡ (if result then self.old.parcels else with_parcel self.old.parcels queue parcel) }
        ensures hands { self.new.hands ≡ self.old.hands }
        ensures held { self.new.held ≡ self.old.held }
    {
        if self.queues.push(queue, parcel) {
            return true;
        }
        let range = takers(self.settings, queue as u32);
        refresh(
            self.settings,
            &self.queues,
            &self.hands,
            &self.held,
            &mut self.busy,
            range,
        );
        false
    }

    /// The hand lets go what it has.
    pub(crate) fn clear(&mut self, hand: usize)
        requires { hand < hand_count self.old.settings }
        ensures { self.new ≡ record self.old { hands = slice_set self.old.hands hand None } }
    {
        self.hands.clear(hand);
        refresh(
            self.settings,
            &self.queues,
            &self.hands,
            &self.held,
            &mut self.busy,
            (hand as u32, hand as u32 + 1),
        );
    }

    /// The hand takes the first parcel of a queue.
    pub(crate) fn take(
        &mut self,
        hand: usize,
        from: usize,
        need: u32,
        queue: Queue,
    ) -> (Held, Parcel)
        requires hand { hand < hand_count self.old.settings }
        requires from { from < queue_count self.old.settings }
        requires some { 0 < length (queue_at self.old.queues from) }
        ensures held { result.0 ≡ record { packet = result.1.packet; need = need; queue = queue } }
        ensures front { slice_get (queue_at self.old.queues from) 0 ≡ Some result.1.packet }
        ensures parcel { slice_get (parcels_at self.old.parcels from) 0 ≡ Some result.1 }
        ensures taken { self.new ≡ record self.old { queues = popped self.old.queues from; parcels = without_first self.old.parcels from; hands = slice_set self.old.hands hand (Some result.0) } }
    {
        let parcel = self.queues.pop(from);
        let range = takers(self.settings, from as u32);
        refresh(
            self.settings,
            &self.queues,
            &self.hands,
            &self.held,
            &mut self.busy,
            range,
        );
        let held = Held {
            packet: parcel.packet(),
            need,
            queue,
        };
        self.hands.fill(hand, held);
        refresh(
            self.settings,
            &self.queues,
            &self.hands,
            &self.held,
            &mut self.busy,
            (hand as u32, hand as u32 + 1),
        );
        (held, parcel)
    }

    /// Whether the hand has work.
    pub(crate) fn is_busy(&self, hand: u32) -> bool
        requires { hand < hand_count self.now.settings }
        ensures { result ≡ spec.is_busy self.now.settings self.now.queues self.now.hands self.now.held hand }
    {
        self.busy.has(hand)
    }

    /// How many hands have work.
    pub(crate) fn busy_count(&self) -> u32
        ensures is { result ≡ count_below (spec.is_busy self.now.settings self.now.queues self.now.hands self.now.held) (hand_count self.now.settings) }
        ensures small { result < 2 ^ 16 }
    {
        self.busy.count()
    }

    /// The place of the hand that has work, before which `k` hands have.
    pub(crate) fn nth_busy(&self, k: u32) -> u32
        requires { k < count_below (spec.is_busy self.now.settings self.now.queues self.now.hands self.now.held) (hand_count self.now.settings) }
        ensures there { result < hand_count self.now.settings }
        ensures busy { spec.is_busy self.now.settings self.now.queues self.now.hands self.now.held result ≡ true }
        ensures rank { count_below (spec.is_busy self.now.settings self.now.queues self.now.hands self.now.held) result ≡ k }
    {
        self.busy.nth(k)
    }
}
