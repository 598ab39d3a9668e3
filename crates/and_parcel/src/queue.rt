//! Queues of parcels with a capacity.
ghost use Rattle.std.specs.Prelude.{◌≡◌, ◌<◌, ◌↔◌, [], ◌∷◌, ◌++◌, length, IsTrue, IsErr, IsNone, IfOk, OnOk, IfErr, IfNone, IfSome};

use crate::parcel::Parcel;
use and_policy::NoMemory;
use std::alloc::Global;
use std::collections::VecDeque;
use std::marker::Model;

/// Parcels in the order in which they came, and never more than its capacity. Contracts see it as its capacity and the
/// list of its parcels, the oldest first.
#[derive(Debug, Drop)]
pub struct ParcelQueue {
    parcels: VecDeque<Parcel>,
    capacity: u32,
}

impl Model for ParcelQueue {
    ghost use Rattle.std.specs.Prelude.{◌≤◌, ◌<◌, ◌^◌, length};
    ghost use Rattle.std.specs.VecDeque.{deque_capacity};
    ghost use Rattle.and_parcel.specs.Parcels.{QueueView};

    ghost Value = { QueueView };

    ghost view = { λ q. record { capacity = q.capacity; parcels = q.parcels.items } };

    ghost invariant = { λ q. (length q.parcels.items ≤ q.capacity) × (q.capacity ≤ deque_capacity q.parcels) × (q.capacity < 2 ^ 32) };
}

impl ParcelQueue {
    /// An empty queue for so many parcels. It takes all its memory here.
    pub fn make(alloc: Global, capacity: u32) -> Result<ParcelQueue, NoMemory>
        ensures { IfOk result (λ queue. queue ≡ record { capacity = capacity; parcels = [] }) }
    {
        match VecDeque::with_capacity(alloc, capacity as usize) {
            Ok(parcels) => Ok(ParcelQueue { parcels, capacity }),
            Err(_) => Err(NoMemory),
        }
    }

    /// Puts a parcel at the end, or gives it back where the queue is full. Takes no memory.
    pub fn push(&mut self, parcel: Parcel) -> Result<(), Parcel>
        ensures full { IsErr result ↔ (length self.old.parcels ≡ self.old.capacity) }
        ensures ok { OnOk result (self.new ≡ record self.old { parcels = self.old.parcels ++ parcel ∷ [] }) }
        ensures err { IfErr result (λ back. (back ≡ parcel) × (self.new ≡ self.old)) }
    {
        if self.parcels.len() >= self.capacity as usize {
            return Err(parcel);
        }
        self.parcels.push_back_reserved(parcel);
        Ok(())
    }

    /// The oldest parcel, or none where the queue is empty. Takes no memory.
    pub fn pop(&mut self) -> Option<Parcel>
        ensures empty { IsNone result ↔ (self.old.parcels ≡ []) }
        ensures none { IfNone result (self.new ≡ self.old) }
        ensures some { IfSome result (λ parcel. self.old ≡ record self.new { parcels = parcel ∷ self.new.parcels }) }
    {
        self.parcels.pop_front()
    }

    /// How many parcels there are.
    pub fn len(&self) -> u32
        ensures { result ≡ length self.now.parcels }
    {
        self.parcels.len() as u32
    }

    /// Whether there are none.
    pub fn is_empty(&self) -> bool
        ensures { IsTrue result ↔ (self.now.parcels ≡ []) }
    {
        self.parcels.is_empty()
    }
}
