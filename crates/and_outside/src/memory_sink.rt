//! A sink that keeps in memory what is put into it.
ghost use Rattle.std.specs.Prelude.{◌≡◌, ◌≤◌, ◌+◌, ◌++◌, ◌↔◌, take, vec_len, IfOk, IsErr, IsTrue, OnOk, OnErr, Some, ℕ, List};
ghost use Rattle.and_outside.specs.Causes.{Rose, raised};
ghost use Rattle.and_outside.specs.Memory.{Roll, empty_roll, put_fails, after_put, stream_of};

use crate::answer::{Failed, NoMemory};
use crate::numbers::is_failing;
use crate::sink::Sink;
use std::alloc::Global;
use std::marker::Model;

/// Keeps what is put, and fails the puts whose numbers, counted from 0, it was told.
#[derive(Drop)]
pub struct MemorySink {
    bytes: Vec<u8>,
    failing: Vec<u32>,
    next: u64,
    room: u64,
    faults: u64,
    before: u64,
}

impl Model for MemorySink {
    ghost use Rattle.std.specs.Prelude.{◌≤◌, ◌+◌, vec_len};
    ghost use Rattle.std.specs.Vec.{vec_capacity};
    ghost use Rattle.and_outside.specs.Memory.{Roll};

    ghost Value = { Roll };

    ghost view = { λ s. record { bytes = s.bytes.items; failing = s.failing.items; next = s.next; room = s.room; faults = s.faults; before = s.before } };

    // The memory for all that is still to come is there.
    ghost invariant = { λ s. vec_len s.bytes + s.room ≤ vec_capacity s.bytes };
}

impl MemorySink {
    /// An empty sink with room for so many bytes, which takes all its memory here.
    pub fn make(alloc: Global, room: u64, failing: &[u32]) -> Result<MemorySink, NoMemory>
        ensures { IfOk result (λ s. s ≡ empty_roll room failing.now) }
    {
        let Ok(bytes) = Vec::with_capacity(alloc, room as usize) else {
            return Err(NoMemory);
        };
        let Ok(failing) = Vec::from_slice(alloc, failing) else {
            return Err(NoMemory);
        };
        Ok(MemorySink {
            bytes,
            failing,
            next: 0,
            room,
            faults: 0,
            before: 0,
        })
    }

    /// What was written.
    pub fn bytes(&self) -> &[u8]
        ensures { result.now ≡ self.now.bytes }
    {
        self.bytes.as_slice()
    }

    /// The number of the next put is in the list, or what is left does not suffice for so many bytes.
    fn refuses(&self, bytes: &[u8]) -> bool
        ensures { result ≡ put_fails self.now bytes.now }
    {
        is_failing(&self.failing, self.next) || self.room < bytes.len() as u64
    }
}

impl Sink for MemorySink {
    ghost stream = { λ s. stream_of s };

    /// Fails exactly where the number of the put is in the list or the room does not suffice. A put
    /// that fails appends nothing and uses no room.
    fn put(&mut self, bytes: &[u8]) -> Result<(), Failed>
        ensures appended { OnOk result ((w : List ℕ) → (stream_of self.old).written ≡ Some w → (stream_of self.new).written ≡ Some (w ++ bytes.now)) }
        ensures part { OnErr result ((w : List ℕ) → (stream_of self.old).written ≡ Some w
            → (n : ℕ) × ((stream_of self.new).written ≡ Some (w ++ take n bytes.now))) }
        ensures failed { OnErr result (Rose (stream_of self.old).faults (stream_of self.new).faults) }
        ensures counts { (stream_of self.old).faults ≤ (stream_of self.new).faults }
        ensures call { ((stream_of self.new).calls ≡ raised 1 (stream_of self.old).calls) × ((stream_of self.new).before ≡ (stream_of self.old).faults) }
        ensures fails { IsErr result ↔ IsTrue (put_fails self.old bytes.now) }
        ensures after { self.new ≡ after_put self.old bytes.now }
    {
        let refuses = self.refuses(bytes);
        self.next = self.next.saturating_add(1);
        self.before = self.faults;
        if refuses || self.bytes.extend_from_slice(bytes).is_err() {
            self.faults = self.faults.saturating_add(1);
            return Err(Failed);
        }
        self.room -= bytes.len() as u64;
        Ok(())
    }
}
