//! The hairpins that stand, and the first to end.
ghost use Rattle.std.specs.Prelude.{◌≡◌, ◌<◌, ◌≤◌, ◌+◌, ◌↔◌, ℕ, List, [], length, IfOk, IfSome, IfNone, IsTrue};
ghost use Rattle.and_policy.specs.declared.port.Port.{Port};
ghost use Rattle.and_policy.specs.declared.port.Port.TheVariants.{Hairpin};
ghost use Rattle.and_events.specs.Ports.{Halt, IsHairpin, ports_after, ports_of, with_port};
ghost use Rattle.and_pins.specs.Pinned.{ArePins, IsFirst, NoneIsRipe};

use crate::pin::Pin;
use crate::place::{first_place, put_in, take_out, take_out_all};
use and_policy::NoMemory;
use std::alloc::Global;
use std::marker::Model;

/// The hairpins that stand, in the order of their hosts and VMs, and which of them is the first to end. Contracts see their list, how many log entries
/// every node has installed, and for how many hairpins there is room in all.
///
/// A hairpin is found by halving. The first to end is found anew where the hairpins or the installed entries changed, so to ask for it costs nothing.
#[derive(Drop)]
pub struct Pins {
    pins: Vec<Pin>,
    // How many log entries every node has installed.
    least: u32,
    // The place of the first hairpin to end; past the last where there is none.
    first: usize,
}

impl Model for Pins {
    ghost use Rattle.std.specs.Vec.{vec_capacity};
    ghost use Rattle.and_pins.specs.Pinned.{AreKept, PinsView};

    ghost Value = { PinsView };

    ghost view = { λ p. record { pins = p.pins.items; least = p.least; room = vec_capacity p.pins } };

    ghost invariant = { λ p. AreKept p.pins.items p.least p.first };
}

impl Pins {
    /// No hairpins and no installed entries, and room for so many hairpins.
    ///
    /// # Errors
    ///
    /// Where memory is wanting; that is the only error.
    pub fn make(alloc: Global, room: u32) -> Result<Pins, NoMemory>
        ensures pins { IfOk result (λ p. p.pins ≡ []) }
        ensures least { IfOk result (λ p. p.least ≡ 0) }
        ensures room { IfOk result (λ p. room ≤ p.room) }
    {
        let pins = Vec::with_capacity(alloc, room as usize).map_err(|_| NoMemory)?;
        Ok(Pins {
            pins,
            least: 0,
            first: 0,
        })
    }

    /// The VM has left a hairpin at the host, made by the log entry of this number, from 1. Takes no memory.
    pub fn put(&mut self, host: u32, vm: u32, entry: u32)
        requires room { length self.old.pins < self.old.room }
        ensures pins { (ports : List (List Port)) (to : ℕ) → vm < length ports → host < length (ports_of ports vm) → ArePins self.old.pins ports
            → ArePins self.new.pins (with_port ports host vm (Hairpin to entry)) }
        ensures more { length self.new.pins ≤ length self.old.pins + 1 }
        ensures least { self.new.least ≡ self.old.least }
        ensures room { self.old.room ≤ self.new.room }
    {
        put_in(&mut self.pins, Pin { host, vm, entry });
        self.first = first_place(&self.pins, self.least);
    }

    /// The VM's port at the host is no hairpin any more, if it was one.
    pub fn take_away(&mut self, host: u32, vm: u32)
        ensures pins { (ports : List (List Port)) (port : Port) → (IsHairpin port → ⊥) → ArePins self.old.pins ports
            → ArePins self.new.pins (with_port ports host vm port) }
        ensures fewer { length self.new.pins ≤ length self.old.pins }
        ensures least { self.new.least ≡ self.old.least }
        ensures room { self.old.room ≤ self.new.room }
    {
        if take_out(&mut self.pins, host, vm) {
            self.first = first_place(&self.pins, self.least);
        }
    }

    /// The VM has no port any more.
    pub fn take_all(&mut self, vm: u32)
        ensures pins { (ports : List (List Port)) → ArePins self.old.pins ports → ArePins self.new.pins (ports_after ports (Halt vm)) }
        ensures fewer { length self.new.pins ≤ length self.old.pins }
        ensures least { self.new.least ≡ self.old.least }
        ensures room { self.old.room ≤ self.new.room }
    {
        take_out_all(&mut self.pins, vm);
        self.first = first_place(&self.pins, self.least);
    }

    /// Every node has installed so many log entries.
    pub fn ripen(&mut self, least: u32)
        ensures { self.new ≡ record self.old { least = least } }
    {
        if least != self.least {
            self.least = least;
            self.first = first_place(&self.pins, least);
        }
    }

    /// The first hairpin that may end, as its host and its VM: the smallest host, then the smallest VM, among those whose entry every node has installed.
    pub fn first(&self) -> Option<(u32, u32)>
        ensures some { IfSome result (λ p. IsFirst self.now.pins self.now.least p.0 p.1) }
        ensures none { IfNone result (NoneIsRipe self.now.pins self.now.least) }
    {
        if self.first >= self.pins.len() {
            return None;
        }
        let pin = self.pins[self.first];
        Some((pin.host, pin.vm))
    }

    /// Whether no hairpin stands.
    pub fn is_empty(&self) -> bool
        ensures { IsTrue result ↔ (self.now.pins ≡ []) }
    {
        self.pins.is_empty()
    }
}
