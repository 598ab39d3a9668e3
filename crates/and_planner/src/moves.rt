//! The VMs in a blackout.
ghost use Rattle.std.specs.Prelude.{◌≡◌, ◌==◌, ◌++◌, ◌∷◌, [], not, map, unwrap_or, option_map, OnOk, OnErr};
ghost use Rattle.std.specs.List.{list_any, filter, find};
ghost use Rattle.and_planner.specs.Standing.{moving_of};

use and_policy::NoMemory;
use std::alloc::Global;
use std::marker::Model;

/// A VM in a blackout, and the host to which it is on its way.
#[derive(Clone, Copy)]
pub struct Move {
    /// The VM.
    pub vm: u32,
    /// The host.
    pub to: u32,
}

/// The VMs in a blackout, in the order in which they were paused. Contracts see their list.
#[derive(Drop)]
pub struct Moves {
    moves: Vec<Move>,
}

impl Model for Moves {
    ghost use Rattle.std.specs.Prelude.{List, map};
    ghost use Rattle.and_events.specs.Script.{Moving};
    ghost use Rattle.and_planner.specs.Standing.{moving_of};

    ghost Value = { List Moving };

    ghost view = { λ m. map moving_of m.moves.items };
}

// Whether the VM is among them.
fn is_among(moves: &[Move], vm: u32) -> bool
    ensures { result ≡ list_any (λ m. m.vm == vm) (map moving_of moves.now) }
{
    moves.iter().any(|m| m.vm == vm)
}

// The host to which the VM is on its way, where it is among them.
fn target_among(moves: &[Move], vm: u32) -> u32
    ensures { result ≡ unwrap_or (option_map (λ m. m.to) (find (λ m. m.vm == vm) (map moving_of moves.now))) 0 }
{
    match moves.iter().find(|m| m.vm == vm) {
        Some(found) => found.to,
        None => 0,
    }
}

// Takes the VM out.
fn take_out(moves: &mut Vec<Move>, vm: u32)
    ensures { map moving_of moves.new.items ≡ filter (λ m. not (m.vm == vm)) (map moving_of moves.old.items) }
{
    moves.retain(|m| m.vm != vm);
}

impl Moves {
    /// No VMs. It takes no memory.
    pub fn new(alloc: Global) -> Moves
        ensures { result ≡ [] }
    {
        Moves {
            moves: Vec::new(alloc),
        }
    }

    /// Whether the VM is in a blackout.
    pub fn has(&self, vm: u32) -> bool
        ensures { result ≡ list_any (λ m. m.vm == vm) self.now }
    {
        is_among(&self.moves, vm)
    }

    /// The host to which the VM is on its way, where it is in a blackout.
    pub fn target(&self, vm: u32) -> u32
        ensures { result ≡ unwrap_or (option_map (λ m. m.to) (find (λ m. m.vm == vm) self.now)) 0 }
    {
        target_among(&self.moves, vm)
    }

    /// Puts a VM in a blackout, on its way to a host. After want of memory the VMs are as they were.
    pub fn begin(&mut self, vm: u32, to: u32) -> Result<(), NoMemory>
        ensures ok { OnOk result (self.new ≡ self.old ++ record { vm = vm; to = to } ∷ []) }
        ensures err { OnErr result (self.new ≡ self.old) }
    {
        match self.moves.push(Move { vm, to }) {
            Ok(()) => Ok(()),
            Err(_) => Err(NoMemory),
        }
    }

    /// Takes a VM out of its blackout.
    pub fn end(&mut self, vm: u32)
        ensures { self.new ≡ filter (λ m. not (m.vm == vm)) self.old }
    {
        take_out(&mut self.moves, vm);
    }
}
