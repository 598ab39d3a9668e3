//! The input of a drill: a scenario and a capture of as many packets as are asked for, made of that number alone.
//!
//! [`make`] gives exactly the scenario and the capture that the definitions have: forty VMs of four networks on eight hosts, one frame a
//! packet by three words of a `Pcg32`, a tick after each 64th packet, and one VM that moves while 500 are sent. Each frame is one that the
//! switch takes ([`frames_are_taken`]), and a plan can be made of the two. Want of memory is the only error.
//!
//! It stands on `and_events` for scripts, on `and_capture` for frames, on `and_planner`, which says what can be planned, and on `rand_pcg`,
//! whose contract says the words. Nothing is said of other implementations of PCG.
#![tactic(auto)]

mod frames;
mod laws;
mod making;
mod script;
#[cfg(test)]
mod tests;

pub use laws::frames_are_taken;
pub use making::make;

/// How many VMs there are.
const VMS: u32 = 40;

/// How many networks there are.
const NETWORKS: u32 = 4;

/// How many packets a drill may have.
pub const MAX_PACKETS: u32 = 50_000;

/// The Ethernet address of the first VM.
const FIRST_MAC: u64 = 0x0200_0000_0001;

/// The IPv4 address of the first VM, 10.0.0.1.
const FIRST_ADDRESS: u32 = 0x0a00_0001;

/// The protocol number of TCP.
const TCP: u8 = 6;
