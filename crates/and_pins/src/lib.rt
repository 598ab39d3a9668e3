//! The hairpins that wait for their end: those that VMs left behind as they moved (live migration), and which of them is the first to end.
//!
//! It promises that the hairpins are those of the ports after each of their moves, and that the first one whose log entry every node has installed is
//! found in one step. No call but `make` takes memory. It stands on `and_events`, which defines the ports of a run, and on `and_policy`.
#![tactic(auto)]

mod laws;
mod pin;
mod pins;
mod place;

pub use laws::{nothing_can_end, the_first_can_end};
pub use pins::Pins;
