//! The ports of the VMs: where each VM runs, and where it is on its way (live migration).
//!
//! It promises that each call changes the ports as the definition's move of its name does, and no others. No call but `make` takes memory. It stands on
//! `and_events`, which defines the ports of a run, and on `and_policy`.
#![tactic(auto)]

mod ports;

pub use and_policy::Port;
pub use ports::Ports;
