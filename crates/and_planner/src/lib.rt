//! The plan of a scenario and a capture: the items of the script applied in order, before anything runs.
//!
//! [`plan`] makes the very plan that the definition gives: each item that fits gives its steps, each other is refused by its number and its
//! fault, each frame is a packet or is skipped for its reason, and the end is the last step. The plan is sound; want of memory is the
//! only error.
//!
//! It stands on `and_policy` for the log, on `and_wire` for the reading of frames, and on `and_events` and `and_capture` for the types.
#![tactic(auto)]

mod holds;
mod laws;
mod making;
mod moves;
mod planner;
mod state;

pub use laws::plans_are_sound;
pub use making::plan;
