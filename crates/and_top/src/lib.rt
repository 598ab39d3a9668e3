//! The top call: from command words, a scenario and a capture to the trace, the two captures and the report.
//!
//! [`andromeda`] does what the words of a command line say. Its clause is the promise of the program, over all files and sinks and of each
//! content that they tell: what the trace's file holds after a replay is the trace of a run of the plan to its end, in which each packet has
//! exactly one fate, for its reason; the two captures hold the frames that this run delivered, unchanged, and the packets that it sent over the underlay.
//! It stands on the crates of each part: the reading of scenarios and captures, the run, and the four texts.
#![tactic(auto)]

mod answers;
mod commands;
mod inputs;
mod line;
mod replaying;
mod texts;
mod words;

pub use and_replay::Turns;
pub use and_script::ScenarioFault;
pub use answers::{Fault, Job, Which};
pub use commands::andromeda;
pub use replaying::replay;

/// The most bytes of a scenario's file.
pub const MAX_SCENARIO_LEN: u64 = 16_777_216;

/// The most bytes of a capture's file.
pub const MAX_CAPTURE_LEN: u64 = 33_554_432;
