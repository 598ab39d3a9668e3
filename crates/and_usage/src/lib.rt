//! How many bytes each host has sent, by source network and destination address, since the last review.
//!
//! It promises that the bytes of each key are those of the definition's use of it, and which keys have reached a threshold, in order. No call but `make`,
//! `reserve` and `over` takes memory. It stands on `and_events`, which defines the usage of a run, and on `and_policy`.
#![tactic(auto)]

mod keys;
mod place;
mod usage;

pub use and_policy::UsageKey;
pub use usage::Usage;
