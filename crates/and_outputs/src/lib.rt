//! The captures of a run: the frames that it delivered, and the packets of its underlay.
//!
//! It promises that [`delivered_capture`] and [`underlay_capture`] give exactly the files that the definitions `delivered` and
//! `underlay` have for the plan and the history of the lines: each delivered frame as it was captured, in the order of
//! deliveries, and each send with its outer headers as they were at that send, in the order of sends. Both go over the
//! lines once. It stands on the definitions of `and_events`, on the laws of runs of `and_laws`, on `and_parcel` for outer
//! packets and on `and_capture` for the file.
#![tactic(auto)]

mod delivered;
mod file;
mod moved;
mod sending;
mod underlay;

pub use delivered::delivered_capture;
pub use underlay::underlay_capture;
