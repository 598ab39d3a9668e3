//! The tables of a gateway: where packets for an address of a network go, under the log entries that were applied.
//!
//! A route is found by an index over the length of its prefix and the bits that count, so that a look costs at most one
//! look-up for each of the 33 lengths, however many routes there are. The crate stands on `and_policy`, by whose definitions
//! its contracts speak.
#![tactic(auto)]

mod bucket;
mod prefixes;
mod tables;

pub use tables::GatewayTables;
