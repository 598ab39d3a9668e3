//! What a review needs: how many bytes each host has sent since the last one, by source network and destination address, and where the log's routes lead.
//!
//! It promises that a review gives the orders of the definition, of the usage so far and of the routes of the whole log, in key order. The usage and the
//! beginning of a review take no memory, and a review looks only at the entries that came since the last one. It stands on the usage (`and_usage`), on a
//! gateway's tables (`and_routes`), on `and_events`, which defines the orders of a review, and on `and_policy`.
#![tactic(auto)]

mod known;
mod orders;
mod reviews;

pub use and_policy::UsageKey;
pub use reviews::Reviews;
