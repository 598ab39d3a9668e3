//! A packet worker of a host: it takes a packet from the underlay or from the host's VMs, decides of it by the host's tables and its flow cache, and
//! settles it.
//!
//! It promises that each call adds the one event that it names or none, that a packet is settled only by a decision on operations that the book has
//! announced and no fewer than were installed at the take, and otherwise what is the matter. What was found by the tables alone goes into the flow
//! cache once it is settled; nothing else changes the cache. It stands on the book (`and_book`), on what hosts decide (`and_decide`), on the flow cache
//! (`and_flow`), and on the comparison of tables with the book (`and_agree`).
#![tactic(auto)]

mod laws;
mod worker;

pub use and_agree::Settled;
pub use and_decide::Behind;
pub use laws::caches_stay_right;
pub use worker::Worker;
