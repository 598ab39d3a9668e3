//! What an event of one actor leaves as it is for the others.
//!
//! A worker decides of a packet while other actors act, and settles later. This crate says what it finds then: what it has in hand, what that
//! packet carries, the operations that it took in, and the flow cache that its own events have filled, are as they were.
//! The definitions of a worker's cache over a history, and of the ways that it gives, stand in `specs/Ways.antt`.
//!
//! **What it promises**, as contracts of functions that do nothing: hands and what is carried last over other actors' events; programmes
//! grow at their ends alone; what a node has announced or installed is changed by its installer alone, and a cache by its worker alone; and a
//! plan has at most one complete run in the plain order in which each worker goes the way that its cache gives. It stands on `and_laws`, and
//! on the definitions of `and_events` and `and_policy`; no code of a runtime is named here.
//!
//! The lemmas behind it are for the proofs of what runs: `Lasting` for hands, `Growing` for programmes and what was announced and
//! installed, `Caching` for caches and ways, `Once` for the one run.
#![tactic(auto)]

mod laws;

pub use laws::{
    caches_last, hands_last, numbers_last, programmes_grow_at_their_ends, runs_by_caches_are_one,
};
