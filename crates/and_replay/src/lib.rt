//! One complete run of a plan.
//!
//! [`replay_run`] writes a book in which every step of the plan has its event. Of the actors that may act the one with the
//! smallest number acts, so the run is always the same; each decision is at what its node has installed, and each decision at a
//! host is found in the way that its worker's flow cache gives.
//! It comes to its end in every case, since each turn adds a line and no run is longer than a bound that the plan gives; only
//! want of memory stops it before.
//!
//! A turn is a call of the actor's own crate: `and_install` for the installers, `and_worker` and `and_hover` for the packet workers,
//! `and_hover` for the coprocessors too, `and_driver` for the steps of the plan. Each node has tables of its own, which have at every decision just the operations that
//! are installed there, whatever the order of turns: what an installer announces it keeps, and the tables take it in the turn that
//! says it is installed. `and_others` says that the turn of one actor leaves the others what they had.
//!
//! It stands on `and_book`, whose type says that its lines are a legal run, and which keeps the set of those that may act; and on
//! `and_laws` for what goes on in every run.
#![tactic(auto)]

mod acting;
mod first;
mod parts;
mod run;

pub use run::{Turns, replay_run};
