//! The turn lock: one growing tale that threads hand from seat to seat.
//!
//! A tale is a list of lines, each of which names the number of a seat, with a root that no turn changes. Whoever holds
//! the turn has the whole value, and gives it back with lines of its own number at the end.
//!
//! What it promises: what a seat has seen is a prefix of the lock's lines and has every line of the seat's number, so
//! what a thread knows of its own lines holds of the one history. The first seat makes the other seats, takes them in
//! again, and closes the lock; then what it has seen is the value's lines.
//!
//! It stands on `atomic_table`: three words (the count of lines, the next ticket, the ticket that is served) and one slot.
//! Turns go in the order of tickets, and a seat that waits yields its processor. Every ordering is `SeqCst`. Nothing is
//! promised of progress: `enter` may wait for ever.
#![tactic(auto)]

mod lock;
mod plays;
mod seat;
mod steps;
mod tale;
mod view;

pub use seat::{Seat, TurnLock};
pub use tale::Tale;

/// There was no memory.
#[derive(Debug, Clone, Copy, PartialEq, Eq)]
pub struct NoMemory;
