//! The book of a run: the events that have happened, and the state after them as it is kept.
//!
//! A [`Book`]'s type says that its lines are a legal run of its plan, that each has the seat of its actor, and that what
//! is kept is the state after them. Each call that makes an event happen asks for that event's condition and adds
//! exactly that event; no call adds another. [`Book::tells_a_run`] says what the lines tell.
//!
//! A parcel that is sent to a node gets its outer headers as it enters that node's queue, so what [`Book::take`] hands out from
//! there has the outer bytes of its packet's newest send. The frame is neither moved nor copied.
//!
//! A review is two calls. [`Book::prepare`] finds the orders of the usage so far and makes room for them; [`Book::review`] gives each to
//! its host's programme and takes no memory. It asks for a book that is prepared, and any event ends that, since usage and log may be
//! other ones then.
//!
//! It stands on `and_laws` for what holds in every run, on `and_kept` for the parts of the state, on `and_ports` and `and_pins` for the ports of VMs
//! and the hairpins among them, on `and_review` for the usage and its orders, and on `and_turn`, whose lock hands a book from thread to thread.
#![tactic(auto)]

mod book;
mod enabling;
mod installs;
mod looks;
mod moves;
mod packets;
mod reviews;
mod steps;

pub use book::Book;
