//! The driver: the steps of the plan, one after the other; and the controller: the ends of hairpins.
//!
//! It promises that a turn of the driver does the step that is due, and a turn of the controller ends the next hairpin, by its one event, exactly where that actor
//! may act, and that it changes nothing otherwise. It is written once for every order of turns and for threads. It stands on the book (`and_book`), whose calls add the events.
#![tactic(auto)]

mod driver;

pub use driver::{control, turn};
