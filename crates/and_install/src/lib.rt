//! Installs: a node's installer announces what its programme has grown by, the node's tables take it, and the installer says so.
//!
//! It promises that the operations announced are just those between what is installed and the end of the programme, that tables take a batch in its
//! order, and that each of the two events is the one legal event. It is written once for every order of turns and for threads: the tables are changed
//! between [`begin`] and [`end`], while the book may be another's. It stands on the book (`and_book`) and on what tables are (`and_policy`).
#![tactic(auto)]

mod install;

pub use and_policy::{Batch, Tables};
pub use install::{apply, begin, end};
