//! Whether a decision by a node's tables may reach the book.
//!
//! Tables change beside the book, so what is decided by them stands on operations that the book may not have announced, or on others than the
//! book's. It promises that [`compare`] says `Done` exactly where the tables' operations are announced and are those of the book's programme, and
//! otherwise what is the matter. It stands on the book (`and_book`) and on what tables are (`and_policy`).
#![tactic(auto)]

mod comparing;

pub use comparing::{Settled, compare};
