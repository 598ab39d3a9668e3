//! What a list of events says of each packet, and whether it is a whole run in the plain order: a plain program.
//!
//! Each function computes a definition, slowly and exactly. Most do so over a list of events, the oldest of which is first:
//! a packet's fates, whether its decisions are fresh, whether each of its fates has its reason, whether the list is complete,
//! and whether at each event the first of the enabled actors acted. It stands on the definitions of `and_events` and on the
//! states of `and_plain`. The program `rows` judges the traces of all rows by it.
#![tactic(auto)]

mod all;
mod arrival;
mod behind;
mod complete;
mod fate;
mod first;
mod fresh;
mod just;
mod led;
mod loss;
mod order;
mod reasons;
mod said;
mod sent;

pub use behind::{Led, Left, egresses, routes};
pub use complete::is_complete;
pub use fate::{fate_of, fates};
pub use fresh::is_fresh;
pub use just::is_just;
pub use led::led_to;
pub use order::is_in_plain_order;
pub use sent::sends;
