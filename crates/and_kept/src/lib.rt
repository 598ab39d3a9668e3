//! What is kept of a running system: for each component of its state one struct, which contracts see as that component.
//!
//! [`Traffic`] has the packets: bounded queues of parcels, what each actor has in hand, and what is known of each packet
//! on its way. [`Progress`] has the log and each node's programme, with how much of it is announced and installed, and how many entries every node has installed.
//! Each method is one change of the definition's state, and says so: what contracts see after it is what the definition
//! makes of what they saw before it.
//!
//! Counts of what is not empty, not free or not installed are kept beside the parts, so that no question about all of
//! them takes a pass; and so are the set of the nodes whose installers may act and the set of the hands that have work. A set
//! is looked at a word of 64 numbers at a time. No call takes memory but `make` and `Progress::room_for`, which makes room for
//! offload orders in their hosts' programmes before a review gives them.
//!
//! It stands on `and_events`, whose components these are, on `and_parcel` for the parcels, on `and_ports` and `and_pins` for the ports of
//! the VMs and what ends a hairpin, and on `and_policy` for the entries of the log.
#![tactic(auto)]

mod busy;
mod count;
mod floor;
mod hall;
mod hands;
mod nodes;
mod numbers;
mod outers;
mod programme;
mod progress;
mod queues;
mod settling;
mod traffic;

pub use count::{count_hands, count_nodes};
pub use numbers::NumberSet;
pub use progress::Progress;
pub use settling::{settle_gate, settle_landing, settle_leaving};
pub use traffic::{Holder, Traffic};
