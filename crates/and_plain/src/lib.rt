//! The system as a plain program: each function computes the definition of its name over plain lists, slowly and exactly.
//!
//! It promises the state after a list of events, whether an event is legal in a state, the first event of a list that is not
//! legal, and whether an actor is enabled: each contract is the definition itself, both ways. It stands on the definitions of
//! `and_events`, and on the plain policy of `and_policy`.
#![tactic(auto)]

mod conditions;
mod decisions;
mod enabled;
mod events;
mod facts;
mod flow;
mod legal;
mod log;
mod nodes;
mod places;
mod ports;
mod programmes;
mod rest;
mod rows;
mod run;
mod sends;
mod state;
mod steps;
mod takes;
mod usage;

pub use conditions::clamp;
pub use enabled::is_enabled;
pub use events::{after, state_of};
pub use facts::{dest_endpoint, node_at, source_net, tuple_at, vm_at};
pub use legal::is_legal;
pub use places::{actor_of, capacity_at, hand_count, hand_place, node_count, node_of, queue_place};
pub use rows::{both, row_at};
pub use run::first_illegal;
pub use sends::carried_at;
pub use state::{State, announced_of, home, installed_of, programme_of, start};
