//! What a host or a gateway decides of a packet: the policy under the operations that its tables hold.
//!
//! It promises that a decision is what the policy says at the tables' number, found fast exactly where the flow cache answered, and then no rule is
//! looked at. Tables that stand at fewer operations than are needed decide nothing. No decision changes the cache, takes memory or waits. It stands on
//! the tables (`and_tables`, `and_routes`), the slow path (`and_slow`), the flow cache (`and_flow`) and parcels (`and_parcel`, `and_wire`).
#![tactic(auto)]

mod asking;
mod behind;
mod gates;
mod hosts;
mod looking;

pub use and_policy::{Decision, GateDecision, Way};
pub use behind::Behind;
pub use gates::gateway;
pub use hosts::{egress, ingress};
