//! Virtual networks and their policy: the log of tenant commands, what a prefix of it has, and what it says of a packet.
//!
//! This crate has the types and the definitions on which all others stand. A definition (in `specs/`) searches the list of
//! entries anew for each packet and keeps no table. The functions compute the definitions, slowly and exactly; the
//! log alone keeps indexes, so that the check of an entry never looks back.
#![tactic(auto)]

mod cached;
mod decision;
mod entry;
mod index;
mod log;
mod memory;
mod numbered;
mod packet;
mod placements;
pub mod plain;
mod port;
mod put;
mod register;
mod tables;
mod underlay;

pub use cached::Cached;
pub use decision::{
    Decision, Dest, Exit, GateDecision, Landing, Leaving, Located, Name, Outcome, Routed, Routing,
    Verdict, Way,
};
pub use entry::{Entry, EntryFault, FlowKey, Op, Order, Prefix, Route, Rule, Side, Target};
pub use log::Log;
pub use memory::NoMemory;
pub use packet::{Fields, Skip, Tuple};
pub use placements::{Addition, Placements};
pub use port::{Port, UsageKey};
pub use register::{Register, Residence};
pub use tables::{Batch, Tables};
pub use underlay::{flow_hash, host_address, redirect_address, route_address};
