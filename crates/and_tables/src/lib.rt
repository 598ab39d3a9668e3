//! The tables of a host: what its programme leaves of rules, VMs and live offload orders.
//!
//! Each look is a look into an index. The crate stands on `and_policy`, by whose definitions its contracts speak: what the
//! tables answer is promised where the entries among their operations are a log.
#![tactic(auto)]

mod chain;
mod host;
mod index;
mod maps;
mod orders;
mod rulebook;
mod rules;
mod steps;

pub use host::HostTables;
