//! The flow cache of a host's worker: an exact-match (microflow) cache of decisions.
//!
//! It promises that a look answers what the definition of the cache answers after the puts so far: an entry of its key whose stamp is not below the
//! floor. No call but `make` takes memory. It stands on `and_policy`, which has the keys, the outcomes and the definition.
#![tactic(auto)]

mod cache;
mod group;
mod laws;

pub use and_policy::Cached;
pub use cache::FlowCache;
pub use laws::caches_answer_the_newest;
