//! What a flow cache keeps of a decision.

use crate::decision::Outcome;
use crate::entry::FlowKey;

/// An entry of a flow cache.
#[derive(Debug, Clone, Copy)]
pub struct Cached {
    /// What it is found by.
    pub key: FlowKey,
    /// How many operations of the programme were behind the outcome.
    pub stamp: u32,
    /// What was decided.
    pub outcome: Outcome,
}
