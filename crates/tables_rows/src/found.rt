//! What was found to differ.

use and_policy::{NoMemory, Way};
use std::alloc::Global;

/// A call that did not answer as the plain policy does.
#[derive(Drop)]
pub struct Difference {
    pub(crate) list: u32,
    pub(crate) at: u32,
    pub(crate) call: &'static str,
}

/// The list that is compared, and what was found.
#[derive(Drop)]
pub struct Found {
    pub(crate) list: u32,
    pub(crate) at: u32,
    pub(crate) differences: Vec<Difference>,
    /// Whether a decision was to be fast, and whether one was to be slow.
    pub(crate) fast: bool,
    pub(crate) slow: bool,
}

impl Found {
    /// Nothing yet of this list.
    pub(crate) fn new(alloc: Global, list: u32) -> Found {
        Found {
            list,
            at: 0,
            differences: Vec::new(alloc),
            fast: false,
            slow: false,
        }
    }

    /// Keeps that a decision was to be found this way.
    pub(crate) fn count(&mut self, way: Way) {
        match way {
            Way::Fast => self.fast = true,
            Way::Slow => self.slow = true,
        }
    }

    /// Keeps a difference, where there is one.
    pub(crate) fn note(&mut self, same: bool, call: &'static str) -> Result<(), NoMemory> {
        if same {
            return Ok(());
        }
        let difference = Difference {
            list: self.list,
            at: self.at,
            call,
        };
        self.differences.push(difference).map_err(|_| NoMemory)
    }
}
