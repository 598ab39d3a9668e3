//! The usage since the last review.
ghost use Rattle.std.specs.Prelude.{◌≡◌, ◌<◌, ◌≤◌, ◌+◌, ◌^◌, [], length, IfOk, OnOk};
ghost use Rattle.and_events.specs.Usage.{Cleared, Uses, usage_after};
ghost use Rattle.and_usage.specs.Counting.{bytes_of, keys_over};

use crate::keys::Used;
use crate::place::add_to;
use and_policy::{NoMemory, UsageKey};
use std::alloc::Global;
use std::marker::Model;

/// The bytes of each key since the last review. Contracts see the definition's list, in the order of its keys, and for how many keys more there is
/// room.
///
/// A key is found by halving, so an addition costs a look; a key that was not there moves those behind it.
#[derive(Drop)]
pub struct Usage {
    used: Vec<Used>,
}

impl Model for Usage {
    ghost use Rattle.std.specs.Prelude.{◌-◌};
    ghost use Rattle.std.specs.Vec.{vec_len, vec_capacity};
    ghost use Rattle.and_policy.specs.Sorting.{Ascends};
    ghost use Rattle.and_usage.specs.Counting.{UsageView, used_before};

    ghost Value = { UsageView };

    ghost view = { λ u. record { used = u.used.items; spare = vec_capacity u.used - vec_len u.used } };

    ghost invariant = { λ u. Ascends used_before u.used.items };
}

// The keys that have reached the threshold, in order.
fn over_in(alloc: Global, used: &[Used], threshold: u64) -> Result<Vec<UsageKey>, NoMemory>
    ensures { IfOk result (λ keys. keys.items ≡ keys_over threshold used.now) }
{
    let mut keys = Vec::new(alloc);
    for one in used {
        if threshold <= one.bytes() {
            keys.push(one.key()).map_err(|_| NoMemory)?;
        }
    }
    Ok(keys)
}

#[tactic(auto, unfolding(and_events::specs::Usage::usage_after))]
impl Usage {
    /// No usage, and no room.
    ///
    /// # Errors
    ///
    /// Where memory is wanting; none is taken, so that never comes.
    pub fn make(alloc: Global) -> Result<Usage, NoMemory>
        ensures { IfOk result (λ u. u.used ≡ []) }
    {
        Ok(Usage {
            used: Vec::new(alloc),
        })
    }

    /// Makes room for so many keys more.
    ///
    /// # Errors
    ///
    /// Where memory is wanting; the usage and its room are then as before.
    pub fn reserve(&mut self, alloc: Global, n: u32) -> Result<(), NoMemory>
        ensures used { self.new.used ≡ self.old.used }
        ensures never_less { self.old.spare ≤ self.new.spare }
        ensures ok { OnOk result (n ≤ self.new.spare) }
    {
        let _ = alloc;
        self.used.reserve(n as usize).map_err(|_| NoMemory)
    }

    /// So many bytes more for the key. Takes no memory, and leaves room for as many keys in all: a key that is there takes none.
    pub fn add(&mut self, key: UsageKey, bytes: u64)
        requires spare { 0 < self.old.spare }
        requires sum { bytes_of key self.old.used + bytes < 2 ^ 64 }
        ensures used { self.new.used ≡ usage_after self.old.used (Uses key bytes) }
        ensures spare { self.old.spare ≤ self.new.spare + 1 }
        ensures room { self.old.spare + length self.old.used ≤ self.new.spare + length self.new.used }
    {
        add_to(&mut self.used, key, bytes);
    }

    /// The keys whose bytes are at least the threshold, in order: by host, then network, then address.
    ///
    /// # Errors
    ///
    /// Where memory is wanting.
    pub fn over(&self, alloc: Global, threshold: u64) -> Result<Vec<UsageKey>, NoMemory>
        ensures { IfOk result (λ keys. keys.items ≡ keys_over threshold self.now.used) }
    {
        over_in(alloc, &self.used, threshold)
    }

    /// A review begins anew. There is room for as many keys in all, and no memory is taken.
    pub fn clear(&mut self)
        ensures used { self.new.used ≡ usage_after self.old.used Cleared }
        ensures spare { self.old.spare ≤ self.new.spare }
        ensures room { self.old.spare + length self.old.used ≤ self.new.spare + length self.new.used }
    {
        self.used.clear();
    }
}
