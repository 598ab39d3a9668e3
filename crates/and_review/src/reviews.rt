//! The usage since the last review, and the orders that a review gives.
ghost use Rattle.std.specs.Prelude.{◌≡◌, ◌<◌, ◌≤◌, ◌+◌, ◌-◌, ◌^◌, [], None, length, IfOk};
ghost use Rattle.and_policy.specs.Fitting.{IsLog};
ghost use Rattle.and_events.specs.Usage.{Cleared, Uses, usage_after, orders_of};
ghost use Rattle.and_usage.specs.Counting.{bytes_of};
ghost use Rattle.and_review.specs.Views.{Begins};

use crate::known::KnownRoutes;
use crate::orders::orders_for;
use and_events::{Given, Settings};
use and_policy::{Entry, NoMemory, UsageKey};
use and_usage::Usage;
use std::alloc::Global;
use std::marker::Model;

/// The usage since the last review, and the routes of the log as far as a review has looked at it. Contracts see the usage, for how many keys there is room
/// in all, and the entries of the log that are known.
#[derive(Drop)]
pub struct Reviews {
    usage: Usage,
    routes: KnownRoutes,
}

impl Model for Reviews {
    ghost use Rattle.std.specs.Prelude.{◌+◌, length};
    ghost use Rattle.and_review.specs.Views.{ReviewsView};

    ghost Value = { ReviewsView };

    ghost view = { λ r. record { used = r.usage.used; room = r.usage.spare + length r.usage.used; known = r.routes } };
}

impl Reviews {
    /// No usage, with room for so many keys, and no entry of the log.
    ///
    /// # Errors
    ///
    /// Where memory is wanting.
    pub fn make(alloc: Global, keys: u32) -> Result<Reviews, NoMemory>
        ensures used { IfOk result (λ r. r.used ≡ []) }
        ensures room { IfOk result (λ r. keys ≤ r.room) }
        ensures known { IfOk result (λ r. r.known ≡ []) }
    {
        let mut usage = Usage::make(alloc)?;
        usage.reserve(alloc, keys)?;
        let routes = KnownRoutes::make(alloc)?;
        Ok(Reviews { usage, routes })
    }

    /// So many bytes more for the key. Takes no memory.
    pub fn add(&mut self, key: UsageKey, bytes: u64)
        requires room { length self.old.used < self.old.room }
        requires sum { bytes_of key self.old.used + bytes < 2 ^ 64 }
        ensures used { self.new.used ≡ usage_after self.old.used (Uses key bytes) }
        ensures room { self.old.room ≤ self.new.room }
        ensures known { self.new.known ≡ self.old.known }
    {
        self.usage.add(key, bytes);
    }

    /// A review begins anew. Takes no memory.
    pub fn clear(&mut self)
        ensures used { self.new.used ≡ usage_after self.old.used Cleared }
        ensures room { self.old.room ≤ self.new.room }
        ensures known { self.new.known ≡ self.old.known }
    {
        self.usage.clear();
    }

    /// The orders of a review of the usage so far under the log, in key order: one for each key that has reached the threshold and whose route leads to
    /// an owner of the address. Only the entries of the log that are not known yet are looked at.
    ///
    /// # Errors
    ///
    /// Where memory is wanting; the usage is then as before, and some more entries of the log may be known.
    pub fn orders(
        &mut self,
        alloc: Global,
        settings: Settings,
        log: &[Entry],
    ) -> Result<Vec<Given>, NoMemory>
        requires log { IsLog None log.now }
        requires known { Begins self.old.known log.now }
        requires small { length log.now + settings.life < 2 ^ 32 - 1 }
        ensures orders { IfOk result (λ orders. orders.items ≡ orders_of settings log.now self.old.used) }
        ensures used { self.new.used ≡ self.old.used }
        ensures room { self.old.room ≤ self.new.room }
        ensures known { Begins self.new.known log.now }
    {
        self.routes.follow(alloc, log)?;
        let keys = self.usage.over(alloc, settings.threshold)?;
        orders_for(alloc, &self.routes, &settings, &keys)
    }
}
