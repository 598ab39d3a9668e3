//! The routes of the log as far as a review has looked at it.
ghost use Rattle.std.specs.Prelude.{◌≡◌, ◌<◌, ◌-◌, ◌^◌, ◌++◌, ◌∷◌, [], None, length, IfOk, OnOk, OnErr};
ghost use Rattle.and_policy.specs.Fitting.{IsLog};
ghost use Rattle.and_policy.specs.Logs as logs;
ghost use Rattle.and_policy.specs.Owners as owners;
ghost use Rattle.and_review.specs.Views.{Begins};

use and_policy::{Entry, NoMemory, Op, Routed, Tables};
use and_routes::GatewayTables;
use std::alloc::Global;
use std::marker::Model;

/// The routes of the first entries of the log, and how many ticks these have. Contracts see the entries.
#[derive(Drop)]
pub(crate) struct KnownRoutes {
    /// The tables that the entries leave.
    tables: GatewayTables,
    /// The number of ticks among the entries.
    ticks: u32,
}

impl Model for KnownRoutes {
    ghost use Rattle.std.specs.Prelude.{List};
    ghost use Rattle.and_policy.specs.declared.entry.Entry.{Entry};
    ghost use Rattle.and_policy.specs.Programmes.{entries};
    ghost use Rattle.and_review.specs.Following.{IsFollowed};

    ghost Value = { List Entry };

    ghost view = { λ k. entries k.tables };

    ghost invariant = { IsFollowed };
}

// How many ticks the entry is.
fn ticks_of(entry: &Entry) -> u32
    ensures { result ≡ logs.now (entry.now ∷ []) }
{
    match entry {
        Entry::Tick => 1,
        _ => 0,
    }
}

impl KnownRoutes {
    /// The routes of no entries.
    ///
    /// # Errors
    ///
    /// Where memory is wanting.
    pub(crate) fn make(alloc: Global) -> Result<KnownRoutes, NoMemory>
        ensures { IfOk result (λ k. k ≡ []) }
    {
        let tables = GatewayTables::make(alloc)?;
        Ok(KnownRoutes { tables, ticks: 0 })
    }

    /// How many entries are known.
    pub(crate) fn len(&self) -> u32
        ensures { result ≡ length self.now }
    {
        self.tables.at()
    }

    /// How many ticks the entries have.
    pub(crate) fn ticks(&self) -> u32
        ensures { result ≡ logs.now self.now }
    {
        self.ticks
    }

    /// Where packets for an address of a network go. The address is the number whose highest byte is the first on the wire.
    pub(crate) fn route(&self, net: u32, destination: u32) -> Routed
        requires { IsLog None self.now }
        ensures { result ≡ owners.routed self.now net destination }
    {
        self.tables.route(net, destination)
    }

    // One entry more.
    fn add(&mut self, alloc: Global, entry: Entry) -> Result<(), NoMemory>
        requires { length self.old < 2 ^ 32 - 1 }
        ensures ok { OnOk result (self.new ≡ self.old ++ entry ∷ []) }
        ensures err { OnErr result (self.new ≡ self.old) }
    {
        self.tables.apply(alloc, Op::Entry(entry))?;
        self.ticks += ticks_of(&entry);
        Ok(())
    }

    /// Looks at the entries of the log that are not known yet.
    ///
    /// # Errors
    ///
    /// Where memory is wanting; some more entries of the log may be known then.
    pub(crate) fn follow(&mut self, alloc: Global, log: &[Entry]) -> Result<(), NoMemory>
        requires begins { Begins self.old log.now }
        requires small { length log.now < 2 ^ 32 }
        ensures ok { OnOk result (self.new ≡ log.now) }
        ensures begins { Begins self.new log.now }
    {
        let known = self.len() as usize;
        for entry in &log[known..] {
            self.add(alloc, *entry)?;
        }
        Ok(())
    }
}
