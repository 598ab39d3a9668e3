//! One node's programme.
ghost use Rattle.std.specs.Prelude.{◌≡◌, ◌+◌, ◌<◌, ◌≤◌, ◌^◌, [], length, true, IfOk, OnOk};
ghost use Rattle.and_policy.specs.Programmes.{prefix};
ghost use Rattle.and_policy.specs.declared.entry.Op.TheVariants as ops;
ghost use Rattle.and_kept.specs.Nodes.{with_entry, with_op, is_behind, height};

use and_policy::{Entry, NoMemory, Op, Order};
use std::alloc::Global;
use std::marker::Model;

/// A node's programme, and how much of it is announced and installed. Contracts see it as these, and how many operations
/// it has room for.
#[derive(Drop)]
pub(crate) struct Programme {
    ops: Vec<Op>,
    entry_count: u32,
    announced: u32,
    announced_entries: u32,
    installed: u32,
    installed_entries: u32,
    limit: u32,
}

impl Model for Programme {
    ghost use Rattle.std.specs.Prelude.{ℕ, Option, vec_capacity};
    ghost use Rattle.and_kept.specs.Nodes.{Programmed, IsProgrammed, CountsEntries};

    ghost Value = { Programmed };

    ghost view = { λ p. record { ops = p.ops.items; announced = p.announced; installed = p.installed; limit = p.limit } };

    ghost invariant = { λ p.
        let n : Programmed = record { ops = p.ops.items; announced = p.announced; installed = p.installed; limit = p.limit } in
        IsProgrammed n (vec_capacity p.ops) × CountsEntries n p.entry_count p.announced_entries p.installed_entries };
}

impl Programme {
    /// An empty programme with room for so many operations. All memory is taken here.
    pub(crate) fn make(alloc: Global, limit: u32) -> Result<Programme, NoMemory>
        ensures { IfOk result (λ p. p ≡ record { ops = []; announced = 0; installed = 0; limit = limit }) }
    {
        match Vec::with_capacity(alloc, limit as usize) {
            Ok(ops) => Ok(Programme {
                ops,
                entry_count: 0,
                announced: 0,
                announced_entries: 0,
                installed: 0,
                installed_entries: 0,
                limit,
            }),
            Err(_) => Err(NoMemory),
        }
    }

    /// The operations.
    pub(crate) fn ops(&self) -> &[Op]
        ensures { result.now ≡ self.now.ops }
    {
        self.ops.as_slice()
    }

    /// How many of them are announced.
    pub(crate) fn announced(&self) -> u32
        ensures { result ≡ self.now.announced }
    {
        self.announced
    }

    /// How many of them are installed.
    pub(crate) fn installed(&self) -> u32
        ensures { result ≡ self.now.installed }
    {
        self.installed
    }

    /// How many of the installed ones are entries of the log.
    pub(crate) fn entries_installed(&self) -> u32
        ensures { result ≡ length (prefix self.now.ops self.now.installed) }
    {
        self.installed_entries
    }

    /// Whether not all of them are installed.
    pub(crate) fn is_behind(&self) -> bool
        ensures { result ≡ is_behind self.now }
    {
        self.installed as usize != self.ops.len()
    }

    /// The programme gets an entry of the log.
    pub(crate) fn push(&mut self, entry: Entry)
        requires { length self.old.ops < self.old.limit }
        ensures programme { self.new ≡ with_entry entry self.old }
        ensures behind { is_behind self.new ≡ true }
        ensures height { height self.new ≡ height self.old }
    {
        self.ops.push_reserved(Op::Entry(entry));
        self.entry_count += 1;
    }

    /// Room for so many operations more.
    ///
    /// # Errors
    ///
    /// Where memory is wanting. No room is lost then.
    pub(crate) fn room_for(&mut self, count: u32) -> Result<(), NoMemory>
        requires { length self.old.ops + count < 2 ^ 32 }
        ensures programme { self.new ≡ record self.old { limit = self.new.limit } }
        ensures never_less { self.old.limit ≤ self.new.limit }
        ensures ok { OnOk result (length self.new.ops + count ≤ self.new.limit) }
    {
        let needed = self.ops.len() as u32 + count;
        if needed <= self.limit {
            return Ok(());
        }
        self.ops.reserve(count as usize).map_err(|_| NoMemory)?;
        self.limit = needed;
        Ok(())
    }

    /// The programme gets an offload order, which is no entry of the log.
    pub(crate) fn give(&mut self, order: Order)
        requires { length self.old.ops < self.old.limit }
        ensures programme { self.new ≡ with_op (ops.Offload order) self.old }
        ensures behind { is_behind self.new ≡ true }
        ensures height { height self.new ≡ height self.old }
    {
        self.ops.push_reserved(Op::Offload(order));
    }

    /// All of it is announced.
    pub(crate) fn announce(&mut self)
        ensures { self.new ≡ record self.old { announced = length self.old.ops } }
    {
        self.announced = self.ops.len() as u32;
        self.announced_entries = self.entry_count;
    }

    /// What is announced is installed.
    pub(crate) fn install(&mut self)
        ensures programme { self.new ≡ record self.old { installed = self.old.announced } }
        ensures higher { height self.old ≤ height self.new }
    {
        self.installed = self.announced;
        self.installed_entries = self.announced_entries;
    }
}
