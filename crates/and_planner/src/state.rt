//! The plain state of a script: the log, the VMs in a blackout, and what is held.
ghost use Rattle.std.specs.Prelude.{◌≡◌, ◌++◌, ◌∷◌, [], None, Some, Ok, not, OnOk, IfOk};
ghost use Rattle.and_policy.specs.Checks.{first_failing, unless};
ghost use Rattle.and_policy.specs.Logs as logs;
ghost use Rattle.and_policy.specs.Owners as owners;
ghost use Rattle.and_events.specs.Planned.{source_or_skip, frees, frees_at, frees_below};
ghost use Rattle.and_events.specs.Script as script;
ghost use Rattle.and_planner.specs.Standing.{standing_after, number_of};

use crate::holds::Holds;
use crate::moves::Moves;
use and_events::{Item, ItemFault, Items, Node, Settings, SkipReason, Step, What};
use and_policy::{Entry, EntryFault, Log, NoMemory};
use std::alloc::Global;
use std::marker::Model;

/// The plain state of a script, in a system with these settings. Contracts see the settings and the state.
#[derive(Drop)]
pub struct ScriptState {
    settings: Settings,
    log: Log,
    moves: Moves,
    holds: Holds,
}

impl Model for ScriptState {
    ghost use Rattle.std.specs.Prelude.{◌≡◌, ◌<◌};
    ghost use Rattle.std.specs.List.{All};
    ghost use Rattle.and_planner.specs.Standing.{Standing};

    ghost Value = { Standing };

    ghost view = { λ s. record { settings = s.settings; script = record { log = s.log.entries; moving = s.moves; holds = s.holds } } };

    ghost invariant = { λ s. (s.log.hosts ≡ s.settings.hosts) × All (λ m. m.to < s.settings.hosts) s.moves };
}

impl ScriptState {
    /// The state before the first item.
    pub fn make(alloc: Global, settings: Settings) -> Result<ScriptState, NoMemory>
        ensures { IfOk result (λ s. s ≡ record { settings = settings; script = script.at_start }) }
    {
        Ok(ScriptState {
            settings,
            log: Log::make(alloc, settings.hosts)?,
            moves: Moves::new(alloc),
            holds: Holds::new(alloc),
        })
    }

    // Whether the VM is live.
    fn is_live(&self, vm: u32) -> bool
        ensures { result ≡ logs.is_live self.now.script.log vm }
    {
        self.log.register().is_live(vm)
    }

    // Whether the last entry that placed the VM brought it to this host.
    fn is_at(&self, vm: u32, host: u32) -> bool
        ensures { result ≡ script.is_place (owners.place self.now.script.log vm) host }
    {
        match self.log.register().place(vm) {
            Some(at) => at == host,
            None => false,
        }
    }

    // Whether the VM is in a blackout.
    fn is_moving(&self, vm: u32) -> bool
        ensures { result ≡ script.is_moving self.now.script vm }
    {
        self.moves.has(vm)
    }

    // Whether this is held at the node.
    fn holds_at(&self, node: Node, what: What) -> bool
        ensures { result ≡ script.holds_at self.now.script node what }
    {
        self.holds.has(node, what)
    }

    // Whether there is such a node.
    fn is_node(&self, node: Node) -> bool
        ensures { result ≡ script.is_node self.now.settings node }
    {
        match node {
            Node::Host(host) => host < self.settings.hosts,
            Node::Gate(gate) => gate < self.settings.gateways,
        }
    }

    // What an entry asks beside its place in the log.
    fn check_beside(&self, entry: &Entry) -> Result<(), ItemFault>
        ensures { result ≡ unless (first_failing (script.beside self.now.script entry.now)) tt }
    {
        match *entry {
            Entry::AddVm { host, .. } => {
                if self.holds_at(Node::Host(host), What::Install) {
                    return Err(ItemFault::Held);
                }
                Ok(())
            }
            Entry::RemoveVm { vm } => {
                if self.is_moving(vm) {
                    return Err(ItemFault::Paused);
                }
                Ok(())
            }
            _ => Ok(()),
        }
    }

    // What `check` answers of an entry.
    fn check_entry(&self, entry: &Entry) -> Result<(), ItemFault>
        ensures { result ≡ unless (script.item_fault self.now.settings self.now.script (Item.Entry entry.now)) tt }
    {
        match self.log.check(entry) {
            Ok(()) => self.check_beside(entry),
            Err(fault) => Err(ItemFault::Entry(fault)),
        }
    }

    // What `check` answers of a blackout.
    fn check_blackout(&self, vm: u32, host: u32) -> Result<(), ItemFault>
        ensures { result ≡ unless (script.item_fault self.now.settings self.now.script (Item.Blackout vm host)) tt }
    {
        if !self.is_live(vm) {
            return Err(ItemFault::Entry(EntryFault::NoVm));
        }
        if !self.is_node(Node::Host(host)) {
            return Err(ItemFault::Entry(EntryFault::NoHost));
        }
        if self.is_moving(vm) {
            return Err(ItemFault::Paused);
        }
        if self.is_at(vm, host) {
            return Err(ItemFault::SameHost);
        }
        if self.holds_at(Node::Host(host), What::Install) {
            return Err(ItemFault::Held);
        }
        Ok(())
    }

    // What `check` answers of the end of a blackout.
    fn check_resume(&self, vm: u32) -> Result<(), ItemFault>
        ensures { result ≡ unless (script.item_fault self.now.settings self.now.script (Item.Resume vm)) tt }
    {
        if !self.is_live(vm) {
            return Err(ItemFault::Entry(EntryFault::NoVm));
        }
        if !self.is_moving(vm) {
            return Err(ItemFault::NotPaused);
        }
        Ok(())
    }

    // What `check` answers of a hold.
    fn check_hold(&self, node: Node, what: What) -> Result<(), ItemFault>
        ensures { result ≡ unless (script.item_fault self.now.settings self.now.script (Item.Hold node what)) tt }
    {
        if !self.is_node(node) {
            return Err(ItemFault::NoNode);
        }
        if self.holds_at(node, what) {
            return Err(ItemFault::HoldTaken);
        }
        Ok(())
    }

    // What `check` answers of the end of a hold.
    fn check_free(&self, node: Node, what: What) -> Result<(), ItemFault>
        ensures { result ≡ unless (script.item_fault self.now.settings self.now.script (Item.Free node what)) tt }
    {
        if !self.is_node(node) {
            return Err(ItemFault::NoNode);
        }
        if !self.holds_at(node, what) {
            return Err(ItemFault::NoHold);
        }
        Ok(())
    }

    /// Whether the item fits, or else the first check that it fails.
    pub fn check(&self, item: &Item) -> Result<(), ItemFault>
        ensures { result ≡ unless (script.item_fault self.now.settings self.now.script item.now) tt }
    {
        match *item {
            Item::Entry(entry) => self.check_entry(&entry),
            Item::Wait | Item::Send { .. } => Ok(()),
            Item::Blackout { vm, host } => self.check_blackout(vm, host),
            Item::Resume { vm } => self.check_resume(vm),
            Item::Hold { node, what } => self.check_hold(node, what),
            Item::Free { node, what } => self.check_free(node, what),
        }
    }

    // Appends an entry that fits.
    fn append(&mut self, alloc: Global, entry: Entry) -> Result<(), NoMemory>
        requires { script.item_fault self.old.settings self.old.script (Item.Entry entry) ≡ None }
        ensures { OnOk result (self.new ≡ standing_after self.old (Item.Entry entry)) }
    {
        self.log.append(alloc, entry)
    }

    // Puts a VM in a blackout.
    fn pause(&mut self, vm: u32, host: u32) -> Result<(), NoMemory>
        requires { script.item_fault self.old.settings self.old.script (Item.Blackout vm host) ≡ None }
        ensures { OnOk result (self.new ≡ standing_after self.old (Item.Blackout vm host)) }
    {
        self.moves.begin(vm, host)
    }

    // Lets a VM run on its new host.
    fn resume(&mut self, alloc: Global, vm: u32) -> Result<(), NoMemory>
        requires { script.item_fault self.old.settings self.old.script (Item.Resume vm) ≡ None }
        ensures { OnOk result (self.new ≡ standing_after self.old (Item.Resume vm)) }
    {
        let host = self.moves.target(vm);
        self.log.append(alloc, Entry::Place { vm, host })?;
        self.moves.end(vm);
        Ok(())
    }

    // Holds this at a node.
    fn hold(&mut self, node: Node, what: What) -> Result<(), NoMemory>
        ensures { OnOk result (self.new ≡ standing_after self.old (Item.Hold node what)) }
    {
        self.holds.add(node, what)
    }

    // Holds this at a node no longer.
    fn free(&mut self, node: Node, what: What)
        ensures { self.new ≡ standing_after self.old (Item.Free node what) }
    {
        self.holds.remove(node, what);
    }

    /// Applies an item that fits.
    pub fn apply(&mut self, alloc: Global, item: &Item) -> Result<(), NoMemory>
        requires { script.item_fault self.old.settings self.old.script item.now ≡ None }
        ensures { OnOk result (self.new ≡ standing_after self.old item.now) }
    {
        match *item {
            Item::Entry(entry) => self.append(alloc, entry),
            Item::Wait | Item::Send { .. } => Ok(()),
            Item::Blackout { vm, host } => self.pause(vm, host),
            Item::Resume { vm } => self.resume(alloc, vm),
            Item::Hold { node, what } => self.hold(node, what),
            Item::Free { node, what } => {
                self.free(node, what);
                Ok(())
            }
        }
    }

    /// The number of the live VM with this Ethernet address, which is in no blackout; or why a frame of it is skipped.
    pub fn source(&self, mac: u64) -> Result<u32, SkipReason>
        ensures { result ≡ number_of (source_or_skip self.now.script (script.source_vm self.now.script.log mac)) }
    {
        match self.log.register().by_mac(mac) {
            None => Err(SkipReason::NoSource),
            Some(vm) => {
                if self.is_moving(vm) {
                    return Err(SkipReason::PausedSource);
                }
                Ok(vm)
            }
        }
    }

    // Frees what is held at a node.
    fn free_at(&self, node: Node, steps: &mut Items<Step>) -> Result<(), NoMemory>
        ensures { OnOk result (steps.new ≡ steps.old ++ frees_at self.now.script node) }
    {
        if self.holds_at(node, What::Install) {
            let what = What::Install;
            steps.push(Step::Free { node, what })?;
        }
        if self.holds_at(node, What::Forward) {
            let what = What::Forward;
            steps.push(Step::Free { node, what })?;
        }
        Ok(())
    }

    // Frees what is held at hosts, by number.
    fn free_hosts(&self, steps: &mut Items<Step>) -> Result<(), NoMemory>
        ensures { OnOk result (steps.new ≡ steps.old ++ frees_below Node.Host self.now.script self.now.settings.hosts) }
    {
        for host in 0..self.settings.hosts {
            self.free_at(Node::Host(host), steps)?;
        }
        Ok(())
    }

    // Frees what is held at gateways, by number.
    fn free_gates(&self, steps: &mut Items<Step>) -> Result<(), NoMemory>
        ensures { OnOk result (steps.new ≡ steps.old ++ frees_below Node.Gate self.now.script self.now.settings.gateways) }
    {
        for gate in 0..self.settings.gateways {
            self.free_at(Node::Gate(gate), steps)?;
        }
        Ok(())
    }

    /// Frees all that is held: hosts before gateways, by number, installs before forwarding.
    pub fn free_all(&self, steps: &mut Items<Step>) -> Result<(), NoMemory>
        ensures { OnOk result (steps.new ≡ steps.old ++ frees self.now.settings self.now.script) }
    {
        self.free_hosts(steps)?;
        self.free_gates(steps)
    }

    /// A copy of the log's entries, the oldest first.
    pub fn to_log(&self, alloc: Global) -> Result<Items<Entry>, NoMemory>
        ensures { IfOk result (λ entries. entries ≡ self.now.script.log) }
    {
        let entries = self.log.entries().to_vec(alloc).map_err(|_| NoMemory)?;
        Ok(Items::from_vec(entries))
    }
}
