//! The log of tenant commands.
ghost use Rattle.std.specs.Prelude.{◌≡◌, ◌==◌, ◌&&◌, not, [], length, None, OnOk, OnErr, IfErr};
ghost use Rattle.std.specs.List.{list_any};
ghost use Rattle.and_policy.specs.Checks.{unless};
ghost use Rattle.and_policy.specs.Fitting.{fits, no_peer, IsLog};
ghost use Rattle.and_policy.specs.LogView.{with_entry};
ghost use Rattle.and_policy.specs.Logs as logs;
ghost use Rattle.and_policy.specs.Registers.{IsRegister};

use crate::entry::{Entry, EntryFault, Route, Rule, Target};
use crate::index::Index;
use crate::memory::NoMemory;
use crate::register::Register;
use std::alloc::Global;
use std::marker::Model;

/// The most networks of a log.
const NETS: usize = 64;

/// The most VMs that a log adds.
const VMS: usize = 1_024;

/// The most live rules of a network.
const RULES: u32 = 256;

/// The most live routes of a network.
const ROUTES: u32 = 256;

/// The log: its entries, each of which fits those before it. Contracts see it as a record of the number of hosts
/// and the list of entries.
#[derive(Drop)]
pub struct Log {
    hosts: u32,
    entries: Vec<Entry>,
    index: Index,
}

impl Model for Log {
    ghost use Rattle.std.specs.Prelude.{Some};
    ghost use Rattle.and_policy.specs.LogView.{LogView};
    ghost use Rattle.and_policy.specs.Fitting.{IsLog};
    ghost use Rattle.and_policy.specs.Indexes.{IsIndex};

    ghost Value = { LogView };

    ghost view = { λ a. record { hosts = a.hosts; entries = a.entries.items } };

    ghost invariant = { λ a. IsLog (Some a.hosts) a.entries.items × IsIndex a.index a.entries.items };
}

impl Log {
    /// The log without entries of a system with this many hosts.
    ///
    /// # Errors
    ///
    /// Where memory is wanting; none is taken, so that never comes.
    pub fn make(alloc: Global, hosts: u32) -> Result<Log, NoMemory>
        ensures { result ≡ Ok (record { hosts = hosts; entries = [] }) }
    {
        Ok(Log {
            hosts,
            entries: Vec::new(alloc),
            index: Index::new(alloc),
        })
    }

    /// Whether the entry fits, or else the first check that it fails. It costs a few look-ups, however long the log is.
    pub fn check(&self, entry: &Entry) -> Result<(), EntryFault>
        ensures ok { OnOk result (fits (Some self.now.hosts) self.now.entries entry.now ≡ None) }
        ensures err { IfErr result (λ e. fits (Some self.now.hosts) self.now.entries entry.now ≡ Some e) }
    {
        match *entry {
            Entry::AddNet { net } => self.check_net(net),
            Entry::AddVm {
                vm,
                net,
                mac,
                ip,
                host,
            } => self.check_vm(vm, net, mac, ip, host),
            Entry::RemoveVm { vm } => self.check_removal(vm),
            Entry::Place { vm, host } => self.check_place(vm, host),
            Entry::AddRule { net, rule } => self.check_rule(net, &rule),
            Entry::DelRule { net, number } => self.check_rule_gone(net, number),
            Entry::AddRoute { net, route } => self.check_route(net, &route),
            Entry::DelRoute { net, number } => self.check_route_gone(net, number),
            Entry::Tick => Ok(()),
        }
    }

    // What `check` answers of an `AddNet` entry.
    fn check_net(&self, net: u32) -> Result<(), EntryFault>
        ensures { result ≡ unless (fits (Some self.now.hosts) self.now.entries (Entry.AddNet net)) tt }
    {
        if self.has_net(net) {
            return Err(EntryFault::NetTaken);
        }
        if self.net_count() >= NETS {
            return Err(EntryFault::TooMany);
        }
        Ok(())
    }

    // What `check` answers of an `AddVm` entry.
    fn check_vm(&self, vm: u32, net: u32, mac: u64, ip: u32, host: u32) -> Result<(), EntryFault>
        ensures { result ≡ unless (fits (Some self.now.hosts) self.now.entries (Entry.AddVm vm net mac ip host)) tt }
    {
        if !self.has_net(net) {
            return Err(EntryFault::NoNet);
        }
        if self.was_added(vm) {
            return Err(EntryFault::VmTaken);
        }
        if host >= self.hosts {
            return Err(EntryFault::NoHost);
        }
        if self.has_mac(mac) {
            return Err(EntryFault::MacTaken);
        }
        if self.has_address(net, ip) {
            return Err(EntryFault::AddressTaken);
        }
        if self.added_count() >= VMS {
            return Err(EntryFault::TooMany);
        }
        Ok(())
    }

    // What `check` answers of a `RemoveVm` entry.
    fn check_removal(&self, vm: u32) -> Result<(), EntryFault>
        ensures { result ≡ unless (fits (Some self.now.hosts) self.now.entries (Entry.RemoveVm vm)) tt }
    {
        if !self.is_live(vm) {
            return Err(EntryFault::NoVm);
        }
        Ok(())
    }

    // What `check` answers of a `Place` entry.
    fn check_place(&self, vm: u32, host: u32) -> Result<(), EntryFault>
        ensures { result ≡ unless (fits (Some self.now.hosts) self.now.entries (Entry.Place vm host)) tt }
    {
        if !self.is_live(vm) {
            return Err(EntryFault::NoVm);
        }
        if host >= self.hosts {
            return Err(EntryFault::NoHost);
        }
        Ok(())
    }

    // What `check` answers of an `AddRule` entry.
    fn check_rule(&self, net: u32, rule: &Rule) -> Result<(), EntryFault>
        ensures { result ≡ unless (fits (Some self.now.hosts) self.now.entries (Entry.AddRule net rule.now)) tt }
    {
        if !self.has_net(net) {
            return Err(EntryFault::NoNet);
        }
        if self.has_rule(net, rule.number) {
            return Err(EntryFault::RuleTaken);
        }
        if self.rule_count(net) >= RULES {
            return Err(EntryFault::TooMany);
        }
        Ok(())
    }

    // What `check` answers of a `DelRule` entry.
    fn check_rule_gone(&self, net: u32, number: u32) -> Result<(), EntryFault>
        ensures { result ≡ unless (fits (Some self.now.hosts) self.now.entries (Entry.DelRule net number)) tt }
    {
        if !self.has_net(net) {
            return Err(EntryFault::NoNet);
        }
        if !self.has_rule(net, number) {
            return Err(EntryFault::NoRule);
        }
        Ok(())
    }

    // What `check` answers of an `AddRoute` entry.
    fn check_route(&self, net: u32, route: &Route) -> Result<(), EntryFault>
        ensures { result ≡ unless (fits (Some self.now.hosts) self.now.entries (Entry.AddRoute net route.now)) tt }
    {
        if !self.has_net(net) {
            return Err(EntryFault::NoNet);
        }
        if !self.has_peer(route.target) {
            return Err(EntryFault::NoNet);
        }
        if self.has_route(net, route.number) {
            return Err(EntryFault::RouteTaken);
        }
        if self.route_count(net) >= ROUTES {
            return Err(EntryFault::TooMany);
        }
        Ok(())
    }

    // What `check` answers of a `DelRoute` entry.
    fn check_route_gone(&self, net: u32, number: u32) -> Result<(), EntryFault>
        ensures { result ≡ unless (fits (Some self.now.hosts) self.now.entries (Entry.DelRoute net number)) tt }
    {
        if !self.has_net(net) {
            return Err(EntryFault::NoNet);
        }
        if !self.has_route(net, number) {
            return Err(EntryFault::NoRoute);
        }
        Ok(())
    }

    /// Adds an entry that fits.
    ///
    /// # Errors
    ///
    /// Where memory is wanting; the log is then as it was.
    pub fn append(&mut self, alloc: Global, entry: Entry) -> Result<(), NoMemory>
        requires fits { fits (Some self.old.hosts) self.old.entries entry ≡ None }
        ensures ok { OnOk result (self.new ≡ with_entry self.old entry) }
        ensures err { OnErr result (self.new ≡ self.old) }
    {
        let _ = alloc;
        self.entries.reserve(1).map_err(|_| NoMemory)?;
        self.index.room()?;
        self.index.append(&entry);
        self.entries.push_reserved(entry);
        Ok(())
    }

    /// The entries, the oldest first. Each fits those before it.
    pub fn entries(&self) -> &[Entry]
        ensures entries { result.now ≡ self.now.entries }
        ensures log { IsLog (Some self.now.hosts) self.now.entries }
    {
        &self.entries
    }

    /// The VMs of the entries, by their numbers and addresses.
    pub fn register(&self) -> &Register
        ensures { IsRegister result.now self.now.entries }
    {
        &self.index.register
    }

    // Whether there is a network of this VNI.
    fn has_net(&self, net: u32) -> bool
        ensures { result ≡ logs.has_net self.now.entries net }
    {
        self.index.nets.contains(&net)
    }

    // Whether the route leads into a network that is there, or into none of another VNI.
    fn has_peer(&self, target: Target) -> bool
        ensures { result ≡ not (no_peer self.now.entries target) }
    {
        match target {
            Target::Peer(net) => self.has_net(net),
            Target::Local | Target::Drop => true,
        }
    }

    // How many networks there are.
    fn net_count(&self) -> usize
        ensures { result ≡ length (logs.nets self.now.entries) }
    {
        self.index.nets.len()
    }

    // Whether the VM was added, removed since or not.
    fn was_added(&self, vm: u32) -> bool
        ensures { result ≡ list_any (λ v. v.number == vm) (logs.added self.now.entries) }
    {
        self.register().was_added(vm)
    }

    // How many VMs were added.
    fn added_count(&self) -> usize
        ensures { result ≡ length (logs.added self.now.entries) }
    {
        self.register().added_count()
    }

    // Whether the VM is live.
    fn is_live(&self, vm: u32) -> bool
        ensures { result ≡ logs.is_live self.now.entries vm }
    {
        self.register().is_live(vm)
    }

    // Whether a live VM has this Ethernet address.
    fn has_mac(&self, mac: u64) -> bool
        ensures { result ≡ list_any (λ v. v.mac == mac) (logs.vms self.now.entries) }
    {
        self.register().has_mac(mac)
    }

    // Whether a live VM of the network has this IPv4 address.
    fn has_address(&self, net: u32, ip: u32) -> bool
        ensures { result ≡ list_any (λ v. (v.net == net) && (v.ip == ip)) (logs.vms self.now.entries) }
    {
        self.register().has_address(net, ip)
    }

    // Whether the network has a live rule of this number.
    fn has_rule(&self, net: u32, number: u32) -> bool
        ensures { result ≡ logs.has_rule self.now.entries net number }
    {
        self.index.rules.has(net, number)
    }

    // How many live rules the network has.
    fn rule_count(&self, net: u32) -> u32
        ensures { result ≡ length (logs.rules self.now.entries net) }
    {
        self.index.rules.count(net)
    }

    // Whether the network has a live route of this number.
    fn has_route(&self, net: u32, number: u32) -> bool
        ensures { result ≡ logs.has_route self.now.entries net number }
    {
        self.index.routes.has(net, number)
    }

    // How many live routes the network has.
    fn route_count(&self, net: u32) -> u32
        ensures { result ≡ length (logs.routes self.now.entries net) }
    {
        self.index.routes.count(net)
    }
}
