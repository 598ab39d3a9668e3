//! The tables of a host.
ghost use Rattle.std.specs.Prelude.{◌≡◌, ◌<◌, ◌++◌, ◌∷◌, [], None, List, length, option_map, OnOk, OnErr};
ghost use Rattle.std.specs.List.Sorted.{IsSortedBy};
ghost use Rattle.and_policy.specs.declared.entry.Entry.{Entry};
ghost use Rattle.and_policy.specs.declared.entry.Side.{Side};
ghost use Rattle.and_policy.specs.declared.packet.Tuple.{Tuple};
ghost use Rattle.and_policy.specs.Egress.{rule_before, verdict};
ghost use Rattle.and_policy.specs.Fitting.{IsLog};
ghost use Rattle.and_policy.specs.Logs as logs;
ghost use Rattle.and_policy.specs.Owners as owners;
ghost use Rattle.and_policy.specs.Programmes.{live, touched, entries};
ghost use Rattle.and_policy.specs.Registers.{IsRegister, HasRoom};
ghost use Rattle.and_policy.specs.Sorting.{sorted};
ghost use Rattle.and_tables.specs.Books.{IsRulebook};

use crate::index::Index;
use crate::maps::{last, last_of};
use crate::orders::live_at;
use crate::rulebook::Rulebook;
use crate::steps::{named, ticks_of};
use and_policy::{NoMemory, Op, Order, Register, Rule, Tables};
use std::alloc::Global;
use std::collections::HashMap;
use std::marker::Model;

/// The tables of a host. Contracts see the host, the number of gateways, and the operations that were applied, the oldest first.
///
/// What they answer is promised where the entries among the operations are a log.
#[derive(Drop)]
pub struct HostTables {
    /// The host.
    host: u32,
    /// How many gateways there are.
    gateways: u32,
    /// What was applied.
    ops: Vec<Op>,
    /// How many ticks.
    ticks: u32,
    /// Places by keys.
    index: Index,
    /// The VMs.
    register: Register,
    /// The live rules.
    rules: Rulebook,
}

impl Model for HostTables {
    ghost use Rattle.and_tables.specs.HostViews.{HostView};
    ghost use Rattle.and_tables.specs.Kept.{IsKept};

    ghost Value = { HostView };

    ghost view = { λ t. record { host = t.host; gateways = t.gateways; ops = t.ops.items } };

    ghost invariant = { IsKept };
}

// The register after one operation more, for which there is room.
fn note(register: &mut Register, op: &Op)
    requires { HasRoom register.old }
    ensures { (p : List Op) → IsLog None (entries (p ++ op.now ∷ [])) → IsRegister register.old (entries p) → IsRegister register.new (entries (p ++ op.now ∷ [])) }
{
    match op {
        Op::Entry(entry) => register.append(entry),
        Op::Offload(_) => {}
    }
}

// The rules after one operation more. After want of memory they are those of before.
fn note_rules(alloc: Global, rules: &mut Rulebook, op: &Op) -> Result<(), NoMemory>
    ensures ok { OnOk result ((p : List Op) → IsLog None (entries (p ++ op.now ∷ [])) → IsRulebook rules.old (entries p) → IsRulebook rules.new (entries (p ++ op.now ∷ []))) }
    ensures err { OnErr result ((k : List Entry) → IsRulebook rules.old k → IsRulebook rules.new k) }
{
    match op {
        Op::Entry(entry) => rules.append(alloc, entry),
        Op::Offload(_) => Ok(()),
    }
}

impl HostTables {
    /// The tables of no operations, for this host, with at least one gateway.
    ///
    /// # Errors
    ///
    /// Where memory is wanting; none is taken, so that never comes.
    pub fn make(alloc: Global, host: u32, gateways: u32) -> Result<HostTables, NoMemory>
        requires { 0 < gateways }
        ensures { result ≡ Ok (record { host = host; gateways = gateways; ops = [] }) }
    {
        Ok(HostTables {
            host,
            gateways,
            ops: Vec::new(alloc),
            ticks: 0,
            index: Index::new(alloc),
            register: Register::new(alloc),
            rules: Rulebook::new(alloc),
        })
    }

    /// The place of the last operation that touched the network, from 1, or 0.
    pub fn touched(&self, net: u32) -> u32
        ensures { IsLog None (entries self.now.ops) → result ≡ touched self.now.ops (length self.now.ops) net }
    {
        last(&self.index.touched, net)
    }

    /// The live order for this source network and address, the number whose highest byte is the first on the wire.
    pub fn offload(&self, net: u32, ip: u32) -> Option<Order>
        ensures { IsLog None (entries self.now.ops) → result ≡ live self.now.ops (length self.now.ops) net ip }
    {
        let place = last_of(&self.index.ordered, net, ip);
        live_at(&self.ops, self.ticks, &self.index.entered, place)
    }

    /// The network of a live VM.
    pub fn net_of(&self, vm: u32) -> Option<u32>
        ensures { IsLog None (entries self.now.ops) → result ≡ option_map (λ v. v.net) (logs.vm_of (entries self.now.ops) vm) }
    {
        match self.register.residence(vm) {
            Some(residence) => Some(residence.net),
            None => None,
        }
    }

    /// The address of a live VM, the number whose highest byte is the first on the wire.
    pub fn address(&self, vm: u32) -> Option<u32>
        ensures { IsLog None (entries self.now.ops) → result ≡ option_map (λ v. v.ip) (logs.vm_of (entries self.now.ops) vm) }
    {
        match self.register.residence(vm) {
            Some(residence) => Some(residence.ip),
            None => None,
        }
    }

    /// The live VM of the network with this address, the number whose highest byte is the first on the wire.
    pub fn owner(&self, net: u32, ip: u32) -> Option<u32>
        ensures { IsLog None (entries self.now.ops) → result ≡ owners.owner (entries self.now.ops) net ip }
    {
        self.register.owner(net, ip)
    }

    /// The live rules of the network, of both sides, by priority and number, whatever the operations are; none where there is no such network.
    pub fn rules(&self, net: u32) -> &[Rule]
        ensures rules { IsLog None (entries self.now.ops) → result.now ≡ sorted rule_before (logs.rules (entries self.now.ops) net) }
        ensures ordered { IsSortedBy rule_before result.now }
        ensures verdict { IsLog None (entries self.now.ops) → (side : Side) (x : Tuple) → verdict side x result.now ≡ verdict side x (logs.rules (entries self.now.ops) net) }
    {
        self.rules.of(net)
    }

    /// How many gateways there are: at least one.
    pub fn gateways(&self) -> u32
        ensures gateways { result ≡ self.now.gateways }
        ensures some { 0 < result }
    {
        self.gateways
    }
}

impl Tables for HostTables {
    ghost ops = { λ t. t.ops };

    ghost origin = { λ t. (t.host, t.gateways) };

    fn at(&self) -> u32 {
        self.ops.len() as u32
    }

    fn ops(&self) -> &[Op] {
        &self.ops
    }

    fn apply(&mut self, alloc: Global, op: Op) -> Result<(), NoMemory> {
        self.ops.reserve(1).map_err(|_| NoMemory)?;
        self.register.room()?;
        self.index.room(&op)?;
        note_rules(alloc, &mut self.rules, &op)?;
        let here = self.ops.len() as u32 + 1;
        let ticks = self.ticks + ticks_of(&op);
        let name = named(&self.register, &op);
        note(&mut self.register, &op);
        self.index
            .apply(&self.ops, name, &op, self.ticks, ticks, here);
        self.ops.push_reserved(op);
        self.ticks = ticks;
        Ok(())
    }
}
