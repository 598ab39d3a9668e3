//! The log and the nodes' programmes, and whose installers may act.
ghost use Rattle.std.specs.Prelude.{◌≡◌, ℕ, ◌+◌, ◌<◌, ◌≤◌, ◌⊎◌, ◌↔◌, ◌^◌, [], ◌∷◌, length, true, false, IsTrue, IfOk, OnOk, replicate, slice_set};
ghost use Rattle.std.specs.List.{All};
ghost use Rattle.and_events.specs.Programming.{Logs, Orders, Announces, Installs, HasInstalled, programmes_after, programme_at, announced_at, installed_at};
ghost use Rattle.and_kept.specs.Nodes as spec;
ghost use Rattle.and_kept.specs.Numbers.{has, count_below};
ghost use Rattle.and_pins.specs.Pinned.{IsLeast};
ghost use Rattle.and_policy.specs.Owners as owners;
ghost use Rattle.and_policy.specs.Programmes as programmes;

use crate::count::no_marks;
use crate::nodes::Nodes;
use crate::numbers::NumberSet;
use and_events::Given;
use and_policy::{Entry, NoMemory, Op};
use std::alloc::Global;
use std::marker::Model;

/// The log, and each node's programme with how much of it is announced and installed; at which nodes installs are held; and
/// the set of the nodes whose installers may act, which is kept where one of these changes. Nodes go by their places.
///
/// Contracts see it as the definition's components, beside the number of entries that the log has room for and, by node, of
/// operations that the programme has room for.
#[derive(Drop)]
pub struct Progress {
    nodes: Nodes,
    held: Vec<bool>,
    ready: NumberSet,
}

impl Model for Progress {
    ghost use Rattle.and_kept.specs.Nodes.{Progressed, AreReadied};

    ghost Value = { Progressed };

    ghost view = { λ p. record { programmes = p.nodes.programmes; limit = p.nodes.limit; rooms = p.nodes.rooms; held = p.held.items; least = p.nodes.least } };

    ghost invariant = { λ p. AreReadied p.nodes.programmes p.held.items p.ready };
}

// Whether the node's installer may announce or install.
#[tactic(auto, unfolding(crate::specs::Nodes::is_ready))]
fn is_ready(nodes: &Nodes, held: &Vec<bool>, node: u32) -> bool
    requires node { node < length nodes.now.programmes.ops }
    requires held { length held.now.items ≡ length nodes.now.programmes.ops }
    ensures { result ≡ spec.is_ready nodes.now.programmes held.now.items node }
{
    let place = node as usize;
    let announced = nodes.announced(place);
    let installed = nodes.installed(place);
    let count = nodes.programme(place).len();
    installed < announced
        || (!held[place] && (announced == installed && (announced as usize) < count))
}

// Looks again at the nodes from `range.0` on and below `range.1`.
fn refresh(nodes: &Nodes, held: &Vec<bool>, ready: &mut NumberSet, range: (u32, u32))
    requires held { length held.now.items ≡ length nodes.now.programmes.ops }
    requires size { ready.old.size ≡ length nodes.now.programmes.ops }
    requires high { range.1 ≤ length nodes.now.programmes.ops }
    ensures size { ready.new.size ≡ ready.old.size }
    ensures told { (k : ℕ) → k < length nodes.now.programmes.ops → ((range.0 ≤ k) × (k < range.1)) ⊎ (has ready.old k ≡ spec.is_ready nodes.now.programmes held.now.items k) → has ready.new k ≡ spec.is_ready nodes.now.programmes held.now.items k }
{
    for node in range.0..range.1 {
        ready.put(node, is_ready(nodes, held, node));
    }
}

impl Progress {
    /// An empty log with room for `limit` entries, and so many nodes with empty programmes; nothing is held. All memory is taken here.
    pub fn make(alloc: Global, nodes: usize, limit: u32) -> Result<Progress, NoMemory>
        requires { nodes < 2 ^ 16 }
        ensures programmes { IfOk result (λ p. p.programmes ≡ record { log = []; ops = replicate nodes []; announced = replicate nodes 0; installed = replicate nodes 0 }) }
        ensures limit { IfOk result (λ p. p.limit ≡ limit) }
        ensures held { IfOk result (λ p. p.held ≡ replicate nodes false) }
        ensures least { IfOk result (λ p. p.least ≡ 0) }
    {
        let held = no_marks(alloc, nodes)?;
        let mut ready = NumberSet::make(alloc, nodes as u32)?;
        let count = nodes as u32;
        let nodes = Nodes::make(alloc, nodes, limit)?;
        refresh(&nodes, &held, &mut ready, (0, count));
        Ok(Progress { nodes, held, ready })
    }

    /// The log.
    pub fn log(&self) -> &[Entry]
        ensures { result.now ≡ self.now.programmes.log }
    {
        self.nodes.log()
    }

    /// The node's programme.
    pub fn programme(&self, node: usize) -> &[Op]
        requires { node < length self.now.programmes.ops }
        ensures { result.now ≡ programme_at self.now.programmes node }
    {
        self.nodes.programme(node)
    }

    /// How much of it is announced.
    pub fn announced(&self, node: usize) -> u32
        requires { node < length self.now.programmes.ops }
        ensures { result ≡ announced_at self.now.programmes node }
    {
        self.nodes.announced(node)
    }

    /// How much of it is installed.
    pub fn installed(&self, node: usize) -> u32
        requires { node < length self.now.programmes.ops }
        ensures { result ≡ installed_at self.now.programmes node }
    {
        self.nodes.installed(node)
    }

    /// Whether the node has installed the log entry of this number, from 1.
    pub fn has_installed(&self, node: usize, number: u32) -> bool
        requires { node < length self.now.programmes.ops }
        ensures { IsTrue result ↔ HasInstalled self.now.programmes node number }
    {
        self.nodes.has_installed(node, number)
    }

    /// Whether each node has installed its whole programme.
    pub fn all_installed(&self) -> bool
        ensures { IsTrue result ↔ ((n : ℕ) → n < length self.now.programmes.ops
            → installed_at self.now.programmes n ≡ length (programme_at self.now.programmes n)) }
    {
        self.nodes.all_installed()
    }

    /// How many log entries every node has installed.
    pub fn least(&self) -> u32
        ensures is { result ≡ self.now.least }
        ensures least { 0 < length self.now.programmes.ops → IsLeast self.now.programmes result }
    {
        self.nodes.least()
    }

    /// The network to which the log added the VM.
    pub fn net(&self, vm: u32) -> Option<u32>
        ensures { result ≡ programmes.net_of_vm self.now.programmes.log vm }
    {
        self.nodes.net(vm)
    }

    /// The number of the log entry that added the VM, from 1.
    pub fn added(&self, vm: u32) -> Option<u32>
        ensures { result ≡ programmes.added_at self.now.programmes.log vm }
    {
        self.nodes.added(vm)
    }

    /// The host where the VM is under the log.
    pub fn place(&self, vm: u32) -> Option<u32>
        ensures { result ≡ owners.place self.now.programmes.log vm }
    {
        self.nodes.place(vm)
    }

    /// Whether the node's installer may announce or install.
    pub fn is_ready(&self, node: u32) -> bool
        requires { node < length self.now.programmes.ops }
        ensures { result ≡ spec.is_ready self.now.programmes self.now.held node }
    {
        self.ready.has(node)
    }

    /// At how many nodes the installer may announce or install.
    pub fn ready_count(&self) -> u32
        ensures is { result ≡ count_below (spec.is_ready self.now.programmes self.now.held) (length self.now.programmes.ops) }
        ensures small { result < 2 ^ 16 }
    {
        self.ready.count()
    }

    /// The node whose installer may announce or install, before which it is so at `k` nodes.
    pub fn nth_ready(&self, k: u32) -> u32
        requires { k < count_below (spec.is_ready self.now.programmes self.now.held) (length self.now.programmes.ops) }
        ensures there { result < length self.now.programmes.ops }
        ensures ready { spec.is_ready self.now.programmes self.now.held result ≡ true }
        ensures rank { count_below (spec.is_ready self.now.programmes self.now.held) result ≡ k }
    {
        self.ready.nth(k)
    }

    /// The log and each programme get an entry.
    pub fn append(&mut self, entry: Entry)
        requires { length self.old.programmes.log < self.old.limit }
        ensures programmes { self.new.programmes ≡ programmes_after self.old.programmes (Logs entry) }
        ensures limit { self.new.limit ≡ self.old.limit }
        ensures held { self.new.held ≡ self.old.held }
        ensures least { self.new.least ≡ self.old.least }
    {
        self.nodes.append(entry);
        let count = self.held.len() as u32;
        refresh(&self.nodes, &self.held, &mut self.ready, (0, count));
    }

    /// Room for these orders, each in its host's programme, beside the log's entries that are still to come.
    ///
    /// # Errors
    ///
    /// Where memory is wanting; programmes, limit and holds are as before.
    pub fn room_for(&mut self, alloc: Global, orders: &[Given]) -> Result<(), NoMemory>
        requires hosts { All (λ g. g.host < length self.old.programmes.ops) orders.now }
        requires small { All (λ g. length (programme_at self.old.programmes g.host) + self.old.limit + length orders.now < 2 ^ 32) orders.now }
        ensures programmes { self.new.programmes ≡ self.old.programmes }
        ensures limit { self.new.limit ≡ self.old.limit }
        ensures held { self.new.held ≡ self.old.held }
        ensures least { self.new.least ≡ self.old.least }
        ensures room { OnOk result (spec.HasOrderRoom self.new orders.now) }
    {
        let _ = alloc;
        self.nodes.room_for(orders)
    }

    /// Each order goes to the end of its host's programme. Takes no memory.
    pub fn give(&mut self, orders: &[Given])
        requires hosts { All (λ g. g.host < length self.old.programmes.ops) orders.now }
        requires room { spec.HasOrderRoom self.old orders.now }
        ensures programmes { self.new.programmes ≡ programmes_after self.old.programmes (Orders orders.now) }
        ensures limit { self.new.limit ≡ self.old.limit }
        ensures held { self.new.held ≡ self.old.held }
        ensures least { self.new.least ≡ self.old.least }
    {
        for given in orders {
            self.give_one(*given);
        }
    }

    // One order goes to the end of its host's programme, and the host is looked at again.
    fn give_one(&mut self, given: Given)
        requires host { given.host < length self.old.programmes.ops }
        requires room { spec.HasOrderRoom self.old (given ∷ []) }
        ensures programmes { self.new.programmes ≡ programmes_after self.old.programmes (Orders (given ∷ [])) }
        ensures limit { self.new.limit ≡ self.old.limit }
        ensures rooms { self.new.rooms ≡ self.old.rooms }
        ensures held { self.new.held ≡ self.old.held }
        ensures least { self.new.least ≡ self.old.least }
    {
        self.nodes.give(given);
        let host = given.host;
        refresh(&self.nodes, &self.held, &mut self.ready, (host, host + 1));
    }

    /// The node announces how long its programme is.
    pub fn announce(&mut self, node: usize) -> u32
        requires { node < length self.old.programmes.ops }
        ensures upto { result ≡ length (programme_at self.old.programmes node) }
        ensures programmes { self.new.programmes ≡ programmes_after self.old.programmes (Announces node result) }
        ensures limit { self.new.limit ≡ self.old.limit }
        ensures held { self.new.held ≡ self.old.held }
        ensures least { self.new.least ≡ self.old.least }
    {
        let upto = self.nodes.announce(node);
        refresh(
            &self.nodes,
            &self.held,
            &mut self.ready,
            (node as u32, node as u32 + 1),
        );
        upto
    }

    /// The node has installed what it announced.
    pub fn install(&mut self, node: usize) -> u32
        requires { node < length self.old.programmes.ops }
        ensures upto { result ≡ announced_at self.old.programmes node }
        ensures programmes { self.new.programmes ≡ programmes_after self.old.programmes (Installs node result) }
        ensures limit { self.new.limit ≡ self.old.limit }
        ensures held { self.new.held ≡ self.old.held }
    {
        let upto = self.nodes.install(node);
        refresh(
            &self.nodes,
            &self.held,
            &mut self.ready,
            (node as u32, node as u32 + 1),
        );
        upto
    }

    /// Installs are held at the node, or are not.
    pub fn hold(&mut self, node: usize, on: bool)
        requires { node < length self.old.programmes.ops }
        ensures { self.new ≡ record self.old { held = slice_set self.old.held node on } }
    {
        self.held[node] = on;
        let place = node as u32;
        refresh(&self.nodes, &self.held, &mut self.ready, (place, place + 1));
    }
}
