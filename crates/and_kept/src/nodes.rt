//! The log and the nodes' programmes.
ghost use Rattle.std.specs.Prelude.{◌≡◌, ℕ, ◌+◌, ◌-◌, ◌<◌, ◌≤◌, ◌↔◌, ◌^◌, List, [], ◌∷◌, ◌++◌, length, map, true, IsTrue, IfOk, OnOk, replicate, slice_set};
ghost use Rattle.std.specs.List.{All};
ghost use Rattle.and_policy.specs.declared.entry.Op.TheVariants as ops;
ghost use Rattle.and_policy.specs.Owners as owners;
ghost use Rattle.and_policy.specs.Programmes as programmes;
ghost use Rattle.and_events.specs.Programming.{Logs, Orders, Announces, Installs, HasInstalled, programmes_after, programme_at, announced_at, installed_at};
ghost use Rattle.and_kept.specs.Nodes.{Programmed, with_entry, with_op, is_behind, height, heights, node_at, room_at, HasRoomFor, HaveRoom};
ghost use Rattle.and_pins.specs.Pinned.{IsLeast};

use crate::count::one_if;
use crate::floor::{Floor, risen};
use crate::programme::Programme;
use and_events::Given;
use and_policy::{Entry, NoMemory, Op, Order, Placements};
use std::alloc::Global;
use std::marker::Model;

/// The log, and each node's programme with how much of it is announced and installed. Nodes go by their places.
///
/// Contracts see it as the definition's component, beside the number of entries that the log has room for and, by node, of
/// operations that the programme has room for.
#[derive(Drop)]
pub(crate) struct Nodes {
    log: Vec<Entry>,
    nodes: Vec<Programme>,
    placements: Placements,
    behind: usize,
    floor: Floor,
    limit: u32,
}

impl Model for Nodes {
    ghost use Rattle.std.specs.Prelude.{vec_capacity};
    ghost use Rattle.and_kept.specs.Nodes.{NodesView, programmes_of, rooms_of, heights, IsProgress, IsFloor};

    ghost Value = { NodesView };

    ghost view = { λ p. record { programmes = programmes_of p.log.items p.nodes.items; limit = p.limit; rooms = rooms_of p.nodes.items; least = p.floor.least } };

    ghost invariant = { λ p. IsProgress p.log.items p.nodes.items p.placements p.behind p.limit (vec_capacity p.log) × IsFloor (heights p.nodes.items) p.floor.least p.floor.count };
}

#[tactic(auto, unfolding(and_events::specs::Programming::programmes_after))]
impl Nodes {
    /// An empty log with room for `limit` entries, and so many nodes with empty programmes. All memory is taken here.
    pub(crate) fn make(alloc: Global, nodes: usize, limit: u32) -> Result<Nodes, NoMemory>
        ensures programmes { IfOk result (λ p. p.programmes ≡ record { log = []; ops = replicate nodes []; announced = replicate nodes 0; installed = replicate nodes 0 }) }
        ensures limit { IfOk result (λ p. p.limit ≡ limit) }
        ensures least { IfOk result (λ p. p.least ≡ 0) }
    {
        let Ok(log) = Vec::with_capacity(alloc, limit as usize) else {
            return Err(NoMemory);
        };
        let mut placements = Placements::new(alloc);
        placements.room(limit as usize)?;
        let floor = Floor {
            least: 0,
            count: nodes,
        };
        let nodes = make_nodes(alloc, nodes, limit)?;
        Ok(Nodes {
            log,
            nodes,
            placements,
            behind: 0,
            floor,
            limit,
        })
    }

    /// The log.
    pub(crate) fn log(&self) -> &[Entry]
        ensures { result.now ≡ self.now.programmes.log }
    {
        self.log.as_slice()
    }

    /// The node's programme.
    pub(crate) fn programme(&self, node: usize) -> &[Op]
        requires { node < length self.now.programmes.ops }
        ensures { result.now ≡ programme_at self.now.programmes node }
    {
        let node = &self.nodes[node];
        node.ops()
    }

    /// How much of it is announced.
    pub(crate) fn announced(&self, node: usize) -> u32
        requires { node < length self.now.programmes.ops }
        ensures { result ≡ announced_at self.now.programmes node }
    {
        let node = &self.nodes[node];
        node.announced()
    }

    /// How much of it is installed.
    pub(crate) fn installed(&self, node: usize) -> u32
        requires { node < length self.now.programmes.ops }
        ensures { result ≡ installed_at self.now.programmes node }
    {
        let node = &self.nodes[node];
        node.installed()
    }

    /// Whether the node has installed the log entry of this number, from 1.
    pub(crate) fn has_installed(&self, node: usize, number: u32) -> bool
        requires { node < length self.now.programmes.ops }
        ensures { IsTrue result ↔ HasInstalled self.now.programmes node number }
    {
        let node = &self.nodes[node];
        number <= node.entries_installed()
    }

    /// Whether each node has installed its whole programme.
    pub(crate) fn all_installed(&self) -> bool
        ensures { IsTrue result ↔ ((n : ℕ) → n < length self.now.programmes.ops
            → installed_at self.now.programmes n ≡ length (programme_at self.now.programmes n)) }
    {
        self.behind == 0
    }

    /// How many log entries every node has installed.
    pub(crate) fn least(&self) -> u32
        ensures is { result ≡ self.now.least }
        ensures least { 0 < length self.now.programmes.ops → IsLeast self.now.programmes result }
    {
        self.floor.least
    }

    /// The network to which the log added the VM.
    pub(crate) fn net(&self, vm: u32) -> Option<u32>
        ensures { result ≡ programmes.net_of_vm self.now.programmes.log vm }
    {
        self.placements.net(vm)
    }

    /// The number of the log entry that added the VM, from 1.
    pub(crate) fn added(&self, vm: u32) -> Option<u32>
        ensures { result ≡ programmes.added_at self.now.programmes.log vm }
    {
        self.placements.added(vm)
    }

    /// The host where the VM is under the log.
    pub(crate) fn place(&self, vm: u32) -> Option<u32>
        ensures { result ≡ owners.place self.now.programmes.log vm }
    {
        self.placements.place(vm)
    }

    /// The log and each programme get an entry.
    pub(crate) fn append(&mut self, entry: Entry)
        requires { length self.old.programmes.log < self.old.limit }
        ensures programmes { self.new.programmes ≡ programmes_after self.old.programmes (Logs entry) }
        ensures limit { self.new.limit ≡ self.old.limit }
        ensures least { self.new.least ≡ self.old.least }
    {
        push_all(&mut self.nodes, entry);
        self.behind = self.nodes.len();
        self.log.push_reserved(entry);
        self.placements.append(&entry);
    }

    /// Room for these orders, each in its host's programme, beside the log's entries that are still to come.
    ///
    /// # Errors
    ///
    /// Where memory is wanting; the programmes and the limit are as before.
    pub(crate) fn room_for(&mut self, orders: &[Given]) -> Result<(), NoMemory>
        requires hosts { All (λ g. g.host < length self.old.programmes.ops) orders.now }
        requires small { All (λ g. length (programme_at self.old.programmes g.host) + self.old.limit + length orders.now < 2 ^ 32) orders.now }
        ensures programmes { self.new.programmes ≡ self.old.programmes }
        ensures limit { self.new.limit ≡ self.old.limit }
        ensures least { self.new.least ≡ self.old.least }
        ensures room { OnOk result (HaveRoom self.new orders.now) }
    {
        for given in orders {
            self.make_room(given.host as usize, orders.len() as u32)?;
        }
        Ok(())
    }

    // Room for so many operations more at the node.
    fn make_room(&mut self, node: usize, count: u32) -> Result<(), NoMemory>
        requires node { node < length self.old.programmes.ops }
        requires small { length (programme_at self.old.programmes node) + self.old.limit + count < 2 ^ 32 }
        ensures programmes { self.new.programmes ≡ self.old.programmes }
        ensures limit { self.new.limit ≡ self.old.limit }
        ensures least { self.new.least ≡ self.old.least }
        ensures never_less { (k : ℕ) → room_at self.old.rooms k ≤ room_at self.new.rooms k }
        ensures room { OnOk result (HasRoomFor self.new count node) }
    {
        let to_come = self.limit - self.log.len() as u32;
        make_room_in(&mut self.nodes, node, to_come + count)
    }

    /// The order goes to the end of its host's programme. Takes no memory.
    pub(crate) fn give(&mut self, given: Given)
        requires host { given.host < length self.old.programmes.ops }
        requires room { HasRoomFor self.old 1 given.host }
        ensures programmes { self.new.programmes ≡ programmes_after self.old.programmes (Orders (given ∷ [])) }
        ensures limit { self.new.limit ≡ self.old.limit }
        ensures least { self.new.least ≡ self.old.least }
        ensures rooms { self.new.rooms ≡ self.old.rooms }
    {
        let host = given.host as usize;
        let was_behind = is_behind_at(&self.nodes, host);
        give_at(&mut self.nodes, host, given.order);
        self.behind = self.behind - one_if(was_behind) + 1;
    }

    /// The node announces how long its programme is.
    pub(crate) fn announce(&mut self, node: usize) -> u32
        requires { node < length self.old.programmes.ops }
        ensures upto { result ≡ length (programme_at self.old.programmes node) }
        ensures programmes { self.new.programmes ≡ programmes_after self.old.programmes (Announces node result) }
        ensures limit { self.new.limit ≡ self.old.limit }
        ensures least { self.new.least ≡ self.old.least }
    {
        announce_at(&mut self.nodes, node)
    }

    /// The node has installed what it announced.
    pub(crate) fn install(&mut self, node: usize) -> u32
        requires { node < length self.old.programmes.ops }
        ensures upto { result ≡ announced_at self.old.programmes node }
        ensures programmes { self.new.programmes ≡ programmes_after self.old.programmes (Installs node result) }
        ensures limit { self.new.limit ≡ self.old.limit }
    {
        let was_behind = is_behind_at(&self.nodes, node);
        let before = height_at(&self.nodes, node);
        let upto = install_at(&mut self.nodes, node);
        let now_behind = is_behind_at(&self.nodes, node);
        self.behind = self.behind - one_if(was_behind) + one_if(now_behind);
        let after = height_at(&self.nodes, node);
        self.floor = risen(&self.nodes, self.floor, before, after);
        upto
    }
}

// So many empty programmes with room for so many operations.
fn make_nodes(alloc: Global, count: usize, limit: u32) -> Result<Vec<Programme>, NoMemory>
    ensures { IfOk result (λ nodes. nodes.items ≡ replicate count (record { ops = []; announced = 0; installed = 0; limit = limit })) }
{
    let mut nodes: Vec<Programme> = Vec::new(alloc);
    for _node in 0..count {
        let node = Programme::make(alloc, limit)?;
        if nodes.push(node).is_err() {
            return Err(NoMemory);
        }
    }
    Ok(nodes)
}

// Each programme gets the entry.
fn push_all(nodes: &mut Vec<Programme>, entry: Entry)
    requires { All (λ n. length n.ops < n.limit) nodes.old.items }
    ensures nodes { nodes.new.items ≡ map (with_entry entry) nodes.old.items }
    ensures heights { heights nodes.new.items ≡ heights nodes.old.items }
    ensures behind { All (λ n. is_behind n ≡ true) nodes.new.items }
{
    let count = nodes.len();
    for node in 0..count {
        push_at(nodes, node, entry);
    }
}

// The node's programme gets the entry.
fn push_at(nodes: &mut Vec<Programme>, node: usize, entry: Entry)
    requires node { node < length nodes.old.items }
    requires room { length (node_at nodes.old.items node).ops < (node_at nodes.old.items node).limit }
    ensures nodes { nodes.new.items ≡ slice_set nodes.old.items node (with_entry entry (node_at nodes.old.items node)) }
    ensures heights { heights nodes.new.items ≡ heights nodes.old.items }
    ensures behind { is_behind (node_at nodes.new.items node) ≡ true }
{
    let programme = &mut nodes[node];
    programme.push(entry);
}

// Room for so many operations more in the node's programme.
fn make_room_in(nodes: &mut Vec<Programme>, node: usize, count: u32) -> Result<(), NoMemory>
    requires node { node < length nodes.old.items }
    requires small { length (node_at nodes.old.items node).ops + count < 2 ^ 32 }
    ensures nodes { nodes.new.items ≡ slice_set nodes.old.items node (record (node_at nodes.old.items node) { limit = (node_at nodes.new.items node).limit }) }
    ensures heights { heights nodes.new.items ≡ heights nodes.old.items }
    ensures never_less { (node_at nodes.old.items node).limit ≤ (node_at nodes.new.items node).limit }
    ensures room { OnOk result (length (node_at nodes.old.items node).ops + count ≤ (node_at nodes.new.items node).limit) }
{
    let programme = &mut nodes[node];
    programme.room_for(count)
}

// The node's programme gets the order.
fn give_at(nodes: &mut Vec<Programme>, node: usize, order: Order)
    requires node { node < length nodes.old.items }
    requires room { length (node_at nodes.old.items node).ops < (node_at nodes.old.items node).limit }
    ensures nodes { nodes.new.items ≡ slice_set nodes.old.items node (with_op (ops.Offload order) (node_at nodes.old.items node)) }
    ensures heights { heights nodes.new.items ≡ heights nodes.old.items }
    ensures behind { is_behind (node_at nodes.new.items node) ≡ true }
{
    let programme = &mut nodes[node];
    programme.give(order);
}

// Whether not all of the node's programme is installed.
fn is_behind_at(nodes: &[Programme], node: usize) -> bool
    requires { node < length nodes.now }
    ensures { result ≡ is_behind (node_at nodes.now node) }
{
    let entry = &nodes[node];
    entry.is_behind()
}

// How many log entries the node has installed.
fn height_at(nodes: &[Programme], node: usize) -> u32
    requires { node < length nodes.now }
    ensures { result ≡ height (node_at nodes.now node) }
{
    let entry = &nodes[node];
    entry.entries_installed()
}

// The node announces its whole programme, and how long that is.
fn announce_at(nodes: &mut Vec<Programme>, node: usize) -> u32
    requires { node < length nodes.old.items }
    ensures upto { result ≡ length (node_at nodes.old.items node).ops }
    ensures nodes { let n = node_at nodes.old.items node in nodes.new.items ≡ slice_set nodes.old.items node (record n { announced = length n.ops }) }
    ensures heights { heights nodes.new.items ≡ heights nodes.old.items }
{
    let entry = &mut nodes[node];
    entry.announce();
    entry.announced()
}

// The node has installed what it announced, and how much that is.
fn install_at(nodes: &mut Vec<Programme>, node: usize) -> u32
    requires { node < length nodes.old.items }
    ensures upto { result ≡ (node_at nodes.old.items node).announced }
    ensures nodes { let n = node_at nodes.old.items node in nodes.new.items ≡ slice_set nodes.old.items node (record n { installed = n.announced }) }
    ensures heights { heights nodes.new.items ≡ slice_set (heights nodes.old.items) node (height (node_at nodes.new.items node)) }
    ensures higher { height (node_at nodes.old.items node) ≤ height (node_at nodes.new.items node) }
{
    let entry = &mut nodes[node];
    entry.install();
    entry.installed()
}
