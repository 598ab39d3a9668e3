//! Nodes, queues, hands and actors by number.
ghost use Rattle.std.specs.Prelude.{◌≡◌, ◌<◌, ◌≤◌, ◌*◌, ◌-◌, ◌^◌, ◌↔◌, IsTrue};
ghost use Rattle.and_events.specs.Places as spec;

use and_events::{Actor, Event, Node, Queue, Settings};

/// How many nodes there are.
pub fn node_count(s: &Settings) -> usize
    ensures { result ≡ spec.node_count s.now }
{
    s.hosts as usize + s.gateways as usize
}

/// The node's place: hosts come first, then gateways.
pub(crate) fn node_place(s: &Settings, node: Node) -> usize
    ensures { result ≡ spec.node_place s.now node }
{
    match node {
        Node::Host(host) => host as usize,
        Node::Gate(gate) => s.hosts as usize + gate as usize,
    }
}

/// Whether there is such a node.
pub(crate) fn is_node(s: &Settings, node: Node) -> bool
    ensures { IsTrue result ↔ spec.IsNode s.now node }
{
    match node {
        Node::Host(host) => host < s.hosts,
        Node::Gate(gate) => gate < s.gateways,
    }
}

/// The place of a queue; a queue that the node does not have is past all places.
pub fn queue_place(s: &Settings, node: Node, queue: Queue) -> usize
    ensures { result ≡ spec.queue_place s.now node queue }
{
    let hosts = s.hosts as usize;
    match (node, queue) {
        (Node::Host(host), Queue::Out) => host as usize,
        (Node::Host(host), Queue::Seal) => hosts + host as usize,
        (Node::Gate(_), Queue::Out | Queue::Seal) => 3 * hosts + s.gateways as usize,
        (_, Queue::Wire) => 2 * hosts + node_place(s, node),
    }
}

/// How many queues there are.
pub(crate) fn queue_count(s: &Settings) -> usize
    ensures { result ≡ spec.queue_count s.now }
{
    3 * s.hosts as usize + s.gateways as usize
}

/// How many packets the queue at a place holds.
pub fn capacity_at(s: &Settings, queue: usize) -> u32
    ensures { result ≡ spec.capacity_at s.now queue }
{
    let hosts = s.hosts as usize;
    if queue < hosts {
        s.out_queue
    } else if queue < 2 * hosts {
        s.seal_queue
    } else {
        s.wire_queue
    }
}

// The product of two numbers.
fn product(a: u32, b: u32) -> usize
    ensures value { result ≡ a * b }
    ensures bound { result ≤ (2 ^ 32 - 1) * (2 ^ 32 - 1) }
{
    a as usize * b as usize
}

/// How many hands there are.
pub fn hand_count(s: &Settings) -> usize
    ensures { result ≡ spec.hand_count s.now }
{
    product(s.hosts, s.workers) + s.hosts as usize + s.gateways as usize
}

/// The place of the actor's hand. Actors that take no packets have none: theirs is past all places.
pub fn hand_place(s: &Settings, actor: Actor) -> usize
    ensures { result ≡ spec.hand_place s.now actor }
{
    match actor {
        Actor::Worker { host, index } => product(host, s.workers) + index as usize,
        Actor::Coproc(host) => product(s.hosts, s.workers) + host as usize,
        Actor::Gateway(gate) => product(s.hosts, s.workers) + s.hosts as usize + gate as usize,
        Actor::HostInstall(_) | Actor::GateInstall(_) | Actor::Controller | Actor::Driver => {
            hand_count(s)
        }
    }
}

/// Whether there is such an actor.
pub(crate) fn is_actor(s: &Settings, actor: Actor) -> bool
    ensures { IsTrue result ↔ spec.IsActor s.now actor }
{
    match actor {
        Actor::HostInstall(host) | Actor::Coproc(host) => host < s.hosts,
        Actor::GateInstall(gate) | Actor::Gateway(gate) => gate < s.gateways,
        Actor::Worker { host, index } => host < s.hosts && index < s.workers,
        Actor::Controller | Actor::Driver => true,
    }
}

/// The node at which an actor works.
pub fn node_of(actor: Actor) -> Node
    ensures { result ≡ spec.node_of actor }
{
    match actor {
        Actor::HostInstall(host) | Actor::Worker { host, .. } | Actor::Coproc(host) => {
            Node::Host(host)
        }
        Actor::GateInstall(gate) | Actor::Gateway(gate) => Node::Gate(gate),
        Actor::Controller | Actor::Driver => Node::Host(0),
    }
}

// The actor that programmes a node.
fn installer_of(node: Node) -> Actor
    ensures { result ≡ spec.installer_of node }
{
    match node {
        Node::Host(host) => Actor::HostInstall(host),
        Node::Gate(gate) => Actor::GateInstall(gate),
    }
}

/// Whose event it is.
pub fn actor_of(event: &Event) -> Actor
    ensures { result ≡ spec.actor_of event.now }
{
    match *event {
        Event::Announce { node, .. } | Event::Installed { node, .. } => installer_of(node),
        Event::Take { actor, .. }
        | Event::Egress { actor, .. }
        | Event::Sealed { actor, .. }
        | Event::Route { actor, .. }
        | Event::Redirect { actor, .. }
        | Event::Ingress { actor, .. } => actor,
        Event::Unpin { .. } => Actor::Controller,
        _ => Actor::Driver,
    }
}
