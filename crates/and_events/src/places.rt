//! Where nodes, queues, hands and actors stand in lists.
ghost use Rattle.std.specs.Prelude.{◌≡◌, ◌+◌, ◌<◌, ◌↔◌, IsTrue};
ghost use Rattle.and_events.specs.Places as places;
ghost use Rattle.and_events.specs.Places.{node_count, queue_count, hand_count, IsSmall, IsNode, IsActor, HasQueue, Handles};
ghost use Rattle.and_events.specs.State as states;

use crate::event::{Actor, Endpoint, Node, Queue};
use crate::plan::Settings;

/// The place of a node: hosts come first, then gateways.
pub fn node_place(settings: Settings, node: Node) -> usize
    requires small { IsSmall settings }
    requires node { IsNode settings node }
    ensures place { result ≡ places.node_place settings node }
    ensures within { result < node_count settings }
{
    match node {
        Node::Host(host) => host as usize,
        Node::Gate(gateway) => settings.hosts as usize + gateway as usize,
    }
}

/// The place of a node's queue: `out` queues by host, then `seal` queues by host, then `wire` queues by node.
pub fn queue_place(settings: Settings, node: Node, queue: Queue) -> usize
    requires small { IsSmall settings }
    requires node { IsNode settings node }
    requires there { HasQueue node queue }
    ensures place { result ≡ places.queue_place settings node queue }
    ensures within { result < queue_count settings }
{
    let hosts = settings.hosts as usize;
    match (node, queue) {
        (Node::Host(host), Queue::Out) => host as usize,
        (Node::Host(host), Queue::Seal) => hosts + host as usize,
        (Node::Host(host), Queue::Wire) => 2 * hosts + host as usize,
        (Node::Gate(gateway), _) => 3 * hosts + gateway as usize,
    }
}

/// The place of an actor's hand: workers host by host, then coprocessors, then gateway workers.
pub fn hand_place(settings: Settings, actor: Actor) -> usize
    requires small { IsSmall settings }
    requires actor { IsActor settings actor }
    requires handles { Handles actor }
    ensures place { result ≡ places.hand_place settings actor }
    ensures within { result < hand_count settings }
{
    let hosts = settings.hosts as usize;
    let workers = settings.workers as usize;
    match actor {
        Actor::Worker { host, index } => host as usize * workers + index as usize,
        Actor::Coproc(host) => hosts * workers + host as usize,
        Actor::Gateway(gateway) => hosts * workers + hosts + gateway as usize,
        _ => 0,
    }
}

/// The node at which an actor works; host 0 stands in for that of the controller and the driver, which work at none.
pub fn node_of(actor: Actor) -> Node
    ensures { result ≡ places.node_of actor }
{
    match actor {
        Actor::HostInstall(host) | Actor::Coproc(host) => Node::Host(host),
        Actor::Worker { host, .. } => Node::Host(host),
        Actor::GateInstall(gateway) | Actor::Gateway(gateway) => Node::Gate(gateway),
        Actor::Controller | Actor::Driver => Node::Host(0),
    }
}

/// The node at which a send for an endpoint arrives.
pub fn node_at(target: Endpoint) -> Node
    ensures { result ≡ states.node_at target }
{
    match target {
        Endpoint::Host(host) => Node::Host(host),
        Endpoint::Route(gateway) | Endpoint::Redirect(gateway) => Node::Gate(gateway),
    }
}

/// The host that a node is; 0 for a gateway.
pub fn host_of(node: Node) -> u32
    ensures { result ≡ states.host_of node }
{
    match node {
        Node::Host(host) => host,
        Node::Gate(_) => 0,
    }
}

/// Whether it is an actor of these settings.
pub fn is_actor(settings: Settings, actor: Actor) -> bool
    ensures { IsTrue result ↔ IsActor settings actor }
{
    match actor {
        Actor::HostInstall(host) | Actor::Coproc(host) => host < settings.hosts,
        Actor::GateInstall(gateway) | Actor::Gateway(gateway) => gateway < settings.gateways,
        Actor::Worker { host, index } => host < settings.hosts && index < settings.workers,
        Actor::Controller | Actor::Driver => true,
    }
}

/// How many actors there are.
pub fn actor_count(settings: Settings) -> u32
    requires { IsSmall settings }
    ensures { result ≡ places.actor_count settings }
{
    let hands = settings.hosts * settings.workers + settings.hosts + settings.gateways;
    settings.hosts + settings.gateways + hands + 2
}

/// The actor of this number.
pub fn actor_at(settings: Settings, number: u32) -> Actor
    requires small { IsSmall settings }
    requires there { number < places.actor_count settings }
    ensures number { places.actor_number settings result ≡ number }
    ensures actor { IsActor settings result }
{
    let hosts = settings.hosts;
    let nodes = hosts + settings.gateways;
    if number < hosts {
        return Actor::HostInstall(number);
    }
    if number < nodes {
        return Actor::GateInstall(number - hosts);
    }
    actor_of_hand(settings, number - nodes)
}

// The actor whose hand is at this place; after the hands controller and driver.
fn actor_of_hand(settings: Settings, hand: u32) -> Actor
    requires small { IsSmall settings }
    requires there { hand < hand_count settings + 2 }
    ensures number { places.actor_number settings result ≡ node_count settings + hand }
    ensures actor { IsActor settings result }
{
    let hosts = settings.hosts;
    let workers = hosts * settings.workers;
    if hand < workers {
        return Actor::Worker {
            host: hand / settings.workers,
            index: hand % settings.workers,
        };
    }
    let past = hand - workers;
    if past < hosts {
        return Actor::Coproc(past);
    }
    let gateway = past - hosts;
    if gateway < settings.gateways {
        return Actor::Gateway(gateway);
    }
    if gateway == settings.gateways {
        Actor::Controller
    } else {
        Actor::Driver
    }
}
