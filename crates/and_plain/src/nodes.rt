//! What is asked of every node.
ghost use Rattle.std.specs.Prelude.{◌≡◌, ◌↔◌, ◌<◌, ℕ, [], IsTrue};
ghost use Rattle.and_events.specs.declared.event.Node as node_type;
ghost use Rattle.and_events.specs.declared.event.Queue as queues;
ghost use Rattle.and_events.specs.declared.event.Queue.TheVariants as queue_kinds;
ghost use Rattle.and_events.specs.declared.event.Node.TheVariants as nodes;
ghost use Rattle.and_plain.specs.Asked as spec;
ghost use Rattle.and_events.specs.Flow as flows;
ghost use Rattle.and_events.specs.Places as places;

use crate::conditions::{forward_held, has_installed, install_held};
use crate::places::{node_place, queue_place};
use crate::rows::row_at;
use crate::state::{State, installed_of, programme_of};
use and_events::{Node, Plan, Queue};

/// What may be asked of a node.
#[derive(Clone, Copy)]
pub(crate) enum NodeTest {
    /// It has installed its whole programme.
    Installed,
    /// It has, unless installs are held; and its queues are empty, unless forwarding is held.
    Rests,
    /// It has installed the log entry of this number, from 1.
    Has(u32),
}

/// Whether the queue at a place is empty.
pub(crate) fn is_empty_at(s: &State, place: usize) -> bool
    ensures { IsTrue result ↔ (flows.queue_at s.now.flow.queues place ≡ []) }
{
    row_at(&s.flow.queues, place).is_empty()
}

// Whether the node has installed its whole programme.
fn is_installed(plan: &Plan, s: &State, node: Node) -> bool
    ensures { IsTrue result ↔ spec.IsInstalled plan.now s.now node }
{
    installed_of(plan, s, node) as usize == programme_of(plan, s, node).len()
}

// Whether the host's queues are empty.
fn has_empty_host(plan: &Plan, s: &State, host: u32) -> bool
    ensures { IsTrue result
        ↔ (spec.IsEmptyAt plan.now s.now (nodes.Host host) queue_kinds.Wire
        × spec.IsEmptyAt plan.now s.now (nodes.Host host) queue_kinds.Out
        × spec.IsEmptyAt plan.now s.now (nodes.Host host) queue_kinds.Seal) }
{
    let node = Node::Host(host);
    is_empty_at(s, queue_place(&plan.settings, node, Queue::Wire))
        && is_empty_at(s, queue_place(&plan.settings, node, Queue::Out))
        && is_empty_at(s, queue_place(&plan.settings, node, Queue::Seal))
}

// Whether the gateway's queue is empty.
fn has_empty_gate(plan: &Plan, s: &State, gate: u32) -> bool
    ensures { IsTrue result ↔ spec.IsEmptyAt plan.now s.now (nodes.Gate gate) queue_kinds.Wire }
{
    is_empty_at(
        s,
        queue_place(&plan.settings, Node::Gate(gate), Queue::Wire),
    )
}

// Whether the node's queues are empty.
fn has_empty_queues(plan: &Plan, s: &State, node: Node) -> bool
    ensures { IsTrue result ↔ ((q : queues.Queue) → places.HasQueue node q → spec.IsEmptyAt plan.now s.now node q) }
{
    match node {
        Node::Host(host) => has_empty_host(plan, s, host),
        Node::Gate(gate) => has_empty_gate(plan, s, gate),
    }
}

// Whether the node has come to rest.
fn rests(plan: &Plan, s: &State, node: Node) -> bool
    ensures { IsTrue result ↔ spec.Rests plan.now s.now node }
{
    (install_held(plan, s, node) || is_installed(plan, s, node))
        && (forward_held(plan, s, node) || has_empty_queues(plan, s, node))
}

/// Whether the node passes the test.
fn is_asked(plan: &Plan, s: &State, test: NodeTest, node: Node) -> bool
    ensures { IsTrue result ↔ spec.Asked plan.now s.now test node }
{
    match test {
        NodeTest::Installed => is_installed(plan, s, node),
        NodeTest::Rests => rests(plan, s, node),
        NodeTest::Has(number) => {
            has_installed(s, node_place(&plan.settings, node), number as usize)
        }
    }
}

// Whether every host passes the test.
fn hosts_pass(plan: &Plan, s: &State, test: NodeTest) -> bool
    ensures { IsTrue result ↔ ((h : ℕ) → h < plan.now.settings.hosts → spec.Asked plan.now s.now test (nodes.Host h)) }
{
    for host in 0..plan.settings.hosts {
        if !is_asked(plan, s, test, Node::Host(host)) {
            return false;
        }
    }
    true
}

// Whether every gateway passes the test.
fn gates_pass(plan: &Plan, s: &State, test: NodeTest) -> bool
    ensures { IsTrue result ↔ ((g : ℕ) → g < plan.now.settings.gateways → spec.Asked plan.now s.now test (nodes.Gate g)) }
{
    for gate in 0..plan.settings.gateways {
        if !is_asked(plan, s, test, Node::Gate(gate)) {
            return false;
        }
    }
    true
}

/// Whether every node passes the test.
pub(crate) fn nodes_pass(plan: &Plan, s: &State, test: NodeTest) -> bool
    ensures { IsTrue result ↔ ((node : node_type.Node) → places.IsNode plan.now.settings node → spec.Asked plan.now s.now test node) }
{
    hosts_pass(plan, s, test) && gates_pass(plan, s, test)
}
