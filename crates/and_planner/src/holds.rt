//! What is held at nodes.
ghost use Rattle.std.specs.Prelude.{◌≡◌, ◌++◌, ◌∷◌, [], not, map, OnOk, OnErr};
ghost use Rattle.std.specs.List.{list_any, filter};
ghost use Rattle.and_events.specs.Script as script;
ghost use Rattle.and_planner.specs.Standing.{held_at};

use and_events::{Node, What};
use and_policy::NoMemory;
use std::alloc::Global;
use std::marker::Model;

/// What is held at a node.
#[derive(Clone, Copy)]
pub struct Hold {
    /// The node.
    pub node: Node,
    /// Its installs, or its forwarding.
    pub what: What,
}

/// What is held, in the order in which that began. Contracts see the list.
#[derive(Drop)]
pub struct Holds {
    holds: Vec<Hold>,
}

impl Model for Holds {
    ghost use Rattle.std.specs.Prelude.{List, map};
    ghost use Rattle.and_events.specs.Script.{HeldAt};
    ghost use Rattle.and_planner.specs.Standing.{held_at};

    ghost Value = { List HeldAt };

    ghost view = { λ h. map held_at h.holds.items };
}

// Whether the nodes are the same.
fn same_node(a: Node, b: Node) -> bool
    ensures { result ≡ script.same_node a b }
{
    match (a, b) {
        (Node::Host(a), Node::Host(b)) => a == b,
        (Node::Gate(a), Node::Gate(b)) => a == b,
        _ => false,
    }
}

// Whether both are installs, or both forwarding.
fn same_what(a: What, b: What) -> bool
    ensures { result ≡ script.same_what a b }
{
    match (a, b) {
        (What::Install, What::Install) | (What::Forward, What::Forward) => true,
        _ => false,
    }
}

// Whether it is this that is held.
fn is_hold(node: Node, what: What, hold: &Hold) -> bool
    ensures { result ≡ script.is_hold node what (held_at hold.now) }
{
    same_node(hold.node, node) && same_what(hold.what, what)
}

// Whether this is among them.
fn is_among(holds: &[Hold], node: Node, what: What) -> bool
    ensures { result ≡ list_any (script.is_hold node what) (map held_at holds.now) }
{
    holds.iter().any(|hold| is_hold(node, what, hold))
}

// Takes this out.
fn take_out(holds: &mut Vec<Hold>, node: Node, what: What)
    ensures { map held_at holds.new.items ≡ filter (λ h. not (script.is_hold node what h)) (map held_at holds.old.items) }
{
    holds.retain(|hold| !is_hold(node, what, hold));
}

impl Holds {
    /// Nothing is held. It takes no memory.
    pub fn new(alloc: Global) -> Holds
        ensures { result ≡ [] }
    {
        Holds {
            holds: Vec::new(alloc),
        }
    }

    /// Whether this is held at the node.
    pub fn has(&self, node: Node, what: What) -> bool
        ensures { result ≡ list_any (script.is_hold node what) self.now }
    {
        is_among(&self.holds, node, what)
    }

    /// Holds this at the node. After want of memory all is held as before.
    pub fn add(&mut self, node: Node, what: What) -> Result<(), NoMemory>
        ensures ok { OnOk result (self.new ≡ self.old ++ record { node = node; what = what } ∷ []) }
        ensures err { OnErr result (self.new ≡ self.old) }
    {
        match self.holds.push(Hold { node, what }) {
            Ok(()) => Ok(()),
            Err(_) => Err(NoMemory),
        }
    }

    /// Holds this at the node no longer.
    pub fn remove(&mut self, node: Node, what: What)
        ensures { self.new ≡ filter (λ h. not (script.is_hold node what h)) self.old }
    {
        take_out(&mut self.holds, node, what);
    }
}
