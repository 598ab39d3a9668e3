//! The state of the system.
ghost use Rattle.std.specs.Prelude.{◌≡◌, IfOk};
ghost use Rattle.and_events.specs.Ports as ports;
ghost use Rattle.and_events.specs.State as spec;

use crate::facts::vm_at;
use crate::flow::Flow;
use crate::log::place;
use crate::places::{hand_count, node_count, node_place, queue_count};
use crate::ports::port_at;
use crate::programmes::Programmes;
use crate::rows::{at_or, filled, make_rows, row_at};
use crate::usage::Used;
use and_events::{Carried, Endpoint, Items, Node, Plan};
use and_policy::{NoMemory, Op, Port};
use std::alloc::Global;
use std::marker::Model;

/// What is held at the nodes.
#[derive(Drop)]
pub struct NodeHolds {
    pub(crate) install: Vec<bool>,
    pub(crate) forward: Vec<bool>,
}

impl Model for NodeHolds {
    ghost use Rattle.and_events.specs.State as spec;

    ghost Value = { spec.NodeHolds };

    ghost view = { λ h. record { install = h.install.items; forward = h.forward.items } };
}

/// The step that is due, the log and the programmes, what is held, the ports, where packets are, and how much was sent.
#[derive(Drop)]
pub struct State {
    pub(crate) next: usize,
    pub(crate) programmes: Programmes,
    pub(crate) node_holds: NodeHolds,
    pub(crate) ports: Vec<Items<Port>>,
    pub(crate) flow: Flow,
    pub(crate) usage: Vec<Used>,
}

impl Model for State {
    ghost use Rattle.and_events.specs.State as spec;

    ghost Value = { spec.State };

    ghost view = { λ s. record { next = s.next; programmes = s.programmes; node_holds = s.node_holds; ports = s.ports.items; flow = s.flow; usage = s.usage.items } };
}

impl State {
    /// The number of the step that is due.
    pub fn next(&self) -> usize
        ensures { result ≡ self.now.next }
    {
        self.next
    }

    /// The queues, by their places.
    pub fn queues(&self) -> &[Items<u32>]
        ensures { result.now ≡ self.now.flow.queues }
    {
        &self.flow.queues
    }

    /// The port of the VM at the host.
    pub fn port(&self, host: u32, vm: u32) -> Port
        ensures { result ≡ ports.port_at self.now.ports host vm }
    {
        port_at(&self.ports, host as usize, vm as usize)
    }
}

#[tactic(auto, unfolding(and_events::specs::State::start))]
// Empty queues, free hands, and all hops left.
fn start_flow(alloc: Global, plan: &Plan) -> Result<Flow, NoMemory>
    ensures ok { IfOk result (λ flow. flow ≡ (spec.start plan.now).flow) }
{
    let settings = &plan.settings;
    let carried = Carried {
        hops: settings.hop_limit,
        sealed: false,
        net: 0,
        target: Endpoint::Host(0),
    };
    Ok(Flow {
        queues: make_rows(alloc, queue_count(settings), 0, 0)?,
        hands: filled(alloc, None, hand_count(settings))?,
        carried: filled(alloc, carried, plan.packets.len())?,
    })
}

#[tactic(auto, unfolding(and_events::specs::State::start))]
/// The state before any event: an empty log, empty programmes and queues, all ports absent, nothing held, all hops left.
pub fn start(alloc: Global, plan: &Plan) -> Result<State, NoMemory>
    ensures ok { IfOk result (λ s. s ≡ spec.start plan.now) }
{
    let nodes = node_count(&plan.settings);
    let programmes = Programmes {
        log: Vec::new(alloc),
        ops: make_rows(alloc, nodes, 0, Op::Entry(and_policy::Entry::Tick))?,
        announced: filled(alloc, 0, nodes)?,
        installed: filled(alloc, 0, nodes)?,
    };
    let node_holds = NodeHolds {
        install: filled(alloc, false, nodes)?,
        forward: filled(alloc, false, nodes)?,
    };
    let hosts = plan.settings.hosts as usize;
    Ok(State {
        next: 0,
        programmes,
        node_holds,
        ports: make_rows(alloc, plan.names.len(), hosts, Port::Absent)?,
        flow: start_flow(alloc, plan)?,
        usage: Vec::new(alloc),
    })
}

/// The node's programme.
pub fn programme_of<'a>(plan: &Plan, s: &'a State, node: Node) -> &'a [Op]
    ensures { result.now ≡ spec.programme_of plan.now s.now node }
{
    row_at(&s.programmes.ops, node_place(&plan.settings, node))
}

/// How long the programme was at the node's last announcement.
pub fn announced_of(plan: &Plan, s: &State, node: Node) -> u32
    ensures { result ≡ spec.announced_of plan.now s.now node }
{
    at_or(&s.programmes.announced, node_place(&plan.settings, node), 0)
}

/// How much of it is installed.
pub fn installed_of(plan: &Plan, s: &State, node: Node) -> u32
    ensures { result ≡ spec.installed_of plan.now s.now node }
{
    at_or(&s.programmes.installed, node_place(&plan.settings, node), 0)
}

/// The host where the packet's VM is under the log as it stands.
pub fn home(plan: &Plan, s: &State, packet: u32) -> u32
    ensures { result ≡ spec.home plan.now s.now packet }
{
    match place(&s.programmes.log, vm_at(plan, packet)) {
        Some(host) => host,
        None => 0,
    }
}
