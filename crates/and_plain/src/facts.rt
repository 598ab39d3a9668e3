//! What plan and state say of packets and nodes.
ghost use Rattle.std.specs.Prelude.{◌≡◌, length};
ghost use Rattle.and_events.specs.State as spec;

use crate::log::net_of_vm;
use and_events::{Endpoint, Node, Plan};
use and_policy::{Dest, Tuple};

/// The packet's source VM.
pub fn vm_at(plan: &Plan, packet: u32) -> u32
    ensures { result ≡ (spec.packet_at plan.now packet).vm }
{
    match plan.packets.as_slice().get(packet as usize) {
        Some(packet) => packet.vm,
        None => 0,
    }
}

/// What the switch reads of the packet's frame.
pub fn tuple_at(plan: &Plan, packet: u32) -> Tuple
    ensures { result ≡ spec.tuple_at plan.now packet }
{
    match plan.packets.as_slice().get(packet as usize) {
        Some(packet) => packet.tuple,
        None => Tuple {
            protocol: 0,
            source: 0,
            destination: 0,
            source_port: 0,
            destination_port: 0,
        },
    }
}

/// How many bytes the packet's frame has.
pub(crate) fn frame_len(plan: &Plan, packet: u32) -> usize
    ensures { result ≡ length (spec.frame_at plan.now packet) }
{
    match plan.packets.as_slice().get(packet as usize) {
        Some(packet) => packet.taken.frame.as_bytes().len(),
        None => 0,
    }
}

/// The network of the packet's source VM.
pub fn source_net(plan: &Plan, packet: u32) -> u32
    ensures { result ≡ spec.source_net plan.now packet }
{
    match net_of_vm(plan.log.as_slice(), vm_at(plan, packet)) {
        Some(net) => net,
        None => 0,
    }
}

/// Where a send for an endpoint goes.
pub fn node_at(target: Endpoint) -> Node
    ensures { result ≡ spec.node_at target }
{
    match target {
        Endpoint::Host(host) => Node::Host(host),
        Endpoint::Route(gate) | Endpoint::Redirect(gate) => Node::Gate(gate),
    }
}

/// Where a packet that may leave goes.
pub fn dest_endpoint(dest: Dest) -> Endpoint
    ensures { result ≡ spec.dest_endpoint dest }
{
    match dest {
        Dest::Offload { host, .. } => Endpoint::Host(host),
        Dest::Hover { gateway } => Endpoint::Route(gateway),
    }
}

/// With which network it goes: an order's, or its own.
pub(crate) fn dest_net(own: u32, dest: Dest) -> u32
    ensures { result ≡ spec.dest_net own dest }
{
    match dest {
        Dest::Offload { net, .. } => net,
        Dest::Hover { .. } => own,
    }
}
