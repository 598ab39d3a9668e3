//! The network that each packet carries, by the packet's number.
ghost use Rattle.std.specs.Prelude.{◌≡◌, [], slice_set, slice_index_or, IfOk};
ghost use Rattle.and_events.specs.State as states;
ghost use Rattle.and_report.specs.Nets as spec;

use crate::vm_nets::own_net;
use and_events::{Departure, End, Event, Passage, Plan};
use and_policy::{Dest, NoMemory, Placements};
use std::alloc::Global;

/// The networks before any event.
#[tactic(auto, using(crate::proofs::NetLemmas::nets_start))]
pub(crate) fn start(alloc: Global, plan: &Plan) -> Result<Vec<u32>, NoMemory>
    ensures { IfOk result (λ nets. nets.items ≡ spec.nets_in plan.now []) }
{
    vec![in alloc; 0u32; plan.packets.len()].map_err(|_| NoMemory)
}

/// The network of the packet; 0 where there is no such packet.
pub(crate) fn net_at(nets: &[u32], packet: u32) -> u32
    ensures { result ≡ slice_index_or nets.now packet 0 }
{
    match nets.get(packet as usize) {
        Some(net) => *net,
        None => 0,
    }
}

/// Notes the network of a packet, where there is such a packet.
#[tactic(auto, using(std::proofs::lemmas::List::set_past))]
fn set_net(nets: &mut Vec<u32>, packet: u32, net: u32)
    ensures { nets.new.items ≡ slice_set nets.old.items packet net }
{
    let at = packet as usize;
    if at < nets.len() {
        nets[at] = net;
    }
}

fn dest_net(own: u32, dest: Dest) -> u32
    ensures { result ≡ states.dest_net own dest }
{
    match dest {
        Dest::Offload { net, .. } => net,
        Dest::Hover { .. } => own,
    }
}

fn departs(nets: &mut Vec<u32>, own: u32, packet: u32, departure: Departure)
    ensures { nets.new.items ≡ spec.departs_under own nets.old.items packet departure }
{
    if let Departure::Allowed {
        dest,
        end: End::Queued,
        ..
    } = departure
    {
        set_net(nets, packet, dest_net(own, dest));
    }
}

fn passes(nets: &mut Vec<u32>, packet: u32, passage: Passage)
    ensures { nets.new.items ≡ spec.passes_under nets.old.items packet passage }
{
    if let Passage::Send {
        net,
        end: End::Queued,
        ..
    } = passage
    {
        set_net(nets, packet, net);
    }
}

/// Follows an event: a packet that leaves or is routed gets a network.
pub(crate) fn follow_nets(plan: &Plan, vm_nets: &Placements, nets: &mut Vec<u32>, event: &Event)
    requires { spec.AreVmNets plan.now vm_nets.now }
    ensures { nets.new.items ≡ spec.nets_after plan.now nets.old.items event.now }
{
    match *event {
        Event::Egress {
            packet,
            departure,
            ..
        } => departs(nets, own_net(plan, vm_nets, packet), packet, departure),
        Event::Route {
            packet,
            passage,
            ..
        } => passes(nets, packet, passage),
        _ => {}
    }
}
