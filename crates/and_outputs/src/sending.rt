//! One packet of the underlay, as a record.
ghost use Rattle.std.specs.Prelude.{◌≡◌, List, Some, OnOk};
ghost use Rattle.and_events.specs.OuterPackets as packets;
ghost use Rattle.and_events.specs.OuterPackets.{Sent, with_sent};
ghost use Rattle.and_events.specs.State as states;
ghost use Rattle.and_outputs.specs.Moves as moves;
ghost use Rattle.and_outputs.specs.Sending.{CanPut, CanSend, HasAddress};
ghost use Rattle.and_outputs.specs.Underlay as spec;

use crate::file::{Record, frame_of, put_record};
use crate::moved::{Moved, Trip, carried_at};
use and_events::{Carried, Endpoint, Node, Plan};
use and_parcel::{OUTER_LEN, Outer, Parcel, entropy_port};
use and_policy::{NoMemory, flow_hash, host_address, redirect_address, route_address};
use std::alloc::Global;

/// How many VNIs there are (RFC 7348, section 5).
const VNIS: u32 = 1 << 24;

// The underlay address from which a node sends.
fn source_address(node: Node) -> u32
    requires { HasAddress node }
    ensures { result ≡ packets.source_address node }
{
    match node {
        Node::Host(host) => host_address(host),
        Node::Gate(gateway) => route_address(gateway),
    }
}

// The underlay address of an endpoint.
fn endpoint_address(target: Endpoint) -> u32
    requires { HasAddress (states.node_at target) }
    ensures { result ≡ packets.endpoint_address target }
{
    match target {
        Endpoint::Host(host) => host_address(host),
        Endpoint::Route(gateway) => route_address(gateway),
        Endpoint::Redirect(gateway) => redirect_address(gateway),
    }
}

// Puts the packet of a send, with what is known of it just before: 36 bytes of outer headers, and the frame.
fn put_packet(
    alloc: Global,
    plan: &Plan,
    here: Node,
    carried: Carried,
    trip: Trip,
    out: &mut Vec<u8>,
) -> Result<(), NoMemory>
    requires { CanSend plan.now here carried trip }
    ensures { OnOk result ((sents : List Sent) → out.old.items ≡ spec.underlay_of plan.now sents
        → out.new.items ≡ spec.underlay_of plan.now (with_sent sents (Some (moves.sent_with plan.now here carried trip)))) }
{
    let packet = &plan.packets.as_slice()[trip.packet as usize];
    let frame = packet.taken.frame.as_bytes();
    let mut parcel = Parcel::make(alloc, frame, trip.packet, packet.vm)?;
    parcel.wrap(&Outer {
        source: source_address(here),
        destination: endpoint_address(trip.target),
        ttl: carried.hops as u8,
        vni: trip.net % VNIS,
        source_port: entropy_port(flow_hash(&packet.tuple)),
        sealed: carried.sealed,
    });
    put_record(
        out,
        &Record {
            seconds: packet.taken.seconds,
            fraction: packet.taken.fraction,
            original: (OUTER_LEN + frame.len()) as u32,
            frame: parcel.wire(),
        },
    )?;
    Ok(())
}

/// Puts the packet that enters the underlay by an event, if one does.
pub(crate) fn put_send(
    alloc: Global,
    plan: &Plan,
    here: Node,
    carried: &[Carried],
    moved: Moved,
    out: &mut Vec<u8>,
) -> Result<(), NoMemory>
    requires { CanPut plan.now here carried.now moved }
    ensures { OnOk result ((sents : List Sent) → out.old.items ≡ spec.underlay_of plan.now sents
        → out.new.items ≡ spec.underlay_of plan.now (with_sent sents (moves.sent_by plan.now here carried.now moved))) }
{
    match moved {
        Moved::Sent(trip) => {
            let known = carried_at(carried, trip.packet);
            put_packet(alloc, plan, here, known, trip, out)
        }
        Moved::Not | Moved::Waits(_) => Ok(()),
    }
}
