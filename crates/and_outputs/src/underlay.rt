//! The capture of all packets of the underlay.
ghost use Rattle.std.specs.Prelude.{◌≡◌, IfOk};
ghost use Rattle.and_events.specs.Run.{Run, past};
ghost use Rattle.and_events.specs.Sound.{IsSound};
ghost use Rattle.and_policy.specs.Placements.{ArePlacements};
ghost use Rattle.and_outputs.specs.Underlay as spec;

use crate::file::{record_len, start};
use crate::moved::{moved_by, note, sender, sent_packet, unsent};
use crate::sending::put_send;
use and_events::{Line, Plan};
use and_parcel::OUTER_LEN;
use and_policy::{NoMemory, Placements};
use std::alloc::Global;

/// The link type of packets that begin with their IP header.
const RAW_IP: u32 = 101;

// Where the VMs of the plan's log are.
fn places_of(alloc: Global, plan: &Plan) -> Result<Placements, NoMemory>
    ensures { IfOk result (λ places. ArePlacements places plan.now.log) }
{
    let log = plan.log.as_slice();
    let mut places = Placements::new(alloc);
    places.room(log.len())?;
    for entry in log {
        places.append(entry);
    }
    Ok(places)
}

// How many bytes all records will have.
fn room(plan: &Plan, lines: &[Line]) -> usize {
    let mut room = 0usize;
    for line in lines {
        if let Some(packet) = sent_packet(&line.event) {
            let len = record_len(plan, packet).saturating_add(OUTER_LEN);
            room = room.saturating_add(len);
        }
    }
    room
}

/// The capture of the packets of the underlay, one for each send, in the order of sends: the outer headers of that send, and the
/// frame. Each has the time of its frame; both its lengths are those of the packet. It is a file of packets that begin with their IP
/// header (link type 101), in the unit of time of the input capture, low byte first. Want of memory is the one error.
pub fn underlay_capture(alloc: Global, plan: &Plan, lines: &[Line]) -> Result<Vec<u8>, NoMemory>
    requires sound { IsSound plan.now }
    requires run { Run plan.now (past lines.now) }
    ensures capture { IfOk result (λ out. out.items ≡ spec.underlay plan.now (past lines.now)) }
{
    let places = places_of(alloc, plan)?;
    let mut carried = unsent(alloc, plan)?;
    let mut out = start(alloc, plan.nanos, RAW_IP, room(plan, lines))?;
    for line in lines {
        let moved = moved_by(plan, &places, &carried, &line.event);
        put_send(alloc, plan, sender(&line.event), &carried, moved, &mut out)?;
        note(&mut carried, moved);
    }
    Ok(out)
}
