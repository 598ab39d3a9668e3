//! The capture of all frames that were delivered.
ghost use Rattle.std.specs.Prelude.{◌≡◌, ◌∷◌, List, IfOk, OnOk};
ghost use Rattle.and_events.specs.declared.event.Event.{Event};
ghost use Rattle.and_events.specs.Run.{past};
ghost use Rattle.and_outputs.specs.Delivered as spec;

use crate::file::{frame_of, put_record, record_len, start};
use and_events::{Arrival, Event, Line, Plan};
use and_policy::NoMemory;
use std::alloc::Global;

/// The link type of Ethernet.
const ETHERNET: u32 = 1;

// The packet that an event delivers.
fn delivered_by(event: &Event) -> Option<u32>
    ensures { result ≡ spec.delivered_by event.now }
{
    match *event {
        Event::Ingress {
            packet,
            arrival: Arrival::Running { pass: true, .. },
            ..
        } => Some(packet),
        _ => None,
    }
}

// Puts the frame that an event delivers.
fn put_delivery(plan: &Plan, event: &Event, out: &mut Vec<u8>) -> Result<(), NoMemory>
    ensures { OnOk result ((h : List Event) → out.old.items ≡ spec.delivered plan.now h → out.new.items ≡ spec.delivered plan.now (event.now ∷ h)) }
{
    match delivered_by(event) {
        Some(packet) => {
            put_record(out, &frame_of(plan, packet))?;
            Ok(())
        }
        None => Ok(()),
    }
}

// How many bytes all records will have.
fn room(plan: &Plan, lines: &[Line]) -> usize {
    let mut room = 0usize;
    for line in lines {
        if let Some(packet) = delivered_by(&line.event) {
            room = room.saturating_add(record_len(plan, packet));
        }
    }
    room
}

/// The capture of the frames that were delivered, as the input capture has them: bytes, time and original length, in the order
/// of deliveries. It is a file for Ethernet (link type 1), in the unit of time of the input capture, low byte first. Whether the
/// lines are legal does not matter. Want of memory is the one error.
pub fn delivered_capture(alloc: Global, plan: &Plan, lines: &[Line]) -> Result<Vec<u8>, NoMemory>
    ensures capture { IfOk result (λ out. out.items ≡ spec.delivered plan.now (past lines.now)) }
{
    let mut out = start(alloc, plan.nanos, ETHERNET, room(plan, lines))?;
    for line in lines {
        put_delivery(plan, &line.event, &mut out)?;
    }
    Ok(out)
}
