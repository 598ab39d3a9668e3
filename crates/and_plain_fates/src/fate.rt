//! What became of a packet.
ghost use Rattle.std.specs.Prelude.{◌≡◌, ◌++◌, ◌∷◌, [], IfOk, OnOk};
ghost use Rattle.and_events.specs.Run as spec;
ghost use Rattle.and_plain.specs.History.{history};

use and_events::{Arrival, Departure, End, Event, Passage, Return};
use and_policy::NoMemory;
use std::alloc::Global;

fn end_fate(packet: u32, end: End) -> Option<u32>
    ensures { result ≡ spec.end_fate packet end }
{
    match end {
        End::Queued => None,
        End::Full | End::Hops => Some(packet),
    }
}

fn departure_fate(packet: u32, departure: Departure) -> Option<u32>
    ensures { result ≡ spec.departure_fate packet departure }
{
    match departure {
        Departure::Allowed { end, .. } => end_fate(packet, end),
        Departure::NoVm | Departure::Spoofed | Departure::Denied { .. } => Some(packet),
    }
}

fn passage_fate(packet: u32, passage: Passage) -> Option<u32>
    ensures { result ≡ spec.passage_fate packet passage }
{
    match passage {
        Passage::Send { end, .. } => end_fate(packet, end),
        Passage::Dropped { .. } | Passage::NoOwner { .. } | Passage::Hops { .. } => Some(packet),
    }
}

fn return_fate(packet: u32, back: Return) -> Option<u32>
    ensures { result ≡ spec.return_fate packet back }
{
    match back {
        Return::Send { end, .. } => end_fate(packet, end),
        Return::NoOwner | Return::Hops => Some(packet),
    }
}

fn arrival_fate(packet: u32, arrival: Arrival) -> Option<u32>
    ensures { result ≡ spec.arrival_fate packet arrival }
{
    match arrival {
        Arrival::Hairpin { end, .. } | Arrival::Absent { end, .. } => end_fate(packet, end),
        Arrival::NoOwner | Arrival::Running { .. } | Arrival::Blackout { .. } => Some(packet),
    }
}

/// The packet whose fate the event is.
#[tactic(auto, unfolding(and_events::specs::Run::fate_of))]
pub fn fate_of(event: &Event) -> Option<u32>
    ensures { result ≡ spec.fate_of event.now }
{
    match *event {
        Event::Inject { packet, full, .. } => { if full { Some(packet) } else { None } }
        Event::Egress {
            packet,
            departure,
            ..
        } => departure_fate(packet, departure),
        Event::Sealed { packet, end, .. } => end_fate(packet, end),
        Event::Route {
            packet,
            passage,
            ..
        } => passage_fate(packet, passage),
        Event::Redirect { packet, back, .. } => return_fate(packet, back),
        Event::Ingress {
            packet,
            arrival,
            ..
        } => arrival_fate(packet, arrival),
        _ => None,
    }
}

/// Whether the event is a fate of the packet.
pub(crate) fn is_fate(event: &Event, packet: u32) -> bool
    ensures { result ≡ spec.is_it packet (spec.fate_of event.now) }
{
    match fate_of(event) {
        Some(found) => found == packet,
        None => false,
    }
}

// Puts the event at the end.
fn put(found: &mut Vec<Event>, event: Event) -> Result<(), NoMemory>
    ensures ok { OnOk result (found.new.items ≡ found.old.items ++ event ∷ []) }
{
    match found.push(event) {
        Ok(()) => Ok(()),
        Err(_) => Err(NoMemory),
    }
}

/// The events, the oldest of which is first, that are fates of the packet: the newest comes first.
pub fn fates(alloc: Global, events: &[Event], packet: u32) -> Result<Vec<Event>, NoMemory>
    ensures ok { IfOk result (λ found. found.items ≡ spec.fates (history events.now) packet) }
{
    let mut found = Vec::new(alloc);
    let mut at = events.len();
    while at > 0 {
        at -= 1;
        if is_fate(&events[at], packet) {
            put(&mut found, events[at])?;
        }
    }
    Ok(found)
}
