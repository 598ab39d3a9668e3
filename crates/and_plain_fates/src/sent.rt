//! How often a packet was sent.
ghost use Rattle.std.specs.Prelude.{◌≡◌, ◌+◌, ℕ, cond, IfOk};
ghost use Rattle.and_events.specs.Flow as flows;
ghost use Rattle.and_events.specs.Run as spec;
ghost use Rattle.and_events.specs.State as states;
ghost use Rattle.and_events.specs.declared.event.Carried as carried_type;
ghost use Rattle.and_events.specs.declared.event.Endpoint as endpoint_type;
ghost use Rattle.and_events.specs.declared.event.Node as node_type;
ghost use Rattle.and_events.specs.declared.plan.Plan as plan_type;
ghost use Rattle.and_events.specs.declared.plan.Settings as settings_type;
ghost use Rattle.and_plain.specs.History.{history};

use and_events::{Arrival, Departure, End, Event, Passage, Plan, Return};
use and_policy::NoMemory;

// Whether a send of `sent` that ends so is one of the packet.
fn end_sends(packet: u32, sent: u32, end: End) -> bool
    ensures { (a q net : ℕ) (target : endpoint_type.Endpoint) → result ≡ spec.is_send packet (flows.send_by a q sent end net target) }
{
    match end {
        End::Queued => sent == packet,
        End::Full | End::Hops => false,
    }
}

// Whether the departure of `sent` is a send of the packet: what is to be sealed first is sent later.
fn departure_sends(packet: u32, sent: u32, departure: Departure) -> bool
    ensures { (s : settings_type.Settings) (own a : ℕ) (here : node_type.Node) → result ≡ spec.is_send packet (states.departs s own a sent here departure) }
{
    match departure {
        Departure::Allowed { sealed, end, .. } => {
            if sealed {
                seal_sends(packet, sent, end)
            } else {
                end_sends(packet, sent, end)
            }
        }
        Departure::NoVm | Departure::Spoofed | Departure::Denied { .. } => false,
    }
}

// A packet that is to be sealed is not sent yet.
fn seal_sends(packet: u32, sent: u32, end: End) -> bool
    ensures { (a q net : ℕ) (target : endpoint_type.Endpoint) → result ≡ spec.is_send packet (flows.seal_by a q sent end net target) }
{
    let _ = packet;
    let _ = sent;
    match end {
        End::Queued | End::Full | End::Hops => false,
    }
}

fn passage_sends(packet: u32, sent: u32, passage: Passage) -> bool
    ensures { (s : settings_type.Settings) (a : ℕ) → result ≡ spec.is_send packet (states.passes s a sent passage) }
{
    match passage {
        Passage::Send { end, .. } => end_sends(packet, sent, end),
        Passage::Dropped { .. } | Passage::NoOwner { .. } | Passage::Hops { .. } => false,
    }
}

fn return_sends(packet: u32, sent: u32, back: Return) -> bool
    ensures { (s : settings_type.Settings) (c : carried_type.Carried) (a : ℕ) → result ≡ spec.is_send packet (states.goes_back s c a sent back) }
{
    match back {
        Return::Send { end, .. } => end_sends(packet, sent, end),
        Return::NoOwner | Return::Hops => false,
    }
}

fn arrival_sends(packet: u32, sent: u32, arrival: Arrival) -> bool
    ensures { (s : settings_type.Settings) (c : carried_type.Carried) (a : ℕ) → result ≡ spec.is_send packet (states.arrives s c a sent arrival) }
{
    match arrival {
        Arrival::Hairpin { end, .. } | Arrival::Absent { end, .. } => end_sends(packet, sent, end),
        Arrival::NoOwner | Arrival::Running { .. } | Arrival::Blackout { .. } => false,
    }
}

fn injection_sends(packet: u32, sent: u32, full: bool) -> bool
    ensures { (q : ℕ) → result ≡ spec.is_send packet (flows.enter_by q sent full) }
{
    let _ = packet;
    let _ = sent;
    if full { false } else { false }
}

// Whether the event is a send of the packet.
#[tactic(auto, unfolding(and_events::specs::State::move_of))]
fn is_send(event: &Event, packet: u32) -> bool
    ensures { (plan : plan_type.Plan) (s : states.State) → result ≡ spec.is_send packet (states.move_of plan s event.now) }
{
    match *event {
        Event::Inject {
            packet: sent,
            full,
            ..
        } => injection_sends(packet, sent, full),
        Event::Egress {
            packet: sent,
            departure,
            ..
        } => departure_sends(packet, sent, departure),
        Event::Sealed {
            packet: sent,
            end,
            ..
        } => end_sends(packet, sent, end),
        Event::Route {
            packet: sent,
            passage,
            ..
        } => passage_sends(packet, sent, passage),
        Event::Redirect {
            packet: sent,
            back,
            ..
        } => return_sends(packet, sent, back),
        Event::Ingress {
            packet: sent,
            arrival,
            ..
        } => arrival_sends(packet, sent, arrival),
        _ => false,
    }
}

// One, where it holds.
fn one_if(holds: bool) -> usize
    ensures { result ≡ cond holds 1 0 }
{
    if holds { 1 } else { 0 }
}

// The sum of two numbers.
fn sum(a: usize, b: usize) -> Result<usize, NoMemory>
    ensures { IfOk result (λ n. n ≡ a + b) }
{
    match a.checked_add(b) {
        Some(n) => Ok(n),
        None => Err(NoMemory),
    }
}

/// How often the packet was sent in the events, the oldest of which is first. An error only where the number leaves its
/// type's range.
pub fn sends(plan: &Plan, events: &[Event], packet: u32) -> Result<usize, NoMemory>
    ensures ok { IfOk result (λ n. n ≡ spec.sends plan.now (history events.now) packet) }
{
    let mut count = 0;
    for (n, event) in events.iter().enumerate() {
        let next = sum(one_if(is_send(event, packet)), count)?;
        count = next;
    }
    Ok(count)
}
