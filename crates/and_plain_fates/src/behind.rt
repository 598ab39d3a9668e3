//! The decisions about a packet, each with the log entries behind it.
ghost use Rattle.std.specs.Prelude.{◌≡◌, ◌++◌, ◌∷◌, OnOk, IfOk};
ghost use Rattle.and_policy.specs.Programmes as programmes;
ghost use Rattle.and_events.specs.Just as spec;
ghost use Rattle.and_events.specs.Legal as legal;
ghost use Rattle.and_plain.specs.History.{history};
ghost use Rattle.and_plain_fates.specs.Behind as behind;

use and_events::{Actor, Departure, Event, Items, Passage, Plan};
use and_plain::{State, after, clamp, node_of, programme_of, start};
use and_policy::{Entry, NoMemory, Op};
use std::alloc::Global;
use std::marker::Model;

/// An Egress: the log entries behind it, and what it says.
#[derive(Drop)]
pub struct Left {
    pub(crate) behind: Items<Entry>,
    pub(crate) said: Departure,
}

impl Model for Left {
    ghost use Rattle.and_events.specs.Just as spec;

    ghost Value = { spec.Left };

    ghost view = { λ l. record { behind = l.behind; said = l.said } };
}

/// A Route: the log entries behind it, and what it says.
#[derive(Drop)]
pub struct Led {
    pub(crate) behind: Items<Entry>,
    pub(crate) said: Passage,
}

impl Model for Led {
    ghost use Rattle.and_events.specs.Just as spec;

    ghost Value = { spec.Led };

    ghost view = { λ l. record { behind = l.behind; said = l.said } };
}

// Puts the log entries among the operations at the end.
#[tactic(auto, using(std::proofs::Common::append_assoc))]
fn put_entries(all: &mut Items<Entry>, ops: &[Op]) -> Result<(), NoMemory>
    ensures ok { OnOk result (all.new ≡ all.old ++ programmes.entries ops.now) }
{
    match ops {
        [] => Ok(()),
        [Op::Entry(entry), rest @ ..] => {
            all.push(*entry)?;
            put_entries(all, rest)
        }
        [Op::Offload(_), rest @ ..] => put_entries(all, rest),
    }
}

/// The log entries behind a decision of the actor at this number.
pub(crate) fn entries_at(
    alloc: Global,
    plan: &Plan,
    s: &State,
    actor: Actor,
    at: u32,
) -> Result<Items<Entry>, NoMemory>
    ensures ok { IfOk result (λ all. all ≡ legal.entries_at plan.now s.now actor at) }
{
    let ops = programme_of(plan, s, node_of(actor));
    let count = clamp(ops, at);
    let mut all = Items::new(alloc);
    put_entries(&mut all, &ops[..count as usize])?;
    Ok(all)
}

// Puts an Egress in front.
fn put_left(found: &mut Vec<Left>, left: Left) -> Result<(), NoMemory>
    ensures ok { OnOk result (found.new.items ≡ left ∷ found.old.items) }
{
    match found.insert(0, left) {
        Ok(()) => Ok(()),
        Err(_) => Err(NoMemory),
    }
}

// Puts a Route in front.
fn put_led(found: &mut Vec<Led>, led: Led) -> Result<(), NoMemory>
    ensures ok { OnOk result (found.new.items ≡ led ∷ found.old.items) }
{
    match found.insert(0, led) {
        Ok(()) => Ok(()),
        Err(_) => Err(NoMemory),
    }
}

// The Egresses of the packet, one event further.
fn add_egress(
    alloc: Global,
    plan: &Plan,
    s: &State,
    found: &mut Vec<Left>,
    event: &Event,
    packet: u32,
) -> Result<(), NoMemory>
    ensures ok { OnOk result (found.new.items ≡ behind.with_egress plan.now s.now packet found.old.items event.now) }
{
    match *event {
        Event::Egress {
            actor,
            packet: decided,
            at,
            departure,
            ..
        } => {
            if decided != packet {
                return Ok(());
            }
            let entries = entries_at(alloc, plan, s, actor, at)?;
            put_left(
                found,
                Left {
                    behind: entries,
                    said: departure,
                },
            )
        }
        _ => Ok(()),
    }
}

// The Routes of the packet, one event further.
fn add_route(
    alloc: Global,
    plan: &Plan,
    s: &State,
    found: &mut Vec<Led>,
    event: &Event,
    packet: u32,
) -> Result<(), NoMemory>
    ensures ok { OnOk result (found.new.items ≡ behind.with_route plan.now s.now packet found.old.items event.now) }
{
    match *event {
        Event::Route {
            actor,
            packet: decided,
            at,
            passage,
        } => {
            if decided != packet {
                return Ok(());
            }
            let entries = entries_at(alloc, plan, s, actor, at)?;
            put_led(
                found,
                Led {
                    behind: entries,
                    said: passage,
                },
            )
        }
        _ => Ok(()),
    }
}

/// The Egresses of the packet among the events, the oldest of which is first: the newest comes first.
pub fn egresses(
    alloc: Global,
    plan: &Plan,
    events: &[Event],
    packet: u32,
) -> Result<Vec<Left>, NoMemory>
    ensures ok { IfOk result (λ found. found.items ≡ spec.egresses plan.now (history events.now) packet) }
{
    let mut s = start(alloc, plan)?;
    let mut found = Vec::new(alloc);
    for (n, event) in events.iter().enumerate() {
        add_egress(alloc, plan, &s, &mut found, event, packet)?;
        after(alloc, plan, &mut s, event)?;
    }
    Ok(found)
}

/// The Routes of the packet among the events, the oldest of which is first: the newest comes first.
pub fn routes(
    alloc: Global,
    plan: &Plan,
    events: &[Event],
    packet: u32,
) -> Result<Vec<Led>, NoMemory>
    ensures ok { IfOk result (λ found. found.items ≡ spec.passages_of plan.now (history events.now) packet) }
{
    let mut s = start(alloc, plan)?;
    let mut found = Vec::new(alloc);
    for (n, event) in events.iter().enumerate() {
        add_route(alloc, plan, &s, &mut found, event, packet)?;
        after(alloc, plan, &mut s, event)?;
    }
    Ok(found)
}
