//! The trace of lines.
ghost use Rattle.std.specs.Prelude.{◌≡◌, ◌++◌, ◌∷◌, [], map, OnOk, IfOk};
ghost use Rattle.std.specs.List.{flat_map};
ghost use Rattle.and_policy.specs.declared.decision.Name.{Name};
ghost use Rattle.and_events.specs.Run.{past};
ghost use Rattle.and_trace.specs.Spelling as spells;
ghost use Rattle.and_trace.specs.Spelling.{spaced, MovesPacket, HaveSpellings, IsSpelled};
ghost use Rattle.and_trace.specs.Grammar.{IsShort, AreShort, Spells};

use crate::put::{put, put_words};
use crate::word::{Key, Word};
use and_events::{Actor, Arrival, Departure, End, Event, Line, Node, Passage, Queue, Return};
use and_policy::{Dest, Name, NoMemory, Way};
use std::alloc::Global;

fn node_word(node: Node) -> Word
    ensures word { result ≡ spells.node_word node }
    ensures fits { IsShort (spells.node_word node) }
{
    match node {
        Node::Host(host) => Word::AtHost(host),
        Node::Gate(gate) => Word::AtGate(gate),
    }
}

// The last case is met by no event that has a spelling.
fn actor_word(actor: Actor) -> Word
    ensures word { result ≡ spells.actor_word actor }
    ensures fits { IsShort (spells.actor_word actor) }
{
    match actor {
        Actor::Worker { host, index } => Word::HostWorker { host, index },
        Actor::Coproc(host) => Word::HostCoproc(host),
        Actor::Gateway(gate) => Word::GateWorker(gate),
        _ => Word::Text(Key::Free),
    }
}

fn queue_word(queue: Queue) -> Word
    ensures { result ≡ spells.queue_word queue }
{
    match queue {
        Queue::Out => Word::Text(Key::Out),
        Queue::Wire => Word::Text(Key::Wire),
        Queue::Seal => Word::Text(Key::Seal),
    }
}

fn end_word(end: End) -> Word
    ensures { result ≡ spells.end_word end }
{
    match end {
        End::Queued => Word::Text(Key::Queued),
        End::Full => Word::Text(Key::Full),
        End::Hops => Word::Text(Key::Hops),
    }
}

fn way_word(way: Way) -> Word
    ensures { result ≡ spells.way_word way }
{
    match way {
        Way::Fast => Word::Text(Key::Fast),
        Way::Slow => Word::Text(Key::Slow),
    }
}

fn full_word(full: bool) -> Word
    ensures { result ≡ spells.full_word full }
{
    Word::Text(if full { Key::Full } else { Key::Queued })
}

fn mark_word(sealed: bool) -> Word
    ensures { result ≡ spells.mark_word sealed }
{
    Word::Text(if sealed { Key::Sealed } else { Key::Plain })
}

fn verdict_word(pass: bool) -> Word
    ensures { result ≡ spells.verdict_word pass }
{
    Word::Text(if pass { Key::Deliver } else { Key::Drop })
}

// A rule or a route, as the kind says, or the implied verdict.
fn put_name(kind: Key, by: Name, text: &mut Vec<u8>) -> Result<(), NoMemory>
    ensures text { OnOk result (text.new.items ≡ text.old.items ++ flat_map spaced (spells.name_words kind by)) }
    ensures fits { AreShort (spells.name_words kind by) }
{
    match by {
        Name::Implied => put_words(&[Word::Text(Key::Implied)], text),
        Name::Rule(number) => put_words(&[Word::Text(kind), Word::Number(number)], text),
    }
}

fn put_dest(dest: Dest, text: &mut Vec<u8>) -> Result<(), NoMemory>
    ensures text { OnOk result (text.new.items ≡ text.old.items ++ flat_map spaced (spells.dest_words dest)) }
    ensures fits { AreShort (spells.dest_words dest) }
{
    match dest {
        Dest::Offload { host, net } => put_words(
            &[
                Word::Text(Key::Offload),
                Word::AtHost(host),
                Word::Number(net),
            ],
            text,
        ),
        Dest::Hover { gateway } => put_words(
            &[Word::Text(Key::Hover), Word::AtGate(gateway)],
            text,
        ),
    }
}

// A packet that may leave.
fn put_allowed(
    by: Name,
    sealed: bool,
    dest: Dest,
    end: End,
    text: &mut Vec<u8>,
) -> Result<(), NoMemory>
    ensures text { OnOk result (text.new.items ≡ text.old.items ++ flat_map spaced (spells.departure_words (Departure.Allowed by sealed dest end))) }
    ensures fits { AreShort (spells.departure_words (Departure.Allowed by sealed dest end)) }
{
    put_words(&[Word::Text(Key::Allow)], text)?;
    put_name(Key::Rule, by, text)?;
    put_words(&[mark_word(sealed)], text)?;
    put_dest(dest, text)?;
    put_words(&[end_word(end)], text)?;
    Ok(())
}

fn put_departure(departure: Departure, text: &mut Vec<u8>) -> Result<(), NoMemory>
    ensures text { OnOk result (text.new.items ≡ text.old.items ++ flat_map spaced (spells.departure_words departure)) }
    ensures fits { AreShort (spells.departure_words departure) }
{
    match departure {
        Departure::NoVm => put_words(&[Word::Text(Key::NoVm)], text),
        Departure::Spoofed => put_words(&[Word::Text(Key::Spoofed)], text),
        Departure::Denied { number } => {
            put_words(&[Word::Text(Key::Denied), Word::Number(number)], text)
        }
        Departure::Allowed {
            by,
            sealed,
            dest,
            end,
        } => put_allowed(by, sealed, dest, end, text),
    }
}

fn put_passage(passage: Passage, text: &mut Vec<u8>) -> Result<(), NoMemory>
    ensures text { OnOk result (text.new.items ≡ text.old.items ++ flat_map spaced (spells.passage_words passage)) }
    ensures fits { AreShort (spells.passage_words passage) }
{
    match passage {
        Passage::Dropped { by } => {
            put_name(Key::Route, by, text)?;
            put_words(&[Word::Text(Key::Drop)], text)
        }
        Passage::NoOwner { by } => {
            put_name(Key::Route, by, text)?;
            put_words(&[Word::Text(Key::NoOwner)], text)
        }
        Passage::Send { by, net, host, end } => {
            put_name(Key::Route, by, text)?;
            put_words(
                &[
                    Word::Text(Key::Send),
                    Word::AtHost(host),
                    Word::Number(net),
                    end_word(end),
                ],
                text,
            )
        }
        Passage::Hops { by } => {
            put_name(Key::Route, by, text)?;
            put_words(&[Word::Text(Key::Hops)], text)
        }
    }
}

fn put_return(back: Return, text: &mut Vec<u8>) -> Result<(), NoMemory>
    ensures text { OnOk result (text.new.items ≡ text.old.items ++ flat_map spaced (spells.return_words back)) }
    ensures fits { AreShort (spells.return_words back) }
{
    match back {
        Return::NoOwner => put_words(&[Word::Text(Key::NoOwner)], text),
        Return::Send { host, end } => put_words(
            &[Word::Text(Key::Send), Word::AtHost(host), end_word(end)],
            text,
        ),
        Return::Hops => put_words(&[Word::Text(Key::Hops)], text),
    }
}

// The VM, and what the word says of it.
fn put_vm(vm: u32, what: Key, text: &mut Vec<u8>) -> Result<(), NoMemory>
    ensures text { OnOk result (text.new.items ≡ text.old.items ++ flat_map spaced (Word.Text Key.Vm ∷ Word.Number vm ∷ Word.Text what ∷ [])) }
    ensures fits { AreShort (Word.Text Key.Vm ∷ Word.Number vm ∷ Word.Text what ∷ []) }
{
    put_words(
        &[Word::Text(Key::Vm), Word::Number(vm), Word::Text(what)],
        text,
    )
}

fn put_arrival(arrival: Arrival, text: &mut Vec<u8>) -> Result<(), NoMemory>
    ensures text { OnOk result (text.new.items ≡ text.old.items ++ flat_map spaced (spells.arrival_words arrival)) }
    ensures fits { AreShort (spells.arrival_words arrival) }
{
    match arrival {
        Arrival::NoOwner => put_words(&[Word::Text(Key::NoOwner)], text),
        Arrival::Running { vm, by, pass } => {
            put_vm(vm, Key::Running, text)?;
            put_name(Key::Rule, by, text)?;
            put_words(&[verdict_word(pass)], text)
        }
        Arrival::Blackout { vm } => put_vm(vm, Key::Blackout, text),
        Arrival::Hairpin { vm, host, end } => {
            put_vm(vm, Key::Hairpin, text)?;
            put_words(&[Word::AtHost(host), end_word(end)], text)
        }
        Arrival::Absent { vm, gateway, end } => {
            put_vm(vm, Key::Absent, text)?;
            put_words(&[Word::AtGate(gateway), end_word(end)], text)
        }
    }
}

// The actor, the packet and the number of operations of a decision.
fn put_decider(actor: Actor, packet: u32, at: u32, text: &mut Vec<u8>) -> Result<(), NoMemory>
    ensures text { OnOk result (text.new.items ≡ text.old.items ++ flat_map spaced (spells.actor_word actor ∷ Word.Number packet ∷ Word.Number at ∷ [])) }
    ensures fits { AreShort (spells.actor_word actor ∷ Word.Number packet ∷ Word.Number at ∷ []) }
{
    put_words(
        &[actor_word(actor), Word::Number(packet), Word::Number(at)],
        text,
    )
}

// What the words of an event begin with.
fn kind_of(event: &Event) -> Key
    ensures { result ≡ spells.kind_of event.now }
{
    match *event {
        Event::Append { .. } => Key::Append,
        Event::Review { .. } => Key::Review,
        Event::Hold { .. } => Key::Hold,
        Event::Free { .. } => Key::Free,
        Event::Wait { .. } => Key::Wait,
        Event::Inject { .. } => Key::Inject,
        Event::Blackout { .. } => Key::Blackout,
        Event::Resume { .. } => Key::Resume,
        Event::Finish { .. } => Key::Finish,
        Event::Announce { .. } => Key::Announce,
        Event::Installed { .. } => Key::Installed,
        Event::Take { .. } => Key::Take,
        Event::Egress { .. } => Key::Egress,
        Event::Sealed { .. } => Key::Sealed,
        Event::Route { .. } => Key::Route,
        Event::Redirect { .. } => Key::Redirect,
        Event::Ingress { .. } => Key::Ingress,
        Event::Unpin { .. } => Key::Unpin,
    }
}

// The words after the first of an event that decides of a packet.
fn put_egress(
    actor: Actor,
    packet: u32,
    at: u32,
    way: Way,
    departure: Departure,
    text: &mut Vec<u8>,
) -> Result<(), NoMemory>
    ensures text { OnOk result (text.new.items ≡ text.old.items ++ flat_map spaced (spells.rest_of (Event.Egress actor packet at way departure))) }
    ensures fits { AreShort (spells.rest_of (Event.Egress actor packet at way departure)) }
{
    put_decider(actor, packet, at, text)?;
    put_words(&[way_word(way)], text)?;
    put_departure(departure, text)?;
    Ok(())
}

fn put_route(
    actor: Actor,
    packet: u32,
    at: u32,
    passage: Passage,
    text: &mut Vec<u8>,
) -> Result<(), NoMemory>
    ensures text { OnOk result (text.new.items ≡ text.old.items ++ flat_map spaced (spells.rest_of (Event.Route actor packet at passage))) }
    ensures fits { AreShort (spells.rest_of (Event.Route actor packet at passage)) }
{
    put_decider(actor, packet, at, text)?;
    put_passage(passage, text)?;
    Ok(())
}

fn put_redirect(
    actor: Actor,
    packet: u32,
    at: u32,
    back: Return,
    text: &mut Vec<u8>,
) -> Result<(), NoMemory>
    ensures text { OnOk result (text.new.items ≡ text.old.items ++ flat_map spaced (spells.rest_of (Event.Redirect actor packet at back))) }
    ensures fits { AreShort (spells.rest_of (Event.Redirect actor packet at back)) }
{
    put_decider(actor, packet, at, text)?;
    put_return(back, text)?;
    Ok(())
}

fn put_ingress(
    actor: Actor,
    packet: u32,
    at: u32,
    way: Way,
    arrival: Arrival,
    text: &mut Vec<u8>,
) -> Result<(), NoMemory>
    ensures text { OnOk result (text.new.items ≡ text.old.items ++ flat_map spaced (spells.rest_of (Event.Ingress actor packet at way arrival))) }
    ensures fits { AreShort (spells.rest_of (Event.Ingress actor packet at way arrival)) }
{
    put_decider(actor, packet, at, text)?;
    put_words(&[way_word(way)], text)?;
    put_arrival(arrival, text)?;
    Ok(())
}

// The words after the first of an event that is a step of the plan.
fn put_step(step: u32, text: &mut Vec<u8>) -> Result<(), NoMemory>
    ensures text { OnOk result (text.new.items ≡ text.old.items ++ flat_map spaced (Word.Number step ∷ [])) }
    ensures fits { AreShort (Word.Number step ∷ []) }
{
    put_words(&[Word::Number(step)], text)
}

// The words after the first of a packet's entry.
fn put_inject(step: u32, packet: u32, full: bool, text: &mut Vec<u8>) -> Result<(), NoMemory>
    ensures text { OnOk result (text.new.items ≡ text.old.items ++ flat_map spaced (spells.rest_of (Event.Inject step packet full))) }
    ensures fits { AreShort (spells.rest_of (Event.Inject step packet full)) }
{
    put_words(
        &[Word::Number(step), Word::Number(packet), full_word(full)],
        text,
    )
}

// The words after the first where an actor takes a packet.
fn put_take(actor: Actor, queue: Queue, packet: u32, text: &mut Vec<u8>) -> Result<(), NoMemory>
    ensures text { OnOk result (text.new.items ≡ text.old.items ++ flat_map spaced (spells.rest_of (Event.Take actor queue packet))) }
    ensures fits { AreShort (spells.rest_of (Event.Take actor queue packet)) }
{
    put_words(
        &[actor_word(actor), queue_word(queue), Word::Number(packet)],
        text,
    )
}

// The words after the first of a packet that a coprocessor has sealed.
fn put_sealed(actor: Actor, packet: u32, end: End, text: &mut Vec<u8>) -> Result<(), NoMemory>
    ensures text { OnOk result (text.new.items ≡ text.old.items ++ flat_map spaced (spells.rest_of (Event.Sealed actor packet end))) }
    ensures fits { AreShort (spells.rest_of (Event.Sealed actor packet end)) }
{
    put_words(
        &[actor_word(actor), Word::Number(packet), end_word(end)],
        text,
    )
}

// The words after the first of a hairpin's end.
fn put_unpin(host: u32, vm: u32, text: &mut Vec<u8>) -> Result<(), NoMemory>
    ensures text { OnOk result (text.new.items ≡ text.old.items ++ flat_map spaced (spells.rest_of (Event.Unpin host vm))) }
    ensures fits { AreShort (spells.rest_of (Event.Unpin host vm)) }
{
    put_words(&[Word::AtHost(host), Word::Number(vm)], text)
}

// The words after the first of an event of an installer.
fn put_install(node: Node, upto: u32, text: &mut Vec<u8>) -> Result<(), NoMemory>
    ensures text { OnOk result (text.new.items ≡ text.old.items ++ flat_map spaced (spells.node_word node ∷ Word.Number upto ∷ [])) }
    ensures fits { AreShort (spells.node_word node ∷ Word.Number upto ∷ []) }
{
    put_words(&[node_word(node), Word::Number(upto)], text)
}

// The words after the first of an event that moves a packet.
fn put_moved(event: &Event, text: &mut Vec<u8>) -> Result<(), NoMemory>
    ensures text { MovesPacket event.now → OnOk result (text.new.items ≡ text.old.items ++ flat_map spaced (spells.rest_of event.now)) }
    ensures fits { MovesPacket event.now → AreShort (spells.rest_of event.now) }
{
    match *event {
        Event::Take {
            actor,
            queue,
            packet,
        } => put_take(actor, queue, packet, text),
        Event::Sealed { actor, packet, end } => put_sealed(actor, packet, end, text),
        Event::Egress {
            actor,
            packet,
            at,
            way,
            departure,
        } => put_egress(actor, packet, at, way, departure, text),
        Event::Route {
            actor,
            packet,
            at,
            passage,
        } => put_route(actor, packet, at, passage, text),
        Event::Redirect {
            actor,
            packet,
            at,
            back,
        } => put_redirect(actor, packet, at, back, text),
        Event::Ingress {
            actor,
            packet,
            at,
            way,
            arrival,
        } => put_ingress(actor, packet, at, way, arrival, text),
        _ => Ok(()),
    }
}

// The words after the first.
fn put_rest(event: &Event, text: &mut Vec<u8>) -> Result<(), NoMemory>
    ensures text { OnOk result (text.new.items ≡ text.old.items ++ flat_map spaced (spells.rest_of event.now)) }
    ensures fits { AreShort (spells.rest_of event.now) }
{
    match *event {
        Event::Append { step } => put_step(step, text),
        Event::Review { step } => put_step(step, text),
        Event::Hold { step } => put_step(step, text),
        Event::Free { step } => put_step(step, text),
        Event::Wait { step } => put_step(step, text),
        Event::Blackout { step } => put_step(step, text),
        Event::Resume { step } => put_step(step, text),
        Event::Finish { step } => put_step(step, text),
        Event::Inject { step, packet, full } => put_inject(step, packet, full, text),
        Event::Announce { node, upto } => put_install(node, upto, text),
        Event::Installed { node, upto } => put_install(node, upto, text),
        Event::Unpin { host, vm } => put_unpin(host, vm, text),
        _ => put_moved(event, text),
    }
}

/// Puts the words of an event.
pub(crate) fn put_event(event: &Event, text: &mut Vec<u8>) -> Result<(), NoMemory>
    ensures text { OnOk result (text.new.items ≡ text.old.items ++ spells.said event.now) }
    ensures fits { OnOk result (AreShort (spells.rest_of event.now)) }
{
    put(kind_of(event).text().as_bytes(), text)?;
    put_rest(event, text)?;
    Ok(())
}

// The line of an event.
fn put_line(event: &Event, text: &mut Vec<u8>) -> Result<(), NoMemory>
    ensures text { OnOk result (text.new.items ≡ text.old.items ++ spells.line_of event.now) }
    ensures fits { OnOk result (AreShort (spells.rest_of event.now)) }
{
    put_event(event, text)?;
    put(b"\n", text)?;
    Ok(())
}

/// Most lines of a run take no more bytes, so the text is seldom moved to a larger place.
const LINE_ROOM: usize = 40;

/// The trace of the lines, oldest first: the first line is `andromeda trace 1`, and each event is a line of
/// words, one space between two, numbers in decimal. Each line is to have a spelling, as the lines of a run have:
/// an actor that takes no packets has no word of its own. The clause `spelled` says this: the numbers of the lines
/// are those of 32 bits, so that the events have a spelling as soon as their actors take packets; and `readable`
/// says that `read_trace` gives the events again. Want of memory is the only error.
pub fn print_trace(alloc: Global, lines: &[Line]) -> Result<Vec<u8>, NoMemory>
    ensures text { IfOk result (λ t. t.items ≡ spells.trace (past lines.now)) }
    ensures spelled { IfOk result (λ t. HaveSpellings (past lines.now) → IsSpelled (past lines.now)) }
    ensures readable { IfOk result (λ t. HaveSpellings (past lines.now) → Spells t.items (map (λ l. l.event) lines.now)) }
{
    let Ok(mut text) = Vec::with_capacity(alloc, lines.len().saturating_mul(LINE_ROOM)) else {
        return Err(NoMemory);
    };
    put(b"andromeda trace 1\n", &mut text)?;
    for line in lines {
        put_line(&line.event, &mut text)?;
    }
    Ok(text)
}
