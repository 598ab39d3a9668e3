//! The event that a line names, where the line is one that is written for an event. Of any other line some event is given.
ghost use Rattle.std.specs.Prelude.{◌≡◌};
ghost use Rattle.and_trace.specs.Spelling.{HasSpelling};
ghost use Rattle.and_trace.specs.Fields.{name_in, past_name, allowed_in, departure_in, passage_by, passage_in, return_in, running_in, met_in, arrival_in, step_in, decides, decision_in, other_in, event_by, event_in};

use crate::words::{actor_of, cut, end_of, is, node_of, number_of, place_of, queue_of, way_of};
use and_events::{Actor, Arrival, Departure, Event, Passage, Return};
use and_policy::{Dest, Name};

/// What stands between two words.
const SPACE: u8 = b' ';

/// The name of a rule or a route, and what stands behind it.
fn named(text: &[u8]) -> (Name, &[u8])
    ensures name { result.0 ≡ name_in text.now }
    ensures rest { result.1.now ≡ past_name text.now }
{
    let (word, rest) = cut(text, SPACE);
    if is(word, "implied") {
        return (Name::Implied, rest);
    }
    let (number, rest) = cut(rest, SPACE);
    (Name::Rule(number_of(number)), rest)
}

/// A departure that is allowed, from its mark on.
fn allowed(by: Name, text: &[u8]) -> Departure
    ensures { result ≡ allowed_in by text.now }
{
    let (mark, rest) = cut(text, SPACE);
    let (kind, rest) = cut(rest, SPACE);
    let (place, rest) = cut(rest, SPACE);
    let (third, rest) = cut(rest, SPACE);
    let (fourth, _) = cut(rest, SPACE);
    let sealed = is(mark, "sealed");
    if is(kind, "hover") {
        let dest = Dest::Hover {
            gateway: place_of(place),
        };
        let end = end_of(third);
        return Departure::Allowed {
            by,
            sealed,
            dest,
            end,
        };
    }
    let dest = Dest::Offload {
        host: place_of(place),
        net: number_of(third),
    };
    let end = end_of(fourth);
    Departure::Allowed {
        by,
        sealed,
        dest,
        end,
    }
}

fn departure(text: &[u8]) -> Departure
    ensures { result ≡ departure_in text.now }
{
    let (kind, rest) = cut(text, SPACE);
    if is(kind, "novm") {
        return Departure::NoVm;
    }
    if is(kind, "spoofed") {
        return Departure::Spoofed;
    }
    if is(kind, "denied") {
        let (number, _) = cut(rest, SPACE);
        return Departure::Denied {
            number: number_of(number),
        };
    }
    let (by, rest) = named(rest);
    allowed(by, rest)
}

/// A passage by this name, from the word behind the name on.
fn passage_by(by: Name, text: &[u8]) -> Passage
    ensures { result ≡ passage_by by text.now }
{
    let (kind, rest) = cut(text, SPACE);
    if is(kind, "drop") {
        return Passage::Dropped { by };
    }
    if is(kind, "noowner") {
        return Passage::NoOwner { by };
    }
    if is(kind, "hops") {
        return Passage::Hops { by };
    }
    let (host, rest) = cut(rest, SPACE);
    let (net, rest) = cut(rest, SPACE);
    let (end, _) = cut(rest, SPACE);
    Passage::Send {
        by,
        net: number_of(net),
        host: place_of(host),
        end: end_of(end),
    }
}

fn passage(text: &[u8]) -> Passage
    ensures { result ≡ passage_in text.now }
{
    let (by, rest) = named(text);
    passage_by(by, rest)
}

fn back(text: &[u8]) -> Return
    ensures { result ≡ return_in text.now }
{
    let (kind, rest) = cut(text, SPACE);
    if is(kind, "noowner") {
        return Return::NoOwner;
    }
    if is(kind, "hops") {
        return Return::Hops;
    }
    let (host, rest) = cut(rest, SPACE);
    let (end, _) = cut(rest, SPACE);
    Return::Send {
        host: place_of(host),
        end: end_of(end),
    }
}

/// An arrival at a running VM, from the name of the rule on.
fn running(vm: u32, text: &[u8]) -> Arrival
    ensures { result ≡ running_in vm text.now }
{
    let (by, rest) = named(text);
    let (verdict, _) = cut(rest, SPACE);
    Arrival::Running {
        vm,
        by,
        pass: is(verdict, "deliver"),
    }
}

/// An arrival at a VM, from the word behind its number on.
fn met(vm: u32, text: &[u8]) -> Arrival
    ensures { result ≡ met_in vm text.now }
{
    let (kind, behind) = cut(text, SPACE);
    if is(kind, "blackout") {
        return Arrival::Blackout { vm };
    }
    let (place, rest) = cut(behind, SPACE);
    let (end, _) = cut(rest, SPACE);
    if is(kind, "hairpin") {
        return Arrival::Hairpin {
            vm,
            host: place_of(place),
            end: end_of(end),
        };
    }
    if is(kind, "absent") {
        return Arrival::Absent {
            vm,
            gateway: place_of(place),
            end: end_of(end),
        };
    }
    running(vm, behind)
}

fn arrival(text: &[u8]) -> Arrival
    ensures { result ≡ arrival_in text.now }
{
    let (kind, rest) = cut(text, SPACE);
    if is(kind, "noowner") {
        return Arrival::NoOwner;
    }
    let (vm, rest) = cut(rest, SPACE);
    met(number_of(vm), rest)
}

/// A step of the plan that has only its number.
fn step_event(kind: &[u8], step: u32) -> Event
    ensures { result ≡ step_in kind.now step }
{
    if is(kind, "append") {
        Event::Append { step }
    } else if is(kind, "review") {
        Event::Review { step }
    } else if is(kind, "hold") {
        Event::Hold { step }
    } else if is(kind, "free") {
        Event::Free { step }
    } else if is(kind, "wait") {
        Event::Wait { step }
    } else if is(kind, "blackout") {
        Event::Blackout { step }
    } else if is(kind, "resume") {
        Event::Resume { step }
    } else {
        Event::Finish { step }
    }
}

/// Whether the word begins the line of a decision.
fn is_decision(kind: &[u8]) -> bool
    ensures { result ≡ decides kind.now }
{
    is(kind, "egress") || is(kind, "route") || is(kind, "redirect") || is(kind, "ingress")
}

/// A decision at this number, from the word behind the number on.
fn decision(kind: &[u8], actor: Actor, packet: u32, at: u32, text: &[u8]) -> Event
    ensures { result ≡ decision_in kind.now actor packet at text.now }
{
    if is(kind, "route") {
        return Event::Route {
            actor,
            packet,
            at,
            passage: passage(text),
        };
    }
    if is(kind, "redirect") {
        return Event::Redirect {
            actor,
            packet,
            at,
            back: back(text),
        };
    }
    let (way, rest) = cut(text, SPACE);
    let way = way_of(way);
    if is(kind, "egress") {
        return Event::Egress {
            actor,
            packet,
            at,
            way,
            departure: departure(rest),
        };
    }
    Event::Ingress {
        actor,
        packet,
        at,
        way,
        arrival: arrival(rest),
    }
}

/// A line that is no decision, from its second word on.
fn other(kind: &[u8], text: &[u8]) -> Event
    ensures { result ≡ other_in kind.now text.now }
{
    let (first, rest) = cut(text, SPACE);
    let (second, rest) = cut(rest, SPACE);
    let (third, _) = cut(rest, SPACE);
    if is(kind, "take") {
        return Event::Take {
            actor: actor_of(first),
            queue: queue_of(second),
            packet: number_of(third),
        };
    }
    if is(kind, "sealed") {
        return Event::Sealed {
            actor: actor_of(first),
            packet: number_of(second),
            end: end_of(third),
        };
    }
    if is(kind, "inject") {
        return Event::Inject {
            step: number_of(first),
            packet: number_of(second),
            full: is(third, "full"),
        };
    }
    if is(kind, "announce") {
        return Event::Announce {
            node: node_of(first),
            upto: number_of(second),
        };
    }
    if is(kind, "installed") {
        return Event::Installed {
            node: node_of(first),
            upto: number_of(second),
        };
    }
    if is(kind, "unpin") {
        return Event::Unpin {
            host: place_of(first),
            vm: number_of(second),
        };
    }
    step_event(kind, number_of(first))
}

/// The event of a line that begins with this word, from its second word on.
fn event_by(kind: &[u8], text: &[u8]) -> Event
    ensures { result ≡ event_by kind.now text.now }
{
    if !is_decision(kind) {
        return other(kind, text);
    }
    let (actor, rest) = cut(text, SPACE);
    let (packet, rest) = cut(rest, SPACE);
    let (at, rest) = cut(rest, SPACE);
    decision(
        kind,
        actor_of(actor),
        number_of(packet),
        number_of(at),
        rest,
    )
}

/// The event that the line names, without its line feed.
pub(crate) fn event_of(line: &[u8]) -> Event
    ensures { result ≡ event_in line.now }
{
    let (kind, rest) = cut(line, SPACE);
    event_by(kind, rest)
}
