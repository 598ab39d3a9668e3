//! The text of each kind of line, as the format has it.

use and_events::{Actor, Arrival, Departure, End, Event, Line, Node, Passage, Queue, Return};
use and_policy::{Dest, Name, Way};
use and_trace::{TraceAnswer, TraceFault, print_trace, read_trace};
use std::alloc::Global;
use std::test::Fail;

const WORKER: Actor = Actor::Worker { host: 3, index: 1 };

/// The lines of the steps, the installers and the takes.
const STEPS: [(Event, &str); 18] = [
    (Event::Append { step: 0 }, "append 0"),
    (Event::Review { step: 1 }, "review 1"),
    (Event::Hold { step: 2 }, "hold 2"),
    (Event::Free { step: 3 }, "free 3"),
    (Event::Wait { step: 10 }, "wait 10"),
    (Event::Blackout { step: 4294967295 }, "blackout 4294967295"),
    (Event::Resume { step: 6 }, "resume 6"),
    (Event::Finish { step: 7 }, "finish 7"),
    (
        Event::Inject {
            step: 8,
            packet: 0,
            full: false,
        },
        "inject 8 0 queued",
    ),
    (
        Event::Inject {
            step: 9,
            packet: 1,
            full: true,
        },
        "inject 9 1 full",
    ),
    (
        Event::Announce {
            node: Node::Host(3),
            upto: 12,
        },
        "announce h3 12",
    ),
    (
        Event::Installed {
            node: Node::Gate(0),
            upto: 12,
        },
        "installed g0 12",
    ),
    (
        Event::Take {
            actor: WORKER,
            queue: Queue::Out,
            packet: 5,
        },
        "take h3.w1 out 5",
    ),
    (
        Event::Take {
            actor: Actor::Gateway(0),
            queue: Queue::Wire,
            packet: 5,
        },
        "take g0.w wire 5",
    ),
    (
        Event::Take {
            actor: Actor::Coproc(3),
            queue: Queue::Seal,
            packet: 5,
        },
        "take h3.c seal 5",
    ),
    (
        Event::Sealed {
            actor: Actor::Coproc(3),
            packet: 5,
            end: End::Full,
        },
        "sealed h3.c 5 full",
    ),
    (Event::Unpin { host: 1, vm: 4 }, "unpin h1 4"),
    (Event::Unpin { host: 63, vm: 0 }, "unpin h63 0"),
];

fn egress(way: Way, departure: Departure) -> Event {
    Event::Egress {
        actor: WORKER,
        packet: 0,
        at: 9,
        way,
        departure,
    }
}

fn allowed(by: Name, sealed: bool, dest: Dest, end: End) -> Event {
    egress(
        Way::Slow,
        Departure::Allowed {
            by,
            sealed,
            dest,
            end,
        },
    )
}

fn route(passage: Passage) -> Event {
    Event::Route {
        actor: Actor::Gateway(0),
        packet: 0,
        at: 9,
        passage,
    }
}

fn redirect(back: Return) -> Event {
    Event::Redirect {
        actor: Actor::Gateway(1),
        packet: 2,
        at: 9,
        back,
    }
}

fn ingress(way: Way, arrival: Arrival) -> Event {
    Event::Ingress {
        actor: WORKER,
        packet: 0,
        at: 9,
        way,
        arrival,
    }
}

/// The longest text that is read.
const LONGEST: usize = 100_000;

/// Whether reading the text gives the events of the lines.
fn reads(alloc: Global, text: &[u8], lines: &[Line]) -> bool {
    if text.len() >= LONGEST {
        return false;
    }
    match read_trace(alloc, text) {
        Ok(events) => events.iter().eq(lines.iter().map(|line| &line.event)),
        Err(_) => false,
    }
}

/// Whether the trace of the events is the title and these lines, and is read back.
fn prints(alloc: Global, rows: &[(Event, &str)]) -> Result<bool, Fail> {
    let mut lines = Vec::new(alloc);
    let mut wanted = Vec::from_slice(alloc, b"andromeda trace 1\n")?;
    for row in rows {
        lines.push(Line {
            seat: 0,
            event: row.0,
        })?;
        wanted.extend_from_slice(row.1.as_bytes())?;
        wanted.push(b'\n')?;
    }
    let text = print_trace(alloc, &lines)?;
    let same = text.as_slice() == wanted.as_slice();
    Ok(same && reads(alloc, text.as_slice(), &lines))
}

/// Texts that are no trace, and their first bad lines.
const BAD: [(&[u8], u32); 6] = [
    (b"", 1),
    (b"andromeda trace 1", 1),
    (b"andromeda trace 1\nwait 4\nfinish 5", 3),
    (b"andromeda trace 1\nwait  4\n", 2),
    (b"andromeda trace 1\nwait 4\nunpin h01 4\n", 3),
    (b"andromeda trace 1\nwait 4294967296\n", 2),
];

#[test]
fn bad_lines(rt: HostRuntime) {
    for (text, line) in BAD {
        let fault = TraceFault { line };
        assert!(rt; text.len() < LONGEST);
        assert!(rt;
            read_trace(rt.alloc(), text) == Err(TraceAnswer::Bad(fault)),
            "line {line}"
        );
    }
}

#[test]
fn steps(rt: HostRuntime) -> Result<(), Fail> {
    let none = prints(rt.alloc(), &[])?;
    let all = prints(rt.alloc(), &STEPS)?;
    assert!(rt; none && all);
    Ok(())
}

#[test]
fn departures(rt: HostRuntime) -> Result<(), Fail> {
    let to_host = Dest::Offload { host: 2, net: 8 };
    let to_gate = Dest::Hover { gateway: 1 };
    let rows = [
        (
            egress(Way::Fast, Departure::NoVm),
            "egress h3.w1 0 9 fast novm",
        ),
        (
            egress(Way::Slow, Departure::Spoofed),
            "egress h3.w1 0 9 slow spoofed",
        ),
        (
            egress(Way::Slow, Departure::Denied { number: 4 }),
            "egress h3.w1 0 9 slow denied 4",
        ),
        (
            allowed(Name::Implied, false, to_host, End::Queued),
            "egress h3.w1 0 9 slow allow implied plain offload h2 8 queued",
        ),
        (
            allowed(Name::Rule(2), true, to_gate, End::Full),
            "egress h3.w1 0 9 slow allow rule 2 sealed hover g1 full",
        ),
    ];
    let same = prints(rt.alloc(), &rows)?;
    assert!(rt; same);
    Ok(())
}

#[test]
fn passages(rt: HostRuntime) -> Result<(), Fail> {
    let (by, end) = (Name::Rule(2), End::Queued);
    let (net, host) = (8, 0);
    let implied = Name::Implied;
    let rows = [
        (
            route(Passage::Dropped { by }),
            "route g0.w 0 9 route 2 drop",
        ),
        (
            route(Passage::NoOwner { by: implied }),
            "route g0.w 0 9 implied noowner",
        ),
        (route(Passage::Hops { by }), "route g0.w 0 9 route 2 hops"),
        (
            route(Passage::Send { by, net, host, end }),
            "route g0.w 0 9 route 2 send h0 8 queued",
        ),
        (redirect(Return::NoOwner), "redirect g1.w 2 9 noowner"),
        (redirect(Return::Hops), "redirect g1.w 2 9 hops"),
        (
            redirect(Return::Send { host, end }),
            "redirect g1.w 2 9 send h0 queued",
        ),
    ];
    let same = prints(rt.alloc(), &rows)?;
    assert!(rt; same);
    Ok(())
}

#[test]
fn arrivals(rt: HostRuntime) -> Result<(), Fail> {
    let (vm, end) = (2, End::Hops);
    let denied = Arrival::Running {
        vm,
        by: Name::Implied,
        pass: false,
    };
    let passed = Arrival::Running {
        vm,
        by: Name::Rule(1),
        pass: true,
    };
    let pinned = Arrival::Hairpin { vm, host: 1, end };
    let absent = Arrival::Absent {
        vm,
        gateway: 0,
        end,
    };
    let rows = [
        (
            ingress(Way::Fast, Arrival::NoOwner),
            "ingress h3.w1 0 9 fast noowner",
        ),
        (
            ingress(Way::Slow, denied),
            "ingress h3.w1 0 9 slow vm 2 running implied drop",
        ),
        (
            ingress(Way::Slow, passed),
            "ingress h3.w1 0 9 slow vm 2 running rule 1 deliver",
        ),
        (
            ingress(Way::Slow, Arrival::Blackout { vm }),
            "ingress h3.w1 0 9 slow vm 2 blackout",
        ),
        (
            ingress(Way::Slow, pinned),
            "ingress h3.w1 0 9 slow vm 2 hairpin h1 hops",
        ),
        (
            ingress(Way::Slow, absent),
            "ingress h3.w1 0 9 slow vm 2 absent g0 hops",
        ),
    ];
    let same = prints(rt.alloc(), &rows)?;
    assert!(rt; same);
    Ok(())
}
