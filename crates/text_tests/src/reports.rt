//! The report of a list of events with every kind of fate, counted by hand, byte for byte.

use and_capture::{Bytes, Taken};
use and_events::{
    Actor, Arrival, Departure, End, Event, ItemFault, Items, Line, Packet, Passage, Plan, Return,
    Settings, SkipReason, Step,
};
use and_policy::{Dest, Entry, EntryFault, Name, Skip, Tuple, Way};
use and_report::report_of_lines;
use std::alloc::Global;
use std::process::Abort;
use std::test::Fail;

const WORKER_0: Actor = Actor::Worker { host: 0, index: 0 };

const WORKER_1: Actor = Actor::Worker { host: 1, index: 0 };

const C0: Actor = Actor::Coproc(0);

const G: Actor = Actor::Gateway(0);

// A packet leaves a VM of host 0.
macro_rules! egress {
    ($packet:expr, $way:expr, $departure:expr) => {
        Event::Egress { actor: WORKER_0, packet: $packet, at: 4, way: $way, departure: $departure }
    };
}

// A rule denies it.
macro_rules! denied {
    ($number:expr) => {
        Departure::Denied { number: $number }
    };
}

// It may leave.
macro_rules! leaves {
    ($sealed:expr, $dest:expr, $end:expr) => {
        Departure::Allowed { by: Name::Implied, sealed: $sealed, dest: $dest, end: $end }
    };
}

// The gateway routes a packet, to host 1 in a network.
macro_rules! route {
    ($packet:expr, $passage:expr) => {
        Event::Route { actor: G, packet: $packet, at: 4, passage: $passage }
    };
}

macro_rules! onward {
    ($net:expr) => {
        Passage::Send { by: Name::Implied, net: $net, host: 1, end: End::Queued }
    };
}

// The gateway redirects a packet.
macro_rules! redirect {
    ($packet:expr, $back:expr) => {
        Event::Redirect { actor: G, packet: $packet, at: 4, back: $back }
    };
}

// A packet comes to a host for a VM.
macro_rules! ingress {
    ($actor:expr, $packet:expr, $way:expr, $arrival:expr) => {
        Event::Ingress { actor: $actor, packet: $packet, at: 4, way: $way, arrival: $arrival }
    };
}

macro_rules! running {
    ($vm:expr, $by:expr, $pass:expr) => {
        Arrival::Running { vm: $vm, by: $by, pass: $pass }
    };
}

// VM 1 has moved to host 0; or a VM is not here.
macro_rules! hairpin {
    ($end:expr) => {
        Arrival::Hairpin { vm: 1, host: 0, end: $end }
    };
}

macro_rules! absent {
    ($vm:expr, $end:expr) => {
        Arrival::Absent { vm: $vm, gateway: 0, end: $end }
    };
}

/// To the gateway.
const HOVER: Dest = Dest::Hover { gateway: 0 };

/// Straight to host 0 in network 7.
const OFFLOAD: Dest = Dest::Offload { host: 0, net: 7 };

const LEAVES: Departure = leaves!(false, HOVER, End::Queued);

const SETTINGS: Settings = Settings {
    hosts: 2,
    gateways: 1,
    workers: 2,
    hop_limit: 16,
    out_queue: 256,
    wire_queue: 256,
    seal_queue: 256,
    threshold: 20_000,
    life: 3,
};

/// VM 0 in network 7 at host 0, VM 1 in network 9 at host 1.
const TWO_NETS: [Entry; 4] = [
    Entry::AddNet { net: 7 },
    Entry::AddVm {
        vm: 0,
        net: 7,
        mac: 0x0200_0000_0001,
        ip: 0x0a00_0001,
        host: 0,
    },
    Entry::AddNet { net: 9 },
    Entry::AddVm {
        vm: 1,
        net: 9,
        mac: 0x0200_0000_0002,
        ip: 0x0a00_0002,
        host: 1,
    },
];

const FRAME: [u8; 54] = [0; 54];

/// A packet of 54 bytes from this VM to VM 1.
fn packet(alloc: Global, vm: u32) -> Result<Packet, Fail> {
    let tuple = Tuple {
        protocol: 6,
        source: 0x0a00_0001,
        destination: 0x0a00_0002,
        source_port: 4096,
        destination_port: 80,
    };
    let frame = Bytes::make(alloc, &FRAME)?;
    Ok(Packet {
        vm,
        tuple,
        taken: Taken {
            seconds: 1,
            fraction: 2,
            original: 54,
            frame,
        },
    })
}

/// One packet from each of these VMs.
fn packets(alloc: Global, vms: &[u32]) -> Result<Items<Packet>, Fail> {
    let mut all = Items::new(alloc);
    for vm in vms {
        all.push(packet(alloc, *vm)?)?;
    }
    Ok(all)
}

/// The entries, each appended by a step.
fn steps(alloc: Global, log: &[Entry]) -> Result<Items<Step>, Fail> {
    let mut steps = Items::new(alloc);
    for entry in log {
        steps.push(Step::Append(*entry))?;
    }
    Ok(steps)
}

/// The entries.
fn entries(alloc: Global, log: &[Entry]) -> Result<Items<Entry>, Fail> {
    let mut all = Items::new(alloc);
    for entry in log {
        all.push(*entry)?;
    }
    Ok(all)
}

/// The names of three VMs; the logs add the first two.
fn names(alloc: Global) -> Result<Items<Bytes>, Fail> {
    let mut names = Items::new(alloc);
    names.push(Bytes::make(alloc, b"a")?)?;
    names.push(Bytes::make(alloc, b"b")?)?;
    names.push(Bytes::make(alloc, b"c")?)?;
    Ok(names)
}

/// A plan over the entries, with a packet from each of these VMs. Nothing is refused or skipped, and no frame is counted.
fn plan(alloc: Global, log: &[Entry], vms: &[u32]) -> Result<Plan, Fail> {
    let steps = steps(alloc, log)?;
    let log = entries(alloc, log)?;
    let packets = packets(alloc, vms)?;
    let names = names(alloc)?;
    Ok(Plan {
        settings: SETTINGS,
        steps,
        log,
        packets,
        refused: Items::new(alloc),
        skipped: Items::new(alloc),
        frames: 0,
        unsent: 0,
        nanos: false,
        names,
    })
}

/// The events as lines.
fn lines(alloc: Global, events: &[Event]) -> Result<Vec<Line>, Fail> {
    let mut lines = Vec::new(alloc);
    for event in events {
        lines.push(Line {
            seat: 0,
            event: *event,
        })?;
    }
    Ok(lines)
}

/// Checks the report of the plan and the events.
fn check(
    rt: &impl Abort,
    alloc: Global,
    plan: &Plan,
    events: &[Event],
    text: &str,
) -> Result<(), Fail> {
    let lines = lines(alloc, events)?;
    let report = report_of_lines(alloc, plan, &lines)?;
    assert!(rt; report.as_slice() == text.as_bytes());
    Ok(())
}

/// From VM 0 in network 7 and VM 1 in network 9, one packet for each fate or more.
const SENDERS: [u32; 22] = [
    0, 0, 0, 0, 0, 0, 0, 0, 1, 1, 1, 1, 1, 0, 0, 0, 0, 0, 0, 0, 0, 1,
];

/// One event of each kind that is a fate, and what leads there where that matters.
const ALL_FATES: [Event; 42] = [
    // egress rules, by the source's network
    egress!(0, Way::Slow, denied!(5)),
    egress!(8, Way::Slow, denied!(5)),
    egress!(1, Way::Fast, denied!(3)),
    egress!(9, Way::Slow, denied!(5)),
    egress!(2, Way::Slow, Departure::Spoofed),
    egress!(3, Way::Slow, Departure::NoVm),
    // ingress rules, by the network under which the packet came
    egress!(4, Way::Slow, LEAVES),
    route!(4, onward!(9)),
    ingress!(WORKER_1, 4, Way::Slow, running!(1, Name::Implied, false)),
    egress!(10, Way::Slow, LEAVES),
    route!(10, onward!(9)),
    ingress!(WORKER_1, 10, Way::Slow, running!(1, Name::Rule(4), false)),
    egress!(11, Way::Fast, leaves!(false, OFFLOAD, End::Queued)),
    ingress!(WORKER_0, 11, Way::Slow, running!(0, Name::Rule(2), false)),
    // routes
    egress!(5, Way::Slow, LEAVES),
    route!(5, Passage::Dropped { by: Name::Rule(6) }),
    egress!(6, Way::Slow, LEAVES),
    route!(6, Passage::NoOwner { by: Name::Implied }),
    // full queues, hops and a blackout
    Event::Inject {
        step: 5,
        packet: 7,
        full: true,
    },
    egress!(12, Way::Slow, leaves!(true, HOVER, End::Queued)),
    Event::Sealed {
        actor: C0,
        packet: 12,
        end: End::Full,
    },
    egress!(13, Way::Slow, LEAVES),
    route!(13, Passage::Hops { by: Name::Implied }),
    egress!(14, Way::Slow, LEAVES),
    route!(14, onward!(9)),
    ingress!(WORKER_1, 14, Way::Slow, Arrival::Blackout { vm: 1 }),
    // a hairpin and a redirect, each to a delivery
    egress!(15, Way::Slow, LEAVES),
    route!(15, onward!(9)),
    ingress!(WORKER_1, 15, Way::Slow, hairpin!(End::Queued)),
    ingress!(WORKER_0, 15, Way::Slow, running!(1, Name::Rule(1), true)),
    egress!(16, Way::Slow, LEAVES),
    route!(16, onward!(7)),
    ingress!(WORKER_1, 16, Way::Slow, absent!(0, End::Queued)),
    redirect!(
        16,
        Return::Send {
            host: 0,
            end: End::Queued,
        }
    ),
    ingress!(WORKER_0, 16, Way::Fast, running!(0, Name::Rule(2), true)),
    // those at a full queue and without a hop, a redirect to nobody, and a gateway's full queue
    ingress!(WORKER_1, 17, Way::Slow, hairpin!(End::Full)),
    ingress!(WORKER_1, 18, Way::Slow, absent!(1, End::Hops)),
    redirect!(19, Return::NoOwner),
    egress!(20, Way::Slow, leaves!(false, HOVER, End::Full)),
    // a sealed packet keeps the network of its Egress
    egress!(21, Way::Slow, leaves!(true, OFFLOAD, End::Queued)),
    Event::Sealed {
        actor: C0,
        packet: 21,
        end: End::Queued,
    },
    ingress!(WORKER_0, 21, Way::Slow, running!(0, Name::Implied, false)),
];

const ALL_FATES_TEXT: &str = "andromeda report 1
frames 27
skipped 3
unsent 2
injected 22
delivered 2
dropped 13
lost blackout 1
lost queue 4
lost hops 2
sends 18
offload 2
hover 10
hairpin 2
redirect 2
fast 3
slow 26
orders 0
refused 2
skip TooLong 1
skip NoSource 2
drop spoofed 1
drop novm 1
drop noowner 2
drop egress 7 rule 3 1
drop egress 7 rule 5 1
drop egress 9 rule 5 2
drop ingress 7 implied 1
drop ingress 7 rule 2 1
drop ingress 9 implied 1
drop ingress 9 rule 4 1
drop route 7 6 1
item 4 Held
item 9 NoNet
vm a sent 16 received 1
vm b sent 6 received 1
";

#[test]
fn all_fates(rt: HostRuntime) -> Result<(), Fail> {
    let mut plan = plan(rt.alloc(), &TWO_NETS, &SENDERS)?;
    plan.frames = 27;
    plan.unsent = 2;
    plan.skipped.push((3, SkipReason::Frame(Skip::TooLong)))?;
    plan.skipped.push((5, SkipReason::NoSource))?;
    plan.skipped.push((6, SkipReason::NoSource))?;
    plan.refused.push((4, ItemFault::Held))?;
    plan.refused.push((9, ItemFault::Entry(EntryFault::NoNet)))?;
    check(&rt, rt.alloc(), &plan, &ALL_FATES, ALL_FATES_TEXT)
}
