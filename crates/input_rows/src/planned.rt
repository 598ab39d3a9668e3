//! The plan of a scenario and a capture, as a line of words.

use and_capture::read_capture;
use and_events::{ItemFault, Node, Plan, SkipReason, Step, What};
use and_policy::{Entry, EntryFault, Skip};
use and_script::{plan, read_scenario};
use std::io;

/// The most frames of a capture.
const MOST_FRAMES: usize = 100_000;

fn entry_fault(fault: EntryFault) -> &'static str {
    match fault {
        EntryFault::NoNet => "NoNet",
        EntryFault::NetTaken => "NetTaken",
        EntryFault::NoVm => "NoVm",
        EntryFault::VmTaken => "VmTaken",
        EntryFault::MacTaken => "MacTaken",
        EntryFault::AddressTaken => "AddressTaken",
        EntryFault::NoHost => "NoHost",
        EntryFault::NoRule => "NoRule",
        EntryFault::RuleTaken => "RuleTaken",
        EntryFault::NoRoute => "NoRoute",
        EntryFault::RouteTaken => "RouteTaken",
        EntryFault::TooMany => "TooMany",
    }
}

fn item_fault(fault: ItemFault) -> &'static str {
    match fault {
        ItemFault::Entry(fault) => entry_fault(fault),
        ItemFault::Held => "Held",
        ItemFault::Paused => "Paused",
        ItemFault::NotPaused => "NotPaused",
        ItemFault::SameHost => "SameHost",
        ItemFault::NoNode => "NoNode",
        ItemFault::HoldTaken => "HoldTaken",
        ItemFault::NoHold => "NoHold",
    }
}

fn skip_reason(reason: SkipReason) -> &'static str {
    match reason {
        SkipReason::Frame(Skip::TooLong) => "TooLong",
        SkipReason::Frame(Skip::Short) => "Short",
        SkipReason::Frame(Skip::NotIp4) => "NotIp4",
        SkipReason::Frame(Skip::Cut) => "Cut",
        SkipReason::Frame(Skip::BadIp4) => "BadIp4",
        SkipReason::Frame(Skip::ShortPorts) => "ShortPorts",
        SkipReason::NoSource => "NoSource",
        SkipReason::PausedSource => "PausedSource",
    }
}

fn tell_entry(rt: &HostRuntime, head: &str, entry: &Entry) -> io::Result<()> {
    match *entry {
        Entry::AddNet { net } => print!(rt; "{head}add_net:{net}"),
        Entry::AddVm { vm, host, .. } => print!(rt; "{head}add_vm:{vm}:{host}"),
        Entry::RemoveVm { vm } => print!(rt; "{head}remove_vm:{vm}"),
        Entry::Place { vm, host } => print!(rt; "{head}place:{vm}:{host}"),
        Entry::AddRule { net, rule } => {
            let number = rule.number;
            let sealed = if rule.sealed { ":sealed" } else { "" };
            print!(rt; "{head}add_rule:{net}:{number}{sealed}")
        }
        Entry::DelRule { net, number } => print!(rt; "{head}del_rule:{net}:{number}"),
        Entry::AddRoute { net, route } => {
            let number = route.number;
            print!(rt; "{head}add_route:{net}:{number}")
        }
        Entry::DelRoute { net, number } => print!(rt; "{head}del_route:{net}:{number}"),
        Entry::Tick => print!(rt; "{head}tick"),
    }
}

fn tell_thing(rt: &HostRuntime, verb: &str, node: Node, what: What) -> io::Result<()> {
    let what = match what {
        What::Install => "install",
        What::Forward => "forward",
    };
    match node {
        Node::Host(number) => print!(rt; " {verb}:h{number}:{what}"),
        Node::Gate(number) => print!(rt; " {verb}:g{number}:{what}"),
    }
}

fn tell_step(rt: &HostRuntime, step: &Step) -> io::Result<()> {
    match *step {
        Step::Append(entry) => tell_entry(rt, " append:", &entry),
        Step::Review => print!(rt; " review"),
        Step::Hold { node, what } => tell_thing(rt, "hold", node, what),
        Step::Free { node, what } => tell_thing(rt, "free", node, what),
        Step::Wait => print!(rt; " wait"),
        Step::Inject { packet } => print!(rt; " inject:{packet}"),
        Step::Blackout { vm, host } => print!(rt; " blackout:{vm}:{host}"),
        Step::Resume { vm } => print!(rt; " resume:{vm}"),
        Step::Finish => print!(rt; " finish"),
    }
}

/// The steps, the log, the source VMs of the packets, what was refused and what was skipped, and how many frames no item reached.
fn tell_parts(rt: &HostRuntime, plan: &Plan) -> io::Result<()> {
    print!(rt; "steps")?;
    for step in plan.steps.as_slice() {
        tell_step(rt, step)?;
    }
    print!(rt; "; log")?;
    for entry in plan.log.as_slice() {
        tell_entry(rt, " ", entry)?;
    }
    print!(rt; "; packets")?;
    for packet in plan.packets.as_slice() {
        let vm = packet.vm;
        print!(rt; " {vm}")?;
    }
    print!(rt; "; refused")?;
    for (number, fault) in plan.refused.as_slice() {
        let fault = item_fault(*fault);
        print!(rt; " {number}:{fault}")?;
    }
    print!(rt; "; skipped")?;
    for (number, reason) in plan.skipped.as_slice() {
        let reason = skip_reason(*reason);
        print!(rt; " {number}:{reason}")?;
    }
    let unsent = plan.unsent;
    println!(rt; "; unsent {unsent}")
}

/// What the text and the capture's file plan.
pub fn tell_plan(rt: &HostRuntime, file: &[u8], text: &[u8]) -> io::Result<()> {
    let Ok(capture) = read_capture(rt.alloc(), file) else {
        return println!(rt; "no capture");
    };
    let Ok(scenario) = read_scenario(rt.alloc(), text) else {
        return println!(rt; "no scenario");
    };
    if capture.frames.len() > MOST_FRAMES {
        return println!(rt; "too many frames");
    }
    match plan(rt.alloc(), scenario, capture) {
        Ok(plan) => tell_parts(rt, &plan),
        Err(_) => println!(rt; "no memory"),
    }
}
