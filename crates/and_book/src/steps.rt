//! The steps of the plan.
ghost use Rattle.std.specs.Prelude.{◌≡◌, ◌+◌, ◌≤◌, length, true, false, Some, slice_get};
ghost use Rattle.and_events.specs.declared.event.Actor.TheVariants.{Driver};
ghost use Rattle.and_events.specs.declared.event.Node.{Node};
ghost use Rattle.and_events.specs.declared.plan.What.{What};
ghost use Rattle.and_events.specs.Legal.{CanHold, IsAtRest, IsOver, KnowsVm};
ghost use Rattle.and_events.specs.Places as places;
ghost use Rattle.and_events.specs.Places.{IsNode, node_count};
ghost use Rattle.and_events.specs.Ports.{ports_after};
ghost use Rattle.and_events.specs.State.{home, packet_at, ports_move_of_entry, with_hold};
ghost use Rattle.and_book.specs.Inside.{BootsAnew, PinsFollow};
ghost use Rattle.and_book.specs.Views.{now, held, IsSeat, with_line, IsPacket, IsAppend, IsHold, IsFree, finds_full};

use crate::book::{Book, note};
use and_events::{Event, Items, Node, Step, What, node_place};
use and_kept::{Progress, Traffic};
use and_parcel::Parcel;
use and_pins::Pins;
use and_policy::Entry;
use and_ports::Ports;

impl Book {
    /// The entry of the step that is due goes to the log and to every programme.
    pub fn append(&mut self, seat: u32)
        requires seat { IsSeat self.old seat Driver }
        requires due { IsAppend (slice_get self.old.plan.steps (now self.old).next) }
        requires room { held self.old + 1 ≤ self.old.spare }
        ensures { self.new ≡ with_line self.old seat (Event.Append (now self.old).next) }
    {
        let step = self.next;
        let entry = due_entry(&self.plan.steps, step);
        self.progress.append(entry);
        note_ports(&mut self.ports, &mut self.pins, entry);
        self.next += 1;
        note(
            &mut self.lines,
            &mut self.prepared,
            seat,
            Event::Append { step },
        );
    }

    /// What the step that is due names is held at its node: its installer announces nothing, or nobody there takes a packet,
    /// until it is freed. It takes a few steps for each worker of that node.
    pub fn hold(&mut self, seat: u32)
        requires seat { IsSeat self.old seat Driver }
        requires due { IsHold (slice_get self.old.plan.steps (now self.old).next) }
        requires ready { (node : Node) (what : What) → slice_get self.old.plan.steps (now self.old).next ≡ Some (Step.Hold node what) → CanHold self.old.plan (now self.old) node what }
        requires room { held self.old + 1 ≤ self.old.spare }
        ensures { self.new ≡ with_line self.old seat (Event.Hold (now self.old).next) }
    {
        let step = self.next;
        let due = due_hold(&self.plan.steps, step);
        note_hold(&mut self.progress, &mut self.traffic, due.0, due.1, true);
        self.next += 1;
        note(
            &mut self.lines,
            &mut self.prepared,
            seat,
            Event::Hold { step },
        );
    }

    /// What the step that is due names is held at its node no more. It takes a few steps for each worker of that node.
    pub fn free(&mut self, seat: u32)
        requires seat { IsSeat self.old seat Driver }
        requires due { IsFree (slice_get self.old.plan.steps (now self.old).next) }
        requires room { held self.old + 1 ≤ self.old.spare }
        ensures { self.new ≡ with_line self.old seat (Event.Free (now self.old).next) }
    {
        let step = self.next;
        let due = due_free(&self.plan.steps, step);
        note_hold(&mut self.progress, &mut self.traffic, due.0, due.1, false);
        self.next += 1;
        note(
            &mut self.lines,
            &mut self.prepared,
            seat,
            Event::Free { step },
        );
    }

    /// The packet of the step that is due comes to the `out` queue of its VM's host, or is lost where that is full.
    pub fn inject(&mut self, seat: u32, parcel: Parcel)
        requires seat { IsSeat self.old seat Driver }
        requires due { slice_get self.old.plan.steps (now self.old).next ≡ Some (Step.Inject parcel.packet) }
        requires ready { KnowsVm self.old.plan (now self.old) (home self.old.plan (now self.old) parcel.packet) (packet_at self.old.plan parcel.packet).vm }
        requires parcel { IsPacket self.old.plan parcel }
        requires room { held self.old + 1 ≤ self.old.spare }
        ensures { self.new ≡ with_line self.old seat (Event.Inject (now self.old).next parcel.packet (finds_full self.old.plan (now self.old) parcel.packet)) }
    {
        let step = self.next;
        let packet = parcel.packet();
        let host = self.progress.place(parcel.vm()).unwrap_or(0);
        let full = self.traffic.enter(host, parcel);
        self.next += 1;
        note(
            &mut self.lines,
            &mut self.prepared,
            seat,
            Event::Inject { step, packet, full },
        );
    }

    /// The system has come to rest, as the step that is due asks.
    pub fn wait(&mut self, seat: u32)
        requires seat { IsSeat self.old seat Driver }
        requires due { slice_get self.old.plan.steps (now self.old).next ≡ Some Step.Wait }
        requires ready { IsAtRest self.old.plan (now self.old) }
        requires room { held self.old + 1 ≤ self.old.spare }
        ensures { self.new ≡ with_line self.old seat (Event.Wait (now self.old).next) }
    {
        let step = self.next;
        self.next += 1;
        note(
            &mut self.lines,
            &mut self.prepared,
            seat,
            Event::Wait { step },
        );
    }

    /// The end, which is the step that is due.
    pub fn finish(&mut self, seat: u32)
        requires seat { IsSeat self.old seat Driver }
        requires due { slice_get self.old.plan.steps (now self.old).next ≡ Some Step.Finish }
        requires ready { IsOver self.old.plan (now self.old) }
        requires room { held self.old + 1 ≤ self.old.spare }
        ensures { self.new ≡ with_line self.old seat (Event.Finish (now self.old).next) }
    {
        let step = self.next;
        self.next += 1;
        note(
            &mut self.lines,
            &mut self.prepared,
            seat,
            Event::Finish { step },
        );
    }
}

// The entry that a step appends.
fn due_entry(steps: &Items<Step>, step: u32) -> Entry
    requires { IsAppend (slice_get steps.now step) }
    ensures { slice_get steps.now step ≡ Some (Step.Append result) }
{
    match steps.get(step as usize) {
        Some(Step::Append(entry)) => *entry,
        _ => unreachable!(),
    }
}

// The node at which a step holds, and what.
fn due_hold(steps: &Items<Step>, step: u32) -> (Node, What)
    requires { IsHold (slice_get steps.now step) }
    ensures { slice_get steps.now step ≡ Some (Step.Hold result.0 result.1) }
{
    match steps.get(step as usize) {
        Some(Step::Hold { node, what }) => (*node, *what),
        _ => unreachable!(),
    }
}

// The node at which a step frees, and what.
fn due_free(steps: &Items<Step>, step: u32) -> (Node, What)
    requires { IsFree (slice_get steps.now step) }
    ensures { slice_get steps.now step ≡ Some (Step.Free result.0 result.1) }
{
    match steps.get(step as usize) {
        Some(Step::Free { node, what }) => (*node, *what),
        _ => unreachable!(),
    }
}

// Installs or forwarding are held at the node, or are not.
fn note_hold(progress: &mut Progress, traffic: &mut Traffic, node: Node, what: What, on: bool)
    requires node { IsNode traffic.old.settings node }
    requires nodes { length progress.old.programmes.ops ≡ node_count traffic.old.settings }
    ensures installs { progress.new ≡ record progress.old { held = (with_hold (record { install = progress.old.held; forward = traffic.old.held }) (places.node_place traffic.old.settings node) what on).install } }
    ensures forwards { traffic.new ≡ record traffic.old { held = (with_hold (record { install = progress.old.held; forward = traffic.old.held }) (places.node_place traffic.old.settings node) what on).forward } }
{
    match what {
        What::Install => progress.hold(node_place(traffic.settings(), node), on),
        What::Forward => traffic.hold(node, on),
    }
}

// The ports after a log entry, and the hairpins: a VM that is removed leaves none.
#[tactic(auto, unfolding(and_events::specs::Ports::ports_after))]
fn note_ports(ports: &mut Ports, pins: &mut Pins, entry: Entry)
    requires { BootsAnew ports.old entry }
    ensures ports { ports.new ≡ ports_after ports.old (ports_move_of_entry entry) }
    ensures pins { PinsFollow pins.old pins.new ports.old ports.new 0 }
{
    match entry {
        Entry::AddVm { vm, host, .. } => ports.boot(host, vm),
        Entry::RemoveVm { vm } => {
            ports.halt(vm);
            pins.take_all(vm);
        }
        _ => {}
    }
}
