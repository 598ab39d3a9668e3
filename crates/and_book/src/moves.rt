//! VMs on their way from host to host.
ghost use Rattle.std.specs.Prelude.{◌≡◌, ◌+◌, ◌≤◌, ℕ, length, Some, slice_get};
ghost use Rattle.and_events.specs.declared.event.Actor.TheVariants.{Controller, Driver};
ghost use Rattle.and_events.specs.Legal.{CanUnpin, KnowsVm};
ghost use Rattle.and_events.specs.Ports.{comes_to, ports_of};
ghost use Rattle.and_book.specs.Views.{now, held, IsBlackout, IsResume, IsSeat, with_line};

use crate::book::{Book, note};
use and_events::{Event, Items, Step};
use and_policy::{Entry, Port};
use and_ports::Ports;

impl Book {
    /// The VM that the step which is due names stops at its host, and is on its way to the step's host; a hairpin that it had there is gone. It
    /// takes a few steps for each hairpin that stands.
    pub fn blackout(&mut self, seat: u32)
        requires seat { IsSeat self.old seat Driver }
        requires due { IsBlackout (slice_get self.old.plan.steps (now self.old).next) }
        requires ready { (vm host : ℕ) → slice_get self.old.plan.steps (now self.old).next ≡ Some (Step.Blackout vm host) → KnowsVm self.old.plan (now self.old) host vm }
        requires room { held self.old + 1 ≤ self.old.spare }
        ensures { self.new ≡ with_line self.old seat (Event.Blackout (now self.old).next) }
    {
        let step = self.next;
        let due = due_blackout(&self.plan.steps, step);
        let home = self.progress.place(due.0).unwrap_or(0);
        self.ports.pause(due.0, home, due.1);
        self.pins.take_away(due.1, due.0);
        self.next += 1;
        note(
            &mut self.lines,
            &mut self.prepared,
            seat,
            Event::Blackout { step },
        );
    }

    /// The VM that the step names runs at the host to which it was on its way, by a log entry of its own, and the host that it left sends after it
    /// what still comes for it.
    pub fn resume(&mut self, seat: u32)
        requires seat { IsSeat self.old seat Driver }
        requires due { IsResume (slice_get self.old.plan.steps (now self.old).next) }
        requires room { held self.old + 1 ≤ self.old.spare }
        ensures { self.new ≡ with_line self.old seat (Event.Resume (now self.old).next) }
    {
        let step = self.next;
        let vm = due_resume(&self.plan.steps, step);
        let home = self.progress.place(vm).unwrap_or(0);
        let host = arriving_at(&self.ports, self.plan.settings.hosts, vm);
        self.progress.append(Entry::Place { vm, host });
        let entry = self.progress.log().len() as u32;
        self.ports.resume(vm, home, host, entry);
        self.pins.put(home, vm, entry);
        self.next += 1;
        note(
            &mut self.lines,
            &mut self.prepared,
            seat,
            Event::Resume { step },
        );
    }

    /// The VM's hairpin at the host ends: every node knows where the VM is.
    pub fn unpin(&mut self, seat: u32, host: u32, vm: u32)
        requires seat { IsSeat self.old seat Controller }
        requires ready { CanUnpin self.old.plan (now self.old) host vm }
        requires room { held self.old + 1 ≤ self.old.spare }
        ensures { self.new ≡ with_line self.old seat (Event.Unpin host vm) }
    {
        self.ports.unpin(host, vm);
        self.pins.take_away(host, vm);
        note(
            &mut self.lines,
            &mut self.prepared,
            seat,
            Event::Unpin { host, vm },
        );
    }
}

// The VM that a step stops, and the host to which it goes.
fn due_blackout(steps: &Items<Step>, step: u32) -> (u32, u32)
    requires { IsBlackout (slice_get steps.now step) }
    ensures { slice_get steps.now step ≡ Some (Step.Blackout result.0 result.1) }
{
    match steps.get(step as usize) {
        Some(Step::Blackout { vm, host }) => (*vm, *host),
        _ => unreachable!(),
    }
}

// The VM that a step lets go on.
fn due_resume(steps: &Items<Step>, step: u32) -> u32
    requires { IsResume (slice_get steps.now step) }
    ensures { slice_get steps.now step ≡ Some (Step.Resume result) }
{
    match steps.get(step as usize) {
        Some(Step::Resume { vm }) => *vm,
        _ => unreachable!(),
    }
}

// The host to which the VM is on its way.
fn arriving_at(ports: &Ports, hosts: u32, vm: u32) -> u32
    requires { length (ports_of ports.now vm) ≤ hosts }
    ensures { result ≡ comes_to (ports_of ports.now vm) }
{
    for host in 0..hosts {
        if let Port::Arriving = ports.state(host, vm) {
            return host;
        }
    }
    0
}
