//! The lines of VMs.
ghost use Rattle.std.specs.Prelude.{◌≡◌, ◌+◌, ◌++◌, length, if◌then◌else◌, OnOk, IfOk};
ghost use Rattle.and_report.specs.Nets.{AreVmNets};
ghost use Rattle.and_report.specs.Report as report;
ghost use Rattle.and_report.specs.Tally as tallies;
ghost use Rattle.and_report.specs.Totals.{AreReceived};
ghost use Rattle.and_report.specs.Vms as spec;

use crate::counts::plus;
use crate::rows::put;
use crate::vm_nets::net_of;
use and_events::Plan;
use and_policy::{NoMemory, Placements};
use std::alloc::Global;

/// Raises the count at a place, where there is one.
pub(crate) fn raise(counts: &mut Vec<u64>, at: usize) -> Result<(), NoMemory>
    ensures len { length counts.new.items ≡ length counts.old.items }
    ensures counts { OnOk result (spec.RaisedAt at counts.old.items counts.new.items) }
{
    if at < counts.len() {
        counts[at] = plus(counts[at], true)?;
    }
    Ok(())
}

/// How many packets of the plan each VM sent.
pub(crate) fn sent(alloc: Global, plan: &Plan) -> Result<Vec<u64>, NoMemory>
    ensures len { IfOk result (λ sent. length sent.items ≡ length plan.now.names) }
    ensures counts { IfOk result (λ sent. spec.AreSent plan.now.packets (length plan.now.names) sent.items) }
{
    let mut sent = vec![in alloc; 0u64; plan.names.len()].map_err(|_| NoMemory)?;
    for packet in plan.packets.as_slice() {
        raise(&mut sent, packet.vm as usize)?;
    }
    Ok(sent)
}

#[tactic(auto, using(crate::proofs::Texts::vm_text, crate::proofs::Texts::after_both))]
fn put_counted_vm(
    alloc: Global,
    name: &[u8],
    sent: u64,
    received: u64,
    text: &mut Vec<u8>,
) -> Result<(), NoMemory>
    ensures { OnOk result (text.new.items ≡ text.old.items ++ spec.vm_counted name.now sent received) }
{
    put(text, b"vm ")?;
    put(text, name)?;
    match format!(in alloc; " sent {sent} received {received}\n") {
        Ok(line) => put(text, line.as_bytes()),
        Err(_) => Err(NoMemory),
    }
}

// Puts the line of a VM, where the log adds it.
fn put_vm(
    alloc: Global,
    net: Option<u32>,
    name: &[u8],
    sent: u64,
    received: u64,
    text: &mut Vec<u8>,
) -> Result<(), NoMemory>
    ensures { OnOk result (text.new.items ≡ text.old.items ++ spec.vm_counted_if net name.now sent received) }
{
    match net {
        Some(_) => put_counted_vm(alloc, name, sent, received, text),
        None => Ok(()),
    }
}

/// Puts the lines of the VMs that the log adds, by number.
pub(crate) fn put_vms(
    alloc: Global,
    plan: &Plan,
    vm_nets: &Placements,
    received: &[u64],
    text: &mut Vec<u8>,
) -> Result<(), NoMemory>
    requires nets { AreVmNets plan.now vm_nets.now }
    requires len { length received.now ≡ length plan.now.names }
    ensures { OnOk result ((t : tallies.Tally) → AreReceived t.fates received.now → text.new.items ≡ text.old.items ++ report.vm_lines plan.now t 0 plan.now.names) }
{
    let sent = sent(alloc, plan)?;
    for (vm, name) in plan.names.as_slice().iter().enumerate() {
        put_vm(
            alloc,
            net_of(vm_nets, vm),
            name.as_bytes(),
            sent[vm],
            received[vm],
            text,
        )?;
    }
    Ok(())
}
