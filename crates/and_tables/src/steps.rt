//! What one operation changes.
ghost use Rattle.std.specs.Prelude.{◌≡◌, ◌<◌, ℕ, List, if◌then◌else◌};
ghost use Rattle.std.specs.HashMap as hash;
ghost use Rattle.and_policy.specs.declared.entry.Entry.{Entry};
ghost use Rattle.and_policy.specs.Programmes as programmes;
ghost use Rattle.and_policy.specs.Registers.{IsRegister};
ghost use Rattle.and_tables.specs.Numbers.{at};
ghost use Rattle.and_tables.specs.Steps as step;

use crate::maps::put;
use and_policy::{Entry, Op, Register};
use std::collections::HashMap;

/// The network that the operation names.
pub(crate) fn named(register: &Register, op: &Op) -> Option<u32>
    ensures { (k : List Entry) → IsRegister register.now k → result ≡ step.named (programmes.net_of_vm k) op.now }
{
    match op {
        Op::Offload(_) | Op::Entry(Entry::Tick) => None,
        Op::Entry(Entry::RemoveVm { vm } | Entry::Place { vm, .. }) => register.added_net(*vm),
        Op::Entry(
            Entry::AddNet { net }
            | Entry::AddVm { net, .. }
            | Entry::AddRule { net, .. }
            | Entry::DelRule { net, .. }
            | Entry::AddRoute { net, .. }
            | Entry::DelRoute { net, .. },
        ) => Some(*net),
    }
}

/// How many ticks the operation is.
pub(crate) fn ticks_of(op: &Op) -> u32
    ensures { result ≡ step.ticks_of op.now }
{
    match op {
        Op::Entry(Entry::Tick) => 1,
        _ => 0,
    }
}

/// Writes the place at the network that the operation names.
pub(crate) fn enter(entered: &mut HashMap<u32, u32>, name: Option<u32>, here: u32)
    requires { 0 < hash.spare entered.old }
    ensures { (net : ℕ) → at entered.new net ≡ (if programmes.is_net name net then here else at entered.old net) }
{
    match name {
        None => {}
        Some(net) => put(entered, net, here),
    }
}

/// The network that the operation names, or for which it is an order.
pub(crate) fn own(name: Option<u32>, op: &Op) -> Option<u32>
    ensures { result ≡ step.own name op.now }
{
    match op {
        Op::Offload(order) => Some(order.net),
        Op::Entry(_) => name,
    }
}
