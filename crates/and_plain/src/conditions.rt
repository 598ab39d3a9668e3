//! What may be announced and installed, and what nodes know.
ghost use Rattle.std.specs.Prelude.{◌≡◌, ◌≤◌, ◌<◌, ◌↔◌, IsTrue, IfSome, length, position, take};
ghost use Rattle.and_policy.specs.Programmes as programmes;
ghost use Rattle.and_events.specs.Legal as spec;
ghost use Rattle.and_events.specs.Programming as programming;

use crate::places::{is_node, node_place};
use crate::rows::{at_or, row_at};
use crate::state::{State, announced_of, installed_of, programme_of};
use and_events::{Node, Plan};
use and_policy::{Entry, Op};

/// Whether installs at the node are held.
pub(crate) fn install_held(plan: &Plan, s: &State, node: Node) -> bool
    ensures { result ≡ spec.install_held plan.now s.now node }
{
    at_or(
        &s.node_holds.install,
        node_place(&plan.settings, node),
        false,
    )
}

/// Whether forwarding at the node is held.
pub(crate) fn forward_held(plan: &Plan, s: &State, node: Node) -> bool
    ensures { result ≡ spec.forward_held plan.now s.now node }
{
    at_or(
        &s.node_holds.forward,
        node_place(&plan.settings, node),
        false,
    )
}

/// Whether the node's installer may announce.
pub(crate) fn can_announce(plan: &Plan, s: &State, node: Node) -> bool
    ensures { IsTrue result ↔ spec.CanAnnounce plan.now s.now node }
{
    let announced = announced_of(plan, s, node);
    is_node(&plan.settings, node)
        && !install_held(plan, s, node)
        && announced == installed_of(plan, s, node)
        && (announced as usize) < programme_of(plan, s, node).len()
}

/// Whether it has announced something that is not installed.
pub(crate) fn can_install(plan: &Plan, s: &State, node: Node) -> bool
    ensures { IsTrue result ↔ spec.CanInstall plan.now s.now node }
{
    is_node(&plan.settings, node) && installed_of(plan, s, node) < announced_of(plan, s, node)
}

/// Whether all of the node's programme is announced and installed.
pub(crate) fn is_up_to_date(plan: &Plan, s: &State, node: Node) -> bool
    ensures { IsTrue result ↔ spec.IsUpToDate plan.now s.now node }
{
    let count = programme_of(plan, s, node).len();
    announced_of(plan, s, node) as usize == count && installed_of(plan, s, node) as usize == count
}

// How many log entries are among the operations.
fn count_entries(ops: &[Op]) -> usize
    ensures value { result ≡ length (programmes.entries ops.now) }
    ensures bound { result ≤ length ops.now }
{
    match ops {
        [] => 0,
        [Op::Entry(_), rest @ ..] => 1 + count_entries(rest),
        [Op::Offload(_), rest @ ..] => count_entries(rest),
    }
}

/// How many operations count, where there are not more than these.
pub fn clamp(ops: &[Op], count: u32) -> u32
    ensures same { take result ops.now ≡ take count ops.now }
    ensures within { result ≤ length ops.now }
{
    if count as usize <= ops.len() {
        count
    } else {
        ops.len() as u32
    }
}

// How many log entries are among the first operations.
fn count_first(ops: &[Op], count: u32) -> usize
    ensures { result ≡ length (programmes.prefix ops.now count) }
{
    let count = clamp(ops, count);
    count_entries(&ops[..count as usize])
}

/// Whether the node at this place has installed the log entry of this number, from 1.
pub(crate) fn has_installed(s: &State, place: usize, number: usize) -> bool
    ensures { IsTrue result ↔ programming.HasInstalled s.now.programmes place number }
{
    let ops = row_at(&s.programmes.ops, place);
    number <= count_first(ops, at_or(&s.programmes.installed, place, 0))
}

// Whether the entry adds the VM.
fn adds(vm: u32, entry: &Entry) -> bool
    ensures { result ≡ programmes.adds vm entry.now }
{
    match *entry {
        Entry::AddVm { vm: v, .. } => v == vm,
        _ => false,
    }
}

// How many log entries stand before the VM's AddVm entry.
fn added_before(log: &[Entry], vm: u32) -> Option<usize>
    ensures value { result ≡ position (programmes.adds vm) log.now }
    ensures within { IfSome result (λ place. place < length log.now) }
{
    log.iter().position(|entry| adds(vm, entry))
}

// The number of the VM's AddVm entry in the log, from 1.
fn added_at(log: &[Entry], vm: u32) -> Option<usize>
    ensures { result ≡ programmes.added_at log.now vm }
{
    match added_before(log, vm) {
        Some(place) => Some(place + 1),
        None => None,
    }
}

/// Whether the host has installed the VM's AddVm entry.
pub(crate) fn knows_vm(plan: &Plan, s: &State, host: u32, vm: u32) -> bool
    ensures { IsTrue result ↔ spec.KnowsVm plan.now s.now host vm }
{
    let Some(number) = added_at(&s.programmes.log, vm) else {
        return false;
    };
    host < plan.settings.hosts && has_installed(s, host as usize, number)
}
