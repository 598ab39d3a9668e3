//! VMs of a prefix.
ghost use Rattle.std.specs.Prelude.{◌≡◌, ◌+◌, ◌≤◌, List, option_map, option_and_then};
ghost use Rattle.std.specs.List.{list_any};
ghost use Rattle.and_policy.specs.Logged.{entries_in, before, is_entry};
ghost use Rattle.and_policy.specs.Logs as logs;
ghost use Rattle.and_policy.specs.Homes.{home_of};
ghost use Rattle.and_policy.specs.Owners as owners;
ghost use Rattle.and_policy.specs.Programmes as programmes;

use crate::entry::Entry;
use crate::plain::logged::Logged;

// Whether the entry removes the VM.
fn removes(vm: u32, entry: Option<Entry>) -> bool
    ensures { result ≡ is_entry (logs.removes vm) entry }
{
    match entry {
        Some(Entry::RemoveVm { vm: removed }) => removed == vm,
        _ => false,
    }
}

// Whether an entry removes the VM.
fn is_removed<T: Logged>(log: &[T], vm: u32) -> bool
    ensures { result ≡ list_any (logs.removes vm) (entries_in T.entry_of log.now) }
{
    let mut removed = false;
    let mut at = log.len();
    while at > 0 {
        at -= 1;
        removed = removes(vm, log[at].entry()) || removed;
    }
    removed
}

// The host to which the entry brings the VM.
fn host_by(vm: u32, entry: Option<Entry>) -> Option<u32>
    ensures { result ≡ option_and_then (owners.host_by vm) entry }
{
    match entry {
        Some(Entry::AddVm { vm: v, host, .. }) if v == vm => Some(host),
        Some(Entry::Place { vm: v, host }) if v == vm => Some(host),
        _ => None,
    }
}

/// The host of the VM's last `AddVm` or `Place` entry.
pub(crate) fn place<T: Logged>(log: &[T], vm: u32) -> Option<u32>
    ensures { result ≡ owners.place (entries_in T.entry_of log.now) vm }
{
    let mut found = None;
    let mut at = log.len();
    while at > 0 {
        at -= 1;
        found = found.or(host_by(vm, log[at].entry()));
    }
    found
}

// The number of the live VM that passes, the first of them: where the entry adds it and no later one removes it.
fn owner_step<T: Logged>(
    net: u32,
    address: u32,
    item: &T,
    later: &[T],
    found: Option<u32>,
) -> Option<u32>
    requires { found ≡ owners.owner (entries_in T.entry_of later.now) net address }
    ensures { result ≡ owners.owner (before (T.entry_of item.now) (entries_in T.entry_of later.now)) net address }
{
    match item.entry() {
        Some(Entry::AddVm { vm, net: n, ip, .. })
            if n == net && ip == address && !is_removed(later, vm) => Some(vm),
        _ => found,
    }
}

/// The live VM of the network with this address.
pub(crate) fn owner<T: Logged>(log: &[T], net: u32, address: u32) -> Option<u32>
    ensures { result ≡ owners.owner (entries_in T.entry_of log.now) net address }
{
    let mut found = None;
    let mut at = log.len();
    while at > 0 {
        at -= 1;
        found = owner_step(net, address, &log[at], &log[at + 1..], found);
    }
    found
}

/// Network and address of a VM.
#[derive(Debug, Clone, Copy, PartialEq, Eq)]
pub(crate) struct Home {
    /// The network.
    pub(crate) net: u32,
    /// The IPv4 address.
    pub(crate) ip: u32,
}

// The live VM of this number, one item further to the front.
fn home_step<T: Logged>(vm: u32, item: &T, later: &[T], found: Option<Home>) -> Option<Home>
    requires { found ≡ option_map home_of (logs.vm_of (entries_in T.entry_of later.now) vm) }
    ensures { let log = before (T.entry_of item.now) (entries_in T.entry_of later.now) in
        result ≡ option_map home_of (logs.vm_of log vm) }
{
    match item.entry() {
        Some(Entry::AddVm { vm: v, net, ip, .. }) if v == vm && !is_removed(later, v) => Some(Home {
            net,
            ip,
        }),
        _ => found,
    }
}

/// Network and address of the live VM of this number.
pub(crate) fn find_home<T: Logged>(log: &[T], vm: u32) -> Option<Home>
    ensures { result ≡ option_map home_of (logs.vm_of (entries_in T.entry_of log.now) vm) }
{
    let mut found = None;
    let mut at = log.len();
    while at > 0 {
        at -= 1;
        found = home_step(vm, &log[at], &log[at + 1..], found);
    }
    found
}

/// The place of the owner of the address in the network.
pub(crate) fn owner_place<T: Logged>(log: &[T], net: u32, address: u32) -> Option<u32>
    ensures { result ≡ owners.owner_place (entries_in T.entry_of log.now) net address }
{
    let vm = owner(log, net, address)?;
    place(log, vm)
}

// The network of the VM, as its entry added it, one item further to the front.
fn net_step(vm: u32, entry: Option<Entry>, found: Option<u32>) -> Option<u32>
    ensures { (k : List Entry) → found ≡ programmes.net_of_vm k vm
        → result ≡ programmes.net_of_vm (before entry k) vm }
{
    match entry {
        Some(Entry::AddVm { vm: v, net, .. }) if v == vm => Some(net),
        _ => found,
    }
}

// The network of the VM, as its entry added it, whether it was removed since or not.
fn net_of_vm<T: Logged>(log: &[T], vm: u32) -> Option<u32>
    ensures { result ≡ programmes.net_of_vm (entries_in T.entry_of log.now) vm }
{
    let mut found = None;
    let mut at = log.len();
    while at > 0 {
        at -= 1;
        found = net_step(vm, log[at].entry(), found);
    }
    found
}

/// The network of an entry: the one that it names, or that of its VM. The peer of a route does not count.
pub(crate) fn net_of<T: Logged>(log: &[T], entry: &Entry) -> Option<u32>
    ensures { result ≡ programmes.net_of (entries_in T.entry_of log.now) entry.now }
{
    match *entry {
        Entry::AddNet { net }
        | Entry::AddVm { net, .. }
        | Entry::AddRule { net, .. }
        | Entry::DelRule { net, .. }
        | Entry::AddRoute { net, .. }
        | Entry::DelRoute { net, .. } => Some(net),
        Entry::RemoveVm { vm } | Entry::Place { vm, .. } => net_of_vm(log, vm),
        Entry::Tick => None,
    }
}

// One where the entry is a tick.
fn ticks(entry: Option<Entry>) -> usize
    ensures one { result ≤ 1 }
    ensures step { (k : List Entry) → logs.now (before entry k) ≡ result + logs.now k }
{
    match entry {
        Some(Entry::Tick) => 1,
        _ => 0,
    }
}

/// The number of ticks.
pub(crate) fn now<T: Logged>(log: &[T]) -> usize
    ensures { result ≡ logs.now (entries_in T.entry_of log.now) }
{
    let mut count = 0;
    let mut at = log.len();
    while at > 0 {
        at -= 1;
        count = ticks(log[at].entry()) + count;
    }
    count
}
