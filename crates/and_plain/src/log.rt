//! What a list of log entries says of VMs and ticks.
ghost use Rattle.std.specs.Prelude.{◌≡◌, ◌+◌, ◌<◌, ◌≤◌, length};
ghost use Rattle.and_policy.specs.Logs as logs;
ghost use Rattle.and_policy.specs.Owners as owners;
ghost use Rattle.and_policy.specs.Programmes as programmes;

use and_policy::Entry;

// The host to which an entry brings the VM.
fn host_by(vm: u32, entry: &Entry) -> Option<u32>
    ensures { result ≡ owners.host_by vm entry.now }
{
    match *entry {
        Entry::AddVm { vm: v, host, .. } if v == vm => Some(host),
        Entry::Place { vm: v, host } if v == vm => Some(host),
        _ => None,
    }
}

/// The host of the VM's last `AddVm` or `Place` entry.
pub(crate) fn place(log: &[Entry], vm: u32) -> Option<u32>
    ensures { result ≡ owners.place log.now vm }
{
    match log {
        [] => None,
        [first, rest @ ..] => match place(rest, vm) {
            Some(host) => Some(host),
            None => host_by(vm, first),
        },
    }
}

/// The network of the VM, as its entry added it.
pub(crate) fn net_of_vm(log: &[Entry], vm: u32) -> Option<u32>
    ensures { result ≡ programmes.net_of_vm log.now vm }
{
    match log {
        [] => None,
        [Entry::AddVm { vm: v, net, .. }, ..] if *v == vm => Some(*net),
        [_, rest @ ..] => net_of_vm(rest, vm),
    }
}

/// The number of ticks.
pub(crate) fn now(log: &[Entry]) -> usize
    ensures value { result ≡ logs.now log.now }
    ensures bound { result ≤ length log.now }
{
    match log {
        [] => 0,
        [Entry::Tick, rest @ ..] => 1 + now(rest),
        [_, rest @ ..] => now(rest),
    }
}
