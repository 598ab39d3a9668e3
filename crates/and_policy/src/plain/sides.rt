//! What a packet meets: its VM's rules, a gateway's routes and owners, the rules of its destination.
ghost use Rattle.std.specs.Prelude.{◌≡◌};
ghost use Rattle.and_policy.specs.Egress as egresses;
ghost use Rattle.and_policy.specs.Ingress as ingresses;
ghost use Rattle.and_policy.specs.Logged.{entries_in};
ghost use Rattle.and_policy.specs.Owners as owners;

use crate::decision::{Exit, Landing, Located, Name, Routed, Routing, Verdict};
use crate::entry::Side;
use crate::packet::Tuple;
use crate::plain::logged::Logged;
use crate::plain::routes::route_in;
use crate::plain::rules::verdict_in;
use crate::plain::vms::{find_home, owner, owner_place};

// What an egress verdict means for the packet.
fn exit_by(verdict: Verdict) -> Exit
    ensures { result ≡ egresses.exit_by verdict }
{
    if verdict.allow {
        return Exit::Allowed {
            by: verdict.by,
            sealed: verdict.sealed,
        };
    }
    match verdict.by {
        Name::Implied => Exit::Denied { number: 0 },
        Name::Rule(number) => Exit::Denied { number },
    }
}

/// What the entries say of a packet that leaves this VM.
pub(crate) fn egress_in<T: Logged>(log: &[T], vm: u32, tuple: &Tuple) -> Exit
    ensures { result ≡ egresses.egress (entries_in T.entry_of log.now) vm tuple.now }
{
    match find_home(log, vm) {
        None => Exit::NoVm,
        Some(home) if tuple.source == home.ip => exit_by(verdict_in(
            Side::Egress,
            tuple,
            log,
            home.net,
        )),
        Some(_) => Exit::Spoofed,
    }
}

/// What the entries say of a packet that has come for the owner of its destination.
pub(crate) fn landing_in<T: Logged>(log: &[T], net: u32, tuple: &Tuple) -> Landing
    ensures { result ≡ ingresses.landing (entries_in T.entry_of log.now) net tuple.now }
{
    match owner(log, net, tuple.destination) {
        None => Landing::NoOwner,
        Some(vm) => {
            let verdict = verdict_in(Side::Ingress, tuple, log, net);
            Landing::Owned {
                vm,
                by: verdict.by,
                pass: verdict.allow,
            }
        }
    }
}

/// Where the route of the network leads, and the place of the owner there.
pub(crate) fn routed_in<T: Logged>(log: &[T], net: u32, address: u32) -> Routed
    ensures { result ≡ owners.routed (entries_in T.entry_of log.now) net address }
{
    match route_in(log, net, address) {
        Routing::Dropped { by } => Routed::Dropped { by },
        Routing::Into { by, net } => match owner_place(log, net, address) {
            None => Routed::NoOwner { by },
            Some(host) => Routed::To { by, net, host },
        },
    }
}

/// The place of the owner in the network itself.
pub(crate) fn located_in<T: Logged>(log: &[T], net: u32, address: u32) -> Located
    ensures { result ≡ owners.located (entries_in T.entry_of log.now) net address }
{
    match owner_place(log, net, address) {
        None => Located::NoOwner,
        Some(host) => Located::To { host },
    }
}
