//! What the tables say of a packet: the slow path.
ghost use Rattle.std.specs.Prelude.{◌≡◌, ◌≤◌, ◌+◌, None, length};
ghost use Rattle.and_policy.specs.Caches as caches;
ghost use Rattle.and_policy.specs.Egress as egresses;
ghost use Rattle.and_policy.specs.Fitting.{IsLog};
ghost use Rattle.and_policy.specs.Ingress as ingresses;
ghost use Rattle.and_policy.specs.Logs as logs;
ghost use Rattle.and_policy.specs.Programmes as programmes;
ghost use Rattle.and_policy.specs.Programmes.{entries};
ghost use Rattle.and_decide.specs.Deciding.{net_of_key};

use and_policy::{Dest, FlowKey, Landing, Leaving, Name, Outcome, Side, Tuple, Verdict, flow_hash};
use and_slow::{Steps, first_match};
use and_tables::HostTables;
use std::sync::ledger::Ledger;

// What the rules of the network say on this side.
fn verdict<L: Ledger>(
    tables: &HostTables,
    net: u32,
    side: Side,
    tuple: &Tuple,
    steps: &mut Steps<L>,
) -> Verdict
    ensures verdict { IsLog None (entries tables.now.ops) → result ≡ egresses.verdict side tuple.now (logs.rules (entries tables.now.ops) net) }
    ensures cost { IsLog None (entries tables.now.ops) → steps.new ≤ steps.old + length (logs.rules (entries tables.now.ops) net) }
{
    first_match(tables.rules(net), tuple, side, steps)
}

// The number of what denied; the implied verdict of egress never does.
fn number_of(by: Name) -> u32
    ensures { result ≡ egresses.number_of by }
{
    match by {
        Name::Implied => 0,
        Name::Rule(number) => number,
    }
}

// Where a packet goes that may leave the network: by the live order, or else to the gateway of its flow hash.
fn dest(tables: &HostTables, net: u32, tuple: &Tuple) -> Dest
    ensures { IsLog None (entries tables.now.ops) → result ≡ programmes.dest_by tables.now.gateways tuple.now (programmes.live tables.now.ops (length tables.now.ops) net tuple.now.destination) }
{
    match tables.offload(net, tuple.destination) {
        Some(order) => Dest::Offload {
            host: order.to_host,
            net: order.to_net,
        },
        None => Dest::Hover {
            gateway: u32::from(flow_hash(tuple)) % tables.gateways(),
        },
    }
}

// What becomes of a packet that leaves the VM.
fn leave<L: Ledger>(tables: &HostTables, vm: u32, tuple: &Tuple, steps: &mut Steps<L>) -> Leaving
    ensures leaving { IsLog None (entries tables.now.ops) → result ≡ programmes.leaving tables.now.gateways tables.now.ops (length tables.now.ops) vm tuple.now }
    ensures cost { IsLog None (entries tables.now.ops) → steps.new ≤ steps.old + length (logs.rules (entries tables.now.ops) (programmes.own_net (logs.vm_of (entries tables.now.ops) vm))) }
{
    let Some(net) = tables.net_of(vm) else {
        return Leaving::NoVm;
    };
    let Some(ip) = tables.address(vm) else {
        return Leaving::NoVm;
    };
    if tuple.source != ip {
        return Leaving::Spoofed;
    }
    let verdict = verdict(tables, net, Side::Egress, tuple, steps);
    if !verdict.allow {
        return Leaving::Denied {
            number: number_of(verdict.by),
        };
    }
    Leaving::Allowed {
        by: verdict.by,
        sealed: verdict.sealed,
        dest: dest(tables, net, tuple),
    }
}

// What becomes of a packet that has come into the network.
fn land<L: Ledger>(tables: &HostTables, net: u32, tuple: &Tuple, steps: &mut Steps<L>) -> Landing
    ensures landing { IsLog None (entries tables.now.ops) → result ≡ ingresses.landing (programmes.prefix tables.now.ops (length tables.now.ops)) net tuple.now }
    ensures cost { IsLog None (entries tables.now.ops) → steps.new ≤ steps.old + length (logs.rules (entries tables.now.ops) net) }
{
    let Some(vm) = tables.owner(net, tuple.destination) else {
        return Landing::NoOwner;
    };
    let verdict = verdict(tables, net, Side::Ingress, tuple, steps);
    Landing::Owned {
        vm,
        by: verdict.by,
        pass: verdict.allow,
    }
}

/// What the tables say of the key.
pub(crate) fn look_up<L: Ledger>(
    tables: &HostTables,
    key: &FlowKey,
    steps: &mut Steps<L>,
) -> Outcome
    ensures said { IsLog None (entries tables.now.ops) → result ≡ caches.said tables.now.gateways tables.now.ops (length tables.now.ops) key.now }
    ensures cost { IsLog None (entries tables.now.ops) → steps.new ≤ steps.old + length (logs.rules (entries tables.now.ops) (net_of_key tables.now key.now)) }
{
    match key.side {
        Side::Egress => Outcome::Leaving(leave(tables, key.scope, &key.tuple, steps)),
        Side::Ingress => Outcome::Landing(land(tables, key.scope, &key.tuple, steps)),
    }
}
