//! Decisions over a parcel, with a sum over what they say.
ghost use Rattle.std.specs.Prelude.{◌≡◌, ◌<◌, ◌≤◌, IsOk, IfOk, length};
ghost use Rattle.and_policy.specs.Frames.{fields};
ghost use Rattle.and_decide.specs.Deciding.{AreRight};

use and_decide::{Behind, egress, gateway, ingress};
use and_flow::FlowCache;
use and_parcel::Parcel;
use and_policy::{
    Decision, Dest, FlowKey, GateDecision, Landing, Leaving, Located, NoMemory, Op, Outcome,
    Routed, Side, Tables, Tuple, plain,
};
use and_routes::GatewayTables;
use and_slow::Steps;
use and_tables::HostTables;
use and_wire::read_frame;
use std::alloc::Global;
use std::sync::ledger::Ledger;

/// How many gateways there are.
pub(crate) const GATEWAYS: u32 = 4;

/// Which decision is timed.
#[derive(Clone, Copy, PartialEq, Eq)]
pub enum Kind {
    Egress,
    Ingress,
    Gateway,
}

/// An Ethernet and an IPv4 header and eight bytes: UDP from 10.0.0.0, port 4096, to 10.0.0.64, port 80.
const FRAME: [u8; 42] = [
    2, 0, 0, 0, 0, 2, 2, 0, 0, 0, 0, 1, 8, 0, 0x45, 0, 0, 28, 0, 0, 0, 0, 64, 17, 0, 0, 10, 0, 0,
    0, 10, 0, 0, 64, 16, 0, 0, 80, 0, 8, 0, 0,
];

fn number_of(decided: Result<Decision, Behind>) -> u32 {
    let Ok(decision) = decided else {
        return 1;
    };
    match decision.outcome {
        Outcome::Leaving(
            Leaving::Allowed {
                dest: Dest::Offload { host, net },
                ..
            },
        ) => host.wrapping_mul(3).wrapping_add(net),
        Outcome::Leaving(
            Leaving::Allowed {
                dest: Dest::Hover { gateway },
                ..
            },
        ) => gateway.wrapping_add(5),
        Outcome::Landing(Landing::Owned { vm, pass, .. }) => {
            vm.wrapping_add(if pass { 1000 } else { 0 })
        }
        _ => 3,
    }
}

fn gate_number_of(decided: Result<GateDecision, Behind>) -> u32 {
    match decided {
        Ok(
            GateDecision::Routed {
                routed: Routed::To { net, host, .. },
                ..
            },
        ) => host.wrapping_mul(3).wrapping_add(net),
        Ok(
            GateDecision::Located {
                located: Located::To { host },
                ..
            },
        ) => host,
        _ => 3,
    }
}

fn egresses<L: Ledger>(
    tables: &HostTables,
    cache: &FlowCache,
    parcel: &Parcel,
    rounds: u32,
    steps: &mut Steps<L>,
) -> u32
    requires frame { IsOk (fields parcel.now.frame) }
    requires right { AreRight tables.now cache.now }
{
    let mut sum: u32 = 0;
    for round in 0..rounds {
        let number = number_of(egress(tables, cache, parcel, round % 2, steps));
        sum = sum.wrapping_mul(31).wrapping_add(number);
    }
    sum
}

fn ingresses<L: Ledger>(
    tables: &HostTables,
    cache: &FlowCache,
    parcel: &Parcel,
    rounds: u32,
    steps: &mut Steps<L>,
) -> u32
    requires frame { IsOk (fields parcel.now.frame) }
    requires right { AreRight tables.now cache.now }
{
    let mut sum: u32 = 0;
    for round in 0..rounds {
        let number = number_of(ingress(tables, cache, parcel, 1, round % 2, steps));
        sum = sum.wrapping_mul(31).wrapping_add(number);
    }
    sum
}

fn gateways(gates: &GatewayTables, parcel: &Parcel, rounds: u32) -> u32
    requires { IsOk (fields parcel.now.frame) }
{
    let mut sum: u32 = 0;
    for round in 0..rounds {
        let number = gate_number_of(gateway(gates, parcel, 1, round % 2 == 1, round % 2));
        sum = sum.wrapping_mul(31).wrapping_add(number);
    }
    sum
}

// How many operations there are.
fn count_of(ops: &[Op]) -> u32
    ensures { result ≤ length ops.now }
{
    match u32::try_from(ops.len()) {
        Ok(count) => count,
        Err(_) => 0,
    }
}

// Puts what the tables' operations say of the key.
#[tactic(auto, using(and_decide::proofs::Remembered::right_put), unfolding(and_policy::specs::Caches::said))]
fn remember(tables: &HostTables, cache: &mut FlowCache, key: &FlowKey)
    requires { AreRight tables.now cache.old }
    ensures { AreRight tables.now cache.new }
{
    let ops = tables.ops();
    let at = count_of(ops);
    let outcome = match key.side {
        Side::Egress => {
            let gateways = tables.gateways();
            Outcome::Leaving(plain::leaving(gateways, ops, at, key.scope, &key.tuple))
        }
        Side::Ingress => Outcome::Landing(plain::landing_at(ops, at, key.scope, &key.tuple)),
    };
    cache.put(key, at, outcome);
}

// A cache without entries, or with those of the parcel.
#[tactic(auto, using(and_decide::proofs::Remembered::right_empty))]
fn cache_of(
    alloc: Global,
    tables: &HostTables,
    fast: bool,
    tuple: Tuple,
) -> Result<FlowCache, NoMemory>
    ensures { IfOk result (λ c. AreRight tables.now c) }
{
    let mut cache = FlowCache::make(alloc)?;
    if fast {
        let leaving = FlowKey {
            side: Side::Egress,
            scope: 0,
            tuple,
        };
        remember(tables, &mut cache, &leaving);
        let landing = FlowKey {
            side: Side::Ingress,
            scope: 1,
            tuple,
        };
        remember(tables, &mut cache, &landing);
    }
    Ok(cache)
}

/// So many decisions of one parcel: by the cache, or by the tables.
pub(crate) fn decide<L: Ledger>(
    alloc: Global,
    tables: &HostTables,
    gates: &GatewayTables,
    kind: Kind,
    fast: bool,
    rounds: u32,
    steps: &mut Steps<L>,
) -> Result<u32, NoMemory> {
    let Ok(fields) = read_frame(&FRAME) else {
        return Err(NoMemory);
    };
    let parcel = Parcel::make(alloc, &FRAME, 0, 0)?;
    let cache = cache_of(alloc, tables, fast, fields.tuple)?;
    Ok(match kind {
        Kind::Egress => egresses(tables, &cache, &parcel, rounds, steps),
        Kind::Ingress => ingresses(tables, &cache, &parcel, rounds, steps),
        Kind::Gateway => gateways(gates, &parcel, rounds),
    })
}
