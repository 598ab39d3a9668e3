//! The three decisions and the flow cache against the plain policy.
ghost use Rattle.std.specs.Prelude.{◌≡◌, ◌≤◌, ◌<◌, IsOk, length};
ghost use Rattle.and_policy.specs.Frames.{fields};
ghost use Rattle.and_decide.specs.Deciding.{AreRight};

use crate::comparing::count_of;
use crate::drawing::Draws;
use crate::filled::{filled, said_of};
use crate::found::Found;
use crate::frames::frame_of;
use crate::plainly::{Puts, home_of};
use and_decide::{Behind, egress, gateway, ingress};
use and_flow::FlowCache;
use and_parcel::Parcel;
use and_policy::{
    Cached, Decision, Entry, FlowKey, GateDecision, NoMemory, Side, Tables, Tuple, Way, plain,
};
use and_routes::GatewayTables;
use and_slow::Steps;
use and_tables::HostTables;
use and_wire::read_frame;
use std::alloc::Global;
use std::sync::ledger::Ledger;

/// How many gateways there are.
pub(crate) const GATEWAYS: u32 = 3;

/// How a decision of the key is found: fast where the list of puts answers, and never where the source VM is not live.
fn way_of(entries: &[Entry], puts: &Puts, key: &FlowKey, at: u32) -> Way {
    if key.side == Side::Egress && home_of(entries, key.scope).is_none() {
        return Way::Slow;
    }
    match puts.look(key, at) {
        Some(_) => Way::Fast,
        None => Way::Slow,
    }
}

/// What is to be decided of the key at all operations of the tables.
fn wanted_of(tables: &HostTables, entries: &[Entry], puts: &Puts, key: &FlowKey) -> Decision {
    let at = count_of(tables.ops());
    Decision {
        at,
        way: way_of(entries, puts, key, at),
        outcome: said_of(tables, key, at),
    }
}

/// The decision of a packet that leaves its VM, and that by tables which are behind.
fn compare_egress<L: Ledger>(
    found: &mut Found,
    tables: &HostTables,
    cache: &FlowCache,
    parcel: &Parcel,
    wanted: Decision,
    steps: &mut Steps<L>,
) -> Result<(), NoMemory>
    requires frame { IsOk (fields parcel.now.frame) }
    requires right { AreRight tables.now cache.now }
{
    let at = wanted.at;
    found.count(wanted.way);
    let left = egress(tables, cache, parcel, at, steps);
    found.note(left == Ok(wanted), "egress")?;
    let need = at.saturating_add(1);
    let behind = egress(tables, cache, parcel, need, steps);
    found.note(behind == Err(Behind { at }), "egress behind")
}

/// The decision of a packet that has come into the network, and that by tables which are behind.
fn compare_ingress<L: Ledger>(
    found: &mut Found,
    tables: &HostTables,
    cache: &FlowCache,
    parcel: &Parcel,
    vni: u32,
    wanted: Decision,
    steps: &mut Steps<L>,
) -> Result<(), NoMemory>
    requires frame { IsOk (fields parcel.now.frame) }
    requires right { AreRight tables.now cache.now }
{
    let at = wanted.at;
    found.count(wanted.way);
    let landed = ingress(tables, cache, parcel, vni, at, steps);
    found.note(landed == Ok(wanted), "ingress")?;
    let need = at.saturating_add(1);
    let behind = ingress(tables, cache, parcel, vni, need, steps);
    found.note(behind == Err(Behind { at }), "ingress behind")
}

/// The decisions of a gateway.
fn compare_gates(
    found: &mut Found,
    gates: &GatewayTables,
    parcel: &Parcel,
    vni: u32,
    destination: u32,
) -> Result<(), NoMemory>
    requires { IsOk (fields parcel.now.frame) }
{
    let ops = gates.ops();
    let at = count_of(ops);
    let routed = plain::routed_at(ops, at, vni, destination);
    let by_route = gateway(gates, parcel, vni, false, at);
    found.note(
        by_route == Ok(GateDecision::Routed { at, routed }),
        "gateway by its route address",
    )?;
    let located = plain::located_at(ops, at, vni, destination);
    let by_redirect = gateway(gates, parcel, vni, true, at);
    found.note(
        by_redirect == Ok(GateDecision::Located { at, located }),
        "gateway by its redirect address",
    )?;
    let behind = gateway(gates, parcel, vni, false, at.saturating_add(1));
    found.note(behind == Err(Behind { at }), "gateway behind")
}

/// The three decisions of a packet of this VM, and in this network.
fn compare_decisions<L: Ledger>(
    alloc: Global,
    found: &mut Found,
    tables: &HostTables,
    gates: &GatewayTables,
    entries: &[Entry],
    cache: &FlowCache,
    puts: &Puts,
    scopes: (u32, u32),
    tuple: &Tuple,
    steps: &mut Steps<L>,
) -> Result<(), NoMemory>
    requires { AreRight tables.now cache.now }
{
    let (vm, vni) = scopes;
    let frame = frame_of(alloc, tuple)?;
    if read_frame(&frame).is_err() {
        return found.note(false, "read_frame");
    }
    let parcel = Parcel::make(alloc, &frame, 0, vm)?;
    let leaving = FlowKey {
        side: Side::Egress,
        scope: vm,
        tuple: *tuple,
    };
    let wanted = wanted_of(tables, entries, puts, &leaving);
    compare_egress(found, tables, cache, &parcel, wanted, steps)?;
    let landing = FlowKey {
        side: Side::Ingress,
        scope: vni,
        tuple: *tuple,
    };
    let wanted = wanted_of(tables, entries, puts, &landing);
    compare_ingress(found, tables, cache, &parcel, vni, wanted, steps)?;
    compare_gates(found, gates, &parcel, vni, tuple.destination)
}

/// A look into the cache, and a put.
fn compare_cache(
    found: &mut Found,
    draws: &mut Draws,
    tables: &HostTables,
    cache: &mut FlowCache,
    puts: &mut Puts,
) -> Result<(), NoMemory> {
    let key = FlowKey {
        side: draws.side(),
        scope: draws.vm(),
        tuple: draws.tuple(),
    };
    let at = count_of(tables.ops());
    let floor = draws.below(at.saturating_add(1));
    found.note(cache.look(&key, floor) == puts.look(&key, floor), "look")?;
    let outcome = said_of(tables, &key, at);
    cache.put(&key, at, outcome);
    puts.put(Cached {
        key,
        stamp: at,
        outcome,
    })
}

/// A drawn VM, and a tuple of its own address where it is live.
fn packet_of(draws: &mut Draws, entries: &[Entry]) -> (u32, Tuple) {
    let (vm, tuple) = (draws.vm(), draws.tuple());
    match home_of(entries, vm) {
        Some((_, source)) => (vm, Tuple { source, ..tuple }),
        None => (vm, tuple),
    }
}

/// The decisions of a drawn packet, over a cache after so many puts: as one of its VM and in a network, and of as many other VMs and networks.
fn compare_packet<L: Ledger>(
    alloc: Global,
    found: &mut Found,
    draws: &mut Draws,
    tables: &HostTables,
    gates: &GatewayTables,
    entries: &[Entry],
    count: u32,
    others: u32,
    steps: &mut Steps<L>,
) -> Result<(), NoMemory> {
    let (own, tuple) = packet_of(draws, entries);
    let mut puts = Puts::new(alloc);
    let cache = filled(alloc, draws, tables, &tuple, count, &mut puts)?;
    for other in 0..=others {
        let vm = if other == 0 { own } else { draws.vm() };
        let scopes = (vm, draws.net());
        compare_decisions(
            alloc, found, tables, gates, entries, &cache, &puts, scopes, &tuple, steps,
        )?;
    }
    Ok(())
}

/// The decisions of a drawn packet over a cache in which its group is full, or was and has thrown the oldest out.
pub(crate) fn compare_full<L: Ledger>(
    alloc: Global,
    found: &mut Found,
    draws: &mut Draws,
    tables: &HostTables,
    gates: &GatewayTables,
    entries: &[Entry],
    steps: &mut Steps<L>,
) -> Result<(), NoMemory> {
    compare_packet(alloc, found, draws, tables, gates, entries, 48, 7, steps)
}

/// The decisions of drawn packets over an empty cache, and looks into a cache of drawn keys.
pub(crate) fn compare_drawn<L: Ledger>(
    alloc: Global,
    found: &mut Found,
    draws: &mut Draws,
    tables: &HostTables,
    gates: &GatewayTables,
    entries: &[Entry],
    cache: &mut FlowCache,
    puts: &mut Puts,
    steps: &mut Steps<L>,
) -> Result<(), NoMemory> {
    for _packet in 0..4_u32 {
        compare_packet(alloc, found, draws, tables, gates, entries, 0, 0, steps)?;
    }
    for _key in 0..12_u32 {
        compare_cache(found, draws, tables, cache, puts)?;
    }
    Ok(())
}
