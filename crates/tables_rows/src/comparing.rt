//! The calls of tables against the plain policy.
ghost use Rattle.std.specs.Prelude.{◌≤◌, length};

use crate::drawing::Draws;
use crate::found::Found;
use crate::plainly::{home_of, rules_of};
use and_policy::{Entry, NoMemory, Op, Side, Tables, Tuple, plain};
use and_routes::GatewayTables;
use and_slow::{Steps, first_match};
use and_tables::HostTables;
use std::alloc::Global;
use std::sync::ledger::Ledger;

/// How many operations there are.
pub(crate) fn count_of(ops: &[Op]) -> u32
    ensures { result ≤ length ops.now }
{
    match u32::try_from(ops.len()) {
        Ok(count) => count,
        Err(_) => 0,
    }
}

/// What is said of one network.
fn compare_net<L: Ledger>(
    alloc: Global,
    found: &mut Found,
    tables: &HostTables,
    entries: &[Entry],
    net: u32,
    tuple: &Tuple,
    steps: &mut Steps<L>,
) -> Result<(), NoMemory> {
    let ops = tables.ops();
    let touched = plain::touched(ops, count_of(ops), net);
    found.note(tables.touched(net) == touched, "touched")?;
    let rules = tables.rules(net);
    let plainly = rules_of(alloc, entries, net)?;
    found.note(*rules == *plainly, "rules")?;
    let left = first_match(rules, tuple, Side::Egress, steps);
    let said = plain::verdict(Side::Egress, tuple, &plainly);
    found.note(left == said, "first_match of egress")?;
    let landed = first_match(rules, tuple, Side::Ingress, steps);
    let said = plain::verdict(Side::Ingress, tuple, &plainly);
    found.note(landed == said, "first_match of ingress")
}

/// What is said of an address in a network.
fn compare_address(
    found: &mut Found,
    tables: &HostTables,
    gates: &GatewayTables,
    entries: &[Entry],
    net: u32,
    ip: u32,
) -> Result<(), NoMemory> {
    let ops = tables.ops();
    let order = plain::live(ops, count_of(ops), net, ip);
    found.note(tables.offload(net, ip) == order, "offload")?;
    let owner = plain::owner(entries, net, ip);
    found.note(tables.owner(net, ip) == owner, "owner")?;
    let routed = plain::routed(entries, net, ip);
    found.note(gates.route(net, ip) == routed, "route")?;
    let located = plain::located(entries, net, ip);
    found.note(gates.locate(net, ip) == located, "locate")
}

/// What is said of a VM.
fn compare_vm(
    found: &mut Found,
    tables: &HostTables,
    entries: &[Entry],
    vm: u32,
) -> Result<(), NoMemory> {
    let home = home_of(entries, vm);
    let net = home.map(|home| home.0);
    found.note(tables.net_of(vm) == net, "net_of")?;
    let ip = home.map(|home| home.1);
    found.note(tables.address(vm) == ip, "address")
}

/// Each call of the tables, at each network and VM and at drawn addresses.
pub(crate) fn compare_tables<L: Ledger>(
    alloc: Global,
    found: &mut Found,
    draws: &mut Draws,
    tables: &HostTables,
    gates: &GatewayTables,
    entries: &[Entry],
    steps: &mut Steps<L>,
) -> Result<(), NoMemory> {
    for net in 1..=5_u32 {
        compare_net(alloc, found, tables, entries, net, &draws.tuple(), steps)?;
    }
    for vm in 0..24_u32 {
        compare_vm(found, tables, entries, vm)?;
    }
    for _address in 0..16_u32 {
        compare_address(found, tables, gates, entries, draws.net(), draws.address())?;
    }
    Ok(())
}
