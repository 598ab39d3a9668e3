//! Looks into tables, with a sum over what they answer.
ghost use Rattle.std.specs.Prelude.{◌<◌};

use crate::filling::{BASE, Size};
use and_policy::{Located, Routed};
use and_routes::GatewayTables;
use and_tables::HostTables;

fn more(sum: u32, number: u32) -> u32 {
    sum.wrapping_mul(31).wrapping_add(number)
}

// The VM of a round.
fn vm_of(size: Size, round: u32) -> u32 {
    round.wrapping_mul(7919) % size.vms
}

// The network and the address of a round's VM.
fn home_of(size: Size, round: u32) -> (u32, u32) {
    let vm = vm_of(size, round);
    let net = 1_u32.saturating_add(vm % size.nets);
    (net, BASE.saturating_add(vm))
}

fn route_of(routed: Routed) -> u32 {
    match routed {
        Routed::Dropped { .. } => 1,
        Routed::NoOwner { .. } => 2,
        Routed::To { net, host, .. } => host.wrapping_mul(3).wrapping_add(net),
    }
}

fn place_of(located: Located) -> u32 {
    match located {
        Located::NoOwner => 1,
        Located::To { host } => host,
    }
}

pub(crate) fn net_of(tables: &HostTables, size: Size, rounds: u32) -> u32 {
    let mut sum = 0;
    for round in 0..rounds {
        sum = more(sum, tables.net_of(vm_of(size, round)).unwrap_or(0));
    }
    sum
}

pub(crate) fn address(tables: &HostTables, size: Size, rounds: u32) -> u32 {
    let mut sum = 0;
    for round in 0..rounds {
        sum = more(sum, tables.address(vm_of(size, round)).unwrap_or(0));
    }
    sum
}

pub(crate) fn owner(tables: &HostTables, size: Size, rounds: u32) -> u32 {
    let mut sum = 0;
    for round in 0..rounds {
        let (net, ip) = home_of(size, round);
        sum = more(sum, tables.owner(net, ip).unwrap_or(0));
    }
    sum
}

pub(crate) fn offload(tables: &HostTables, size: Size, rounds: u32) -> u32 {
    let mut sum = 0;
    for round in 0..rounds {
        let (net, ip) = home_of(size, round);
        let host = match tables.offload(net, ip) {
            Some(order) => order.to_host,
            None => 64,
        };
        sum = more(sum, host);
    }
    sum
}

pub(crate) fn touched(tables: &HostTables, size: Size, rounds: u32) -> u32 {
    let mut sum = 0;
    for round in 0..rounds {
        sum = more(sum, tables.touched(home_of(size, round).0));
    }
    sum
}

pub(crate) fn rules(tables: &HostTables, size: Size, rounds: u32) -> u32 {
    let mut sum = 0;
    for round in 0..rounds {
        let number = match tables.rules(home_of(size, round).0) {
            [first, ..] => first.number,
            [] => 0,
        };
        sum = more(sum, number);
    }
    sum
}

pub(crate) fn route(gates: &GatewayTables, size: Size, rounds: u32) -> u32 {
    let mut sum = 0;
    for round in 0..rounds {
        let (net, ip) = home_of(size, round);
        sum = more(sum, route_of(gates.route(net, ip)));
    }
    sum
}

pub(crate) fn locate(gates: &GatewayTables, size: Size, rounds: u32) -> u32 {
    let mut sum = 0;
    for round in 0..rounds {
        let (net, ip) = home_of(size, round);
        sum = more(sum, place_of(gates.locate(net, ip)));
    }
    sum
}
