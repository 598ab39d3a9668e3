//! The operations that the tables are filled with.
ghost use Rattle.std.specs.Prelude.{◌<◌};

use and_policy::{Entry, NoMemory, Op, Order, Prefix, Route, Rule, Side, Tables, Target};
use std::alloc::Global;

/// The first address of VMs.
pub(crate) const BASE: u32 = 0x0a00_0000;

const ANY: Prefix = Prefix {
    address: 0,
    length: 0,
};

/// How large the tables are.
#[derive(Clone, Copy)]
pub struct Size {
    pub(crate) entries: u32,
    pub(crate) nets: u32,
    pub(crate) vms: u32,
    ghost some: { 0 < nets },
    ghost any: { 0 < vms },
}

impl Size {
    /// With so many entries: 8 networks and 128 VMs, or 64 and 1,024 where there are 10,000 entries.
    pub(crate) fn of(entries: u32) -> Size {
        if entries < 10_000 {
            Size {
                entries,
                nets: 8,
                vms: 128,
            }
        } else {
            Size {
                entries,
                nets: 64,
                vms: 1024,
            }
        }
    }
}

// Its ports begin at 1000, so that a packet for port 80 passes it over.
fn rule(number: u32) -> Rule {
    Rule {
        number,
        priority: (number % 8) as u16,
        side: if number % 2 == 0 {
            Side::Egress
        } else {
            Side::Ingress
        },
        allow: true,
        sealed: false,
        protocol: None,
        source: ANY,
        destination: ANY,
        source_low: 0,
        source_high: 65_535,
        destination_low: (1000 + number % 1000) as u16,
        destination_high: 65_535,
    }
}

fn route(number: u32, peer: u32) -> Route {
    Route {
        number,
        prefix: Prefix {
            address: BASE + number % 1024 * 8,
            length: (8 + number % 25) as u8,
        },
        target: if number % 2 == 0 {
            Target::Local
        } else {
            Target::Peer(peer)
        },
    }
}

// The entries after those that add networks and VMs: moves, rules that come and go, routes and ticks.
fn later(size: Size, at: u32) -> Entry {
    let turn = at / 4;
    let net = 1 + turn % size.nets;
    let number = turn / size.nets;
    match at % 4 {
        0 => Entry::Place {
            vm: at % size.vms,
            host: turn % 64,
        },
        1 => Entry::AddRule {
            net,
            rule: rule(number),
        },
        2 if number >= 16 => Entry::DelRule {
            net,
            number: number - 16,
        },
        2 => Entry::Tick,
        _ => Entry::AddRoute {
            net,
            route: route(number, 1 + net % size.nets),
        },
    }
}

fn entry(size: Size, at: u32) -> Entry {
    if at < size.nets {
        return Entry::AddNet { net: at + 1 };
    }
    let vm = at - size.nets;
    if vm < size.vms {
        return Entry::AddVm {
            vm,
            net: 1 + vm % size.nets,
            mac: u64::from(vm),
            ip: BASE.saturating_add(vm),
            host: vm % 64,
        };
    }
    later(size, vm - size.vms)
}

fn order(size: Size, at: u32) -> Order {
    let net = 1 + at % size.nets;
    Order {
        net,
        ip: BASE.saturating_add(at),
        to_net: net,
        to_host: at % 64,
        until: u32::MAX,
    }
}

fn put<T: Tables>(alloc: Global, tables: &mut T, op: Op) -> Result<(), NoMemory> {
    if tables.at() >= u32::MAX {
        return Err(NoMemory);
    }
    tables.apply(alloc, op)
}

/// Applies the entries, and then an order for each of four times as many addresses as there are networks.
pub(crate) fn fill<T: Tables>(alloc: Global, tables: &mut T, size: Size) -> Result<(), NoMemory> {
    for at in 0..size.entries {
        put(alloc, tables, Op::Entry(entry(size, at)))?;
    }
    for at in 0..256_u32 {
        if at / 4 < size.nets {
            put(alloc, tables, Op::Offload(order(size, at)))?;
        }
    }
    Ok(())
}
