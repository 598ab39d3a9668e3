//! The script of a drill.
ghost use Rattle.std.specs.Prelude.{◌≡◌, ◌<◌, ◌≤◌, ◌++◌, IfOk, OnOk};
ghost use Rattle.and_make.specs.Lists.{below};
ghost use Rattle.and_make.specs.Script as spec;
ghost use Rattle.and_make.specs.Vms as vms;

use crate::{FIRST_ADDRESS, FIRST_MAC, MAX_PACKETS, NETWORKS, TCP, VMS};
use and_capture::Bytes;
use and_events::{Item, Items, Settings};
use and_policy::{Entry, NoMemory, Prefix, Route, Rule, Side, Target};
use itoa::Buffer;
use std::alloc::Global;

/// Eight hosts and two gateways; what a scenario may leave out is as it is there.
pub(crate) const SETTINGS: Settings = Settings {
    hosts: 8,
    gateways: 2,
    workers: 2,
    hop_limit: 16,
    out_queue: 256,
    wire_queue: 256,
    seal_queue: 256,
    threshold: 500,
    life: 2,
};

/// The prefix that holds all addresses.
const ALL: Prefix = Prefix {
    address: 0,
    length: 0,
};

// `v` and the VM's number.
fn name(alloc: Global, vm: u32) -> Result<Bytes, NoMemory>
    ensures { IfOk result (λ name. name ≡ vms.name_of vm) }
{
    let mut buffer = Buffer::new();
    let mut text = Vec::from_slice(alloc, b"v").map_err(|_| NoMemory)?;
    text.extend_from_slice(buffer.format(vm).as_bytes())
        .map_err(|_| NoMemory)?;
    Bytes::make(alloc, text.as_slice()).map_err(|_| NoMemory)
}

/// The names of the VMs, by number.
pub(crate) fn names(alloc: Global) -> Result<Items<Bytes>, NoMemory>
    ensures { IfOk result (λ names. names ≡ below vms.name_of VMS) }
{
    let mut names = Items::new(alloc);
    for vm in 0..VMS {
        names.push(name(alloc, vm)?)?;
    }
    Ok(names)
}

// The rule that allows TCP from all addresses and ports to these ports.
fn tcp_rule(low: u16, high: u16) -> Rule
    ensures { result ≡ spec.tcp_rule low high }
{
    Rule {
        number: 1,
        priority: 100,
        side: Side::Ingress,
        allow: true,
        sealed: false,
        protocol: Some(TCP),
        source: ALL,
        destination: ALL,
        source_low: 0,
        source_high: u16::MAX,
        destination_low: low,
        destination_high: high,
    }
}

// Adds the networks.
fn add_networks(items: &mut Items<Item>) -> Result<(), NoMemory>
    ensures { OnOk result (items.new ≡ items.old ++ below spec.network NETWORKS) }
{
    for k in 0..NETWORKS {
        items.push(Item::Entry(Entry::AddNet { net: 1 + k }))?;
    }
    Ok(())
}

// The entry that adds a VM.
fn vm_entry(vm: u32) -> Entry
    requires { vm < VMS }
    ensures { Item.Entry result ≡ spec.vm vm }
{
    Entry::AddVm {
        vm,
        net: 1 + vm % NETWORKS,
        mac: FIRST_MAC + u64::from(vm),
        ip: FIRST_ADDRESS + vm,
        host: vm % SETTINGS.hosts,
    }
}

// Adds the VMs.
fn add_vms(items: &mut Items<Item>) -> Result<(), NoMemory>
    ensures { OnOk result (items.new ≡ items.old ++ below spec.vm VMS) }
{
    for vm in 0..VMS {
        items.push(Item::Entry(vm_entry(vm)))?;
    }
    Ok(())
}

// The entry of the rule for what enters the VMs of a network.
fn entering(k: u32) -> Entry
    requires { k < NETWORKS }
    ensures { Item.Entry result ≡ spec.entering k }
{
    Entry::AddRule {
        net: 1 + k,
        rule: tcp_rule(80, 89),
    }
}

// Adds that rule to each network.
fn add_rules(items: &mut Items<Item>) -> Result<(), NoMemory>
    ensures { OnOk result (items.new ≡ items.old ++ below spec.entering NETWORKS) }
{
    for k in 0..NETWORKS {
        items.push(Item::Entry(entering(k)))?;
    }
    Ok(())
}

// The entry of the rule for what leaves network 4 sealed.
fn sealing() -> Entry
    ensures { Item.Entry result ≡ spec.sealing }
{
    Entry::AddRule {
        net: NETWORKS,
        rule: Rule {
            number: 2,
            priority: 50,
            side: Side::Egress,
            sealed: true,
            ..tcp_rule(89, 89)
        },
    }
}

// The entry of the route for what network 1 drops: packets to 10.0.0.5.
fn dropping() -> Entry
    ensures { Item.Entry result ≡ spec.dropping }
{
    Entry::AddRoute {
        net: 1,
        route: Route {
            number: 1,
            prefix: Prefix {
                address: FIRST_ADDRESS + 4,
                length: 32,
            },
            target: Target::Drop,
        },
    }
}

// The beginning: what there is before the first packet.
#[tactic(auto, unfolding(crate::specs::Script::beginning))]
fn begin(alloc: Global) -> Result<Items<Item>, NoMemory>
    ensures { IfOk result (λ items. items ≡ spec.beginning) }
{
    let mut items = Items::new(alloc);
    add_networks(&mut items)?;
    add_vms(&mut items)?;
    add_rules(&mut items)?;
    items.push(Item::Entry(sealing()))?;
    items.push(Item::Entry(dropping()))?;
    items.push(Item::Wait)?;
    Ok(items)
}

// The tick after packet i.
fn put_tick(i: u32, items: &mut Items<Item>) -> Result<(), NoMemory>
    requires { i < MAX_PACKETS }
    ensures { OnOk result (items.new ≡ items.old ++ spec.tick_after i) }
{
    if (i + 1) % 64 == 0 {
        items.push(Item::Entry(Entry::Tick))?;
    }
    Ok(())
}

// The VM that moves around packet i.
fn moving(i: u32) -> u32
    ensures { result ≡ spec.moving i }
{
    i / 500 % VMS
}

// The host that it moves to.
fn target_of(i: u32) -> u32
    requires { i < MAX_PACKETS }
    ensures { result ≡ spec.target_of i }
{
    (moving(i) + 1 + i / 500 / VMS) % SETTINGS.hosts
}

// The blackout after packet i.
fn put_blackout(i: u32, items: &mut Items<Item>) -> Result<(), NoMemory>
    requires { i < MAX_PACKETS }
    ensures { OnOk result (items.new ≡ items.old ++ spec.blackout_after i) }
{
    if (i + 1) % 500 == 250 {
        items.push(Item::Blackout {
            vm: moving(i),
            host: target_of(i),
        })?;
    }
    Ok(())
}

// The resume after packet i.
fn put_resume(i: u32, items: &mut Items<Item>) -> Result<(), NoMemory>
    requires { i < MAX_PACKETS }
    ensures { OnOk result (items.new ≡ items.old ++ spec.resume_after i) }
{
    if (i + 1) % 500 == 300 {
        items.push(Item::Resume { vm: moving(i) })?;
    }
    Ok(())
}

// The send of packet i, and what comes after it.
#[tactic(auto, unfolding(crate::specs::Script::items_of))]
fn put_packet(i: u32, items: &mut Items<Item>) -> Result<(), NoMemory>
    requires { i < MAX_PACKETS }
    ensures { OnOk result (items.new ≡ items.old ++ spec.items_of i) }
{
    items.push(Item::Send { frames: Some(1) })?;
    put_tick(i, items)?;
    put_blackout(i, items)?;
    put_resume(i, items)
}

/// The script for n packets.
pub(crate) fn script(alloc: Global, n: u32) -> Result<Items<Item>, NoMemory>
    requires { n ≤ MAX_PACKETS }
    ensures { IfOk result (λ items. items ≡ spec.script n) }
{
    let mut items = begin(alloc)?;
    for i in 0..n {
        put_packet(i, &mut items)?;
    }
    Ok(items)
}
