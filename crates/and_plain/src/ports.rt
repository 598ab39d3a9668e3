//! The ports of the VMs.
ghost use Rattle.std.specs.Prelude.{◌≡◌, List, OnOk, position};
ghost use Rattle.and_events.specs.Ports as spec;
ghost use Rattle.and_events.specs.Ports.{ports_after};

use crate::rows::{at_or, row_at};
use and_events::Items;
use and_policy::{NoMemory, Port};
use std::alloc::Global;

/// The VM's port at the host.
pub(crate) fn port_at(ports: &[Items<Port>], host: usize, vm: usize) -> Port
    ensures { result ≡ spec.port_at ports.now host vm }
{
    at_or(row_at(ports, vm), host, Port::Absent)
}

// Gives the VM this port at the host.
#[tactic(auto, using(std::proofs::lemmas::List::set_past, std::proofs::lemmas::List::get_or_read))]
fn set_port(ports: &mut Vec<Items<Port>>, host: usize, vm: usize, port: Port)
    ensures { ports.new.items ≡ spec.with_port ports.old.items host vm port }
{
    if vm < ports.len() {
        let row = &mut ports[vm];
        row.set(host, port);
    }
}

/// The VM runs at the host.
#[tactic(auto, unfolding(and_events::specs::Ports::ports_after))]
pub(crate) fn boot(ports: &mut Vec<Items<Port>>, host: usize, vm: usize)
    ensures { ports.new.items ≡ ports_after ports.old.items (spec.Boot host vm) }
{
    set_port(ports, host, vm, Port::Running);
}

/// The VM has no port any more.
#[tactic(auto, using(std::proofs::lemmas::List::set_past, std::proofs::lemmas::List::get_or_read), unfolding(and_events::specs::Ports::ports_after))]
pub(crate) fn halt(alloc: Global, ports: &mut Vec<Items<Port>>, vm: usize) -> Result<(), NoMemory>
    ensures ok { OnOk result (ports.new.items ≡ ports_after ports.old.items (spec.Halt vm)) }
{
    if vm >= ports.len() {
        return Ok(());
    }
    let count = row_at(ports, vm).len();
    let Ok(absent) = vec![in alloc; Port::Absent; count] else {
        return Err(NoMemory);
    };
    let row = &mut ports[vm];
    *row = Items::from_vec(absent);
    Ok(())
}

/// The VM is on its way.
#[tactic(auto, unfolding(and_events::specs::Ports::ports_after))]
pub(crate) fn pause(ports: &mut Vec<Items<Port>>, vm: usize, old: usize, new: usize)
    ensures { ports.new.items ≡ ports_after ports.old.items (spec.Pause vm old new) }
{
    set_port(ports, old, vm, Port::Paused);
    set_port(ports, new, vm, Port::Arriving);
}

/// The VM runs at the new host, by this log entry.
#[tactic(auto, unfolding(and_events::specs::Ports::ports_after))]
pub(crate) fn arrive(ports: &mut Vec<Items<Port>>, vm: usize, old: usize, new: u32, entry: u32)
    ensures { ports.new.items ≡ ports_after ports.old.items (spec.Arrive vm old new entry) }
{
    set_port(ports, old, vm, Port::Hairpin { host: new, entry });
    set_port(ports, new as usize, vm, Port::Running);
}

/// The VM's hairpin at the host goes.
#[tactic(auto, unfolding(and_events::specs::Ports::ports_after))]
pub(crate) fn unpinned(ports: &mut Vec<Items<Port>>, host: usize, vm: usize)
    ensures { ports.new.items ≡ ports_after ports.old.items (spec.Unpinned host vm) }
{
    set_port(ports, host, vm, Port::Absent);
}

fn is_paused(port: Port) -> bool
    ensures { result ≡ spec.is_paused port }
{
    match port {
        Port::Paused => true,
        _ => false,
    }
}

fn is_arriving(port: Port) -> bool
    ensures { result ≡ spec.is_arriving port }
{
    match port {
        Port::Arriving => true,
        _ => false,
    }
}

fn first_paused(ports: &[Port]) -> Option<usize>
    ensures { result ≡ position spec.is_paused ports.now }
{
    ports.iter().position(|port| is_paused(*port))
}

fn first_arriving(ports: &[Port]) -> Option<usize>
    ensures { result ≡ position spec.is_arriving ports.now }
{
    ports.iter().position(|port| is_arriving(*port))
}

/// The host that a VM in a blackout leaves.
pub(crate) fn leaves_host(ports: &[Port]) -> usize
    ensures { result ≡ spec.leaves_host ports.now }
{
    first_paused(ports).unwrap_or(0)
}

/// The host that a VM in a blackout comes to.
pub(crate) fn comes_to(ports: &[Port]) -> usize
    ensures { result ≡ spec.comes_to ports.now }
{
    first_arriving(ports).unwrap_or(0)
}
