//! The port of each VM at each host.
ghost use Rattle.std.specs.Prelude.{◌≡◌, map, length, slice_set, IfOk, replicate};
ghost use Rattle.and_policy.specs.declared.port.Port.TheVariants.{Absent};
ghost use Rattle.and_events.specs.Ports.{Arrive, Boot, Halt, Pause, Unpinned, port_at, ports_after, ports_of, with_port};

use and_policy::{NoMemory, Port};
use std::alloc::Global;
use std::marker::Model;

/// The port of each VM at each host. Contracts see it as the definition's component: by VM, its ports by host.
///
/// A host or a VM that there is not has no port, and no call gives it one.
#[derive(Drop)]
pub struct Ports {
    by_vm: Vec<Vec<Port>>,
}

impl Model for Ports {
    ghost use Rattle.std.specs.Prelude.{List, map};
    ghost use Rattle.and_policy.specs.declared.port.Port.{Port};

    ghost Value = { List (List Port) };

    ghost view = { λ p. map (λ row. row.items) p.by_vm.items };
}

#[tactic(auto, unfolding(and_events::specs::Ports::ports_after))]
impl Ports {
    /// So many VMs, at so many hosts, without a port. All memory is taken here, and its want is the only error.
    pub fn make(alloc: Global, hosts: u32, vms: u32) -> Result<Ports, NoMemory>
        ensures { IfOk result (λ ports. ports ≡ replicate vms (replicate hosts Absent)) }
    {
        let mut by_vm: Vec<Vec<Port>> = Vec::new(alloc);
        for _vm in 0..vms {
            let Ok(row) = vec![in alloc; Port::Absent; hosts as usize] else {
                return Err(NoMemory);
            };
            if by_vm.push(row).is_err() {
                return Err(NoMemory);
            }
        }
        Ok(Ports { by_vm })
    }

    /// The port of the VM at the host.
    pub fn state(&self, host: u32, vm: u32) -> Port
        ensures { result ≡ port_at self.now host vm }
    {
        let (host, vm) = (host as usize, vm as usize);
        if vm >= self.by_vm.len() {
            return Port::Absent;
        }
        let row = &self.by_vm[vm];
        if host >= row.len() {
            return Port::Absent;
        }
        row[host]
    }

    /// The VM was added at the host and runs there.
    pub fn boot(&mut self, host: u32, vm: u32)
        ensures { self.new ≡ ports_after self.old (Boot host vm) }
    {
        set_port(&mut self.by_vm, host, vm, Port::Running);
    }

    /// The VM was removed: it has no port any more, not even where it was on its way or has left a hairpin.
    pub fn halt(&mut self, vm: u32)
        ensures { self.new ≡ ports_after self.old (Halt vm) }
    {
        clear(&mut self.by_vm, vm);
    }

    /// A blackout begins: the VM is paused at the old host and arrives at the new one, whatever port it had there.
    pub fn pause(&mut self, vm: u32, old: u32, new: u32)
        ensures { self.new ≡ ports_after self.old (Pause vm old new) }
    {
        set_port(&mut self.by_vm, old, vm, Port::Paused);
        set_port(&mut self.by_vm, new, vm, Port::Arriving);
    }

    /// The blackout ends, by the log entry of this number, from 1: the VM runs at the new host, and the old one sends after it what still comes for it.
    pub fn resume(&mut self, vm: u32, old: u32, new: u32, entry: u32)
        ensures { self.new ≡ ports_after self.old (Arrive vm old new entry) }
    {
        set_port(&mut self.by_vm, old, vm, Port::Hairpin { host: new, entry });
        set_port(&mut self.by_vm, new, vm, Port::Running);
    }

    /// The hairpin of the VM at the host goes.
    pub fn unpin(&mut self, host: u32, vm: u32)
        ensures { self.new ≡ ports_after self.old (Unpinned host vm) }
    {
        set_port(&mut self.by_vm, host, vm, Port::Absent);
    }
}

// Writes a port, where there is such a VM and such a host.
fn set_port(by_vm: &mut Vec<Vec<Port>>, host: u32, vm: u32, port: Port)
    ensures { map (λ row. row.items) by_vm.new.items ≡ with_port (map (λ row. row.items) by_vm.old.items) host vm port }
{
    let (host, vm) = (host as usize, vm as usize);
    if vm >= by_vm.len() {
        return;
    }
    let row = &mut by_vm[vm];
    if host >= row.len() {
        return;
    }
    row[host] = port;
}

// Takes all ports of a row away.
fn empty(row: &mut Vec<Port>)
    ensures { row.new.items ≡ replicate (length row.old.items) Absent }
{
    for port in row.iter_mut() {
        *port = Port::Absent;
    }
}

// Takes all ports of a VM away.
fn clear(by_vm: &mut Vec<Vec<Port>>, vm: u32)
    ensures { let ports = map (λ row. row.items) by_vm.old.items in
        map (λ row. row.items) by_vm.new.items ≡ slice_set ports vm (replicate (length (ports_of ports vm)) Absent) }
{
    let vm = vm as usize;
    if vm >= by_vm.len() {
        return;
    }
    empty(&mut by_vm[vm]);
}
