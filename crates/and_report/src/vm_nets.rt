//! The networks of VMs, by the VM's number.
ghost use Rattle.std.specs.Prelude.{◌≡◌, ◌<◌, ◌≤◌, ◌^◌, ◌∷◌, ◌++◌, ℕ, List, [], None, OnOk, IfOk};
ghost use Rattle.and_policy.specs.declared.entry.Entry.{Entry};
ghost use Rattle.and_policy.specs.Placements.{ArePlacements, net_by};
ghost use Rattle.and_policy.specs.Programmes.{net_of_vm};
ghost use Rattle.and_events.specs.declared.plan.Plan.{Plan};
ghost use Rattle.and_events.specs.State.{source_net};
ghost use Rattle.and_report.specs.Nets.{AreVmNets};

use and_events::Plan;
use and_plain::vm_at;
use and_policy::{Entry, NoMemory, Placements};
use std::alloc::Global;

// A number of this type has 32 bits.
fn has_32_bits(number: u32)
    ensures { number < 2 ^ 32 }
{
    let _ = number;
}

// An entry adds no VM whose number has more bits.
fn adds_short(entry: &Entry)
    ensures { (vm : ℕ) → 2 ^ 32 ≤ vm → net_by vm entry.now ≡ None }
{
    match *entry {
        Entry::AddVm { vm, .. } => has_32_bits(vm),
        _ => {}
    }
}

/// Notes one entry more.
fn note(nets: &mut Placements, entry: &Entry) -> Result<(), NoMemory>
    ensures placements { OnOk result ((k : List Entry) → ArePlacements nets.old k → ArePlacements nets.new (k ++ entry.now ∷ [])) }
    ensures short { (vm : ℕ) → 2 ^ 32 ≤ vm → net_by vm entry.now ≡ None }
{
    adds_short(entry);
    nets.room(1)?;
    nets.append(entry);
    Ok(())
}

/// Of which network each VM is that the plan's log adds.
pub(crate) fn vm_nets(alloc: Global, plan: &Plan) -> Result<Placements, NoMemory>
    ensures { IfOk result (λ nets. AreVmNets plan.now nets) }
{
    let mut nets = Placements::new(alloc);
    for entry in plan.log.as_slice() {
        note(&mut nets, entry)?;
    }
    Ok(nets)
}

/// The network of the VM; none where no entry adds it.
pub(crate) fn net_of(nets: &Placements, vm: usize) -> Option<u32>
    ensures { (plan : Plan) → AreVmNets plan nets.now → result ≡ net_of_vm plan.log vm }
{
    match u32::try_from(vm) {
        Ok(vm) => nets.net(vm),
        Err(_) => None,
    }
}

/// The network of the packet's source VM.
pub(crate) fn own_net(plan: &Plan, nets: &Placements, packet: u32) -> u32
    requires { AreVmNets plan.now nets.now }
    ensures { result ≡ source_net plan.now packet }
{
    nets.net(vm_at(plan, packet)).unwrap_or(0)
}
