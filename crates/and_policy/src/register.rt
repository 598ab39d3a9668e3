//! Where the VMs of a log are: who has a number, an address, an Ethernet address.

use crate::entry::Entry;
use crate::memory::NoMemory;
use crate::placements::Placements;
use crate::put::put;
use std::alloc::Global;
use std::collections::HashMap;

/// The network and the addresses of a live VM.
#[derive(Debug, Clone, Copy, PartialEq, Eq)]
pub struct Residence {
    /// The network.
    pub net: u32,
    /// The Ethernet address, the number whose highest byte is the first on the wire.
    pub mac: u64,
    /// The IPv4 address, the number whose highest byte is the first on the wire.
    pub ip: u32,
}

/// The VMs of a log by their numbers and addresses. Each question is one look-up or two, however long the log is.
///
/// It keeps no entries: contracts say of a register and a list of entries that the one is of the other (`IsRegister`).
#[derive(Drop)]
pub struct Register {
    /// The VMs that were added, removed since or not.
    pub(crate) placements: Placements,
    /// How many these are.
    pub(crate) count: u32,
    /// By number: each live VM.
    pub(crate) residents: HashMap<u32, Residence>,
    /// By network and address: the live VM.
    pub(crate) owners: HashMap<(u32, u32), u32>,
    /// By Ethernet address: the live VM.
    pub(crate) macs: HashMap<u64, u32>,
}

impl Register {
    ghost use Rattle.std.specs.Prelude.{◌≡◌, ◌<◌, ◌==◌, ◌∷◌, ◌++◌, ℕ, List, [], Option, Some, None, OnOk, option_map, length, nat_eq};
    ghost use Rattle.std.specs.List.{find, list_any};
    ghost use Rattle.std.specs.HashMap as hash;
    ghost use Rattle.and_policy.specs.Placements.{ArePlacements};
    ghost use Rattle.and_policy.specs.Registers.{AreLive, IsRegister, IsSameRegister, HasLiveRoom, HasRoom, is_numbered, has_mac, has_address, residence_of};
    ghost use Rattle.and_policy.specs.Fitting.{fits};
    ghost use Rattle.and_policy.specs.Logs as logs;
    ghost use Rattle.and_policy.specs.Owners as owners;
    ghost use Rattle.and_policy.specs.Programmes as programmes;
    ghost use Rattle.and_policy.specs.declared.entry.Entry.{Entry};
    ghost use Rattle.and_policy.specs.declared.entry.Entry.TheVariants.{AddVm, RemoveVm};

    /// The register of no entries. It takes no memory.
    pub fn new(alloc: Global) -> Register
        ensures { IsRegister result [] }
    {
        Register {
            placements: Placements::new(alloc),
            count: 0,
            residents: HashMap::new(alloc),
            owners: HashMap::new(alloc),
            macs: HashMap::new(alloc),
        }
    }

    // Makes room for one entry more in each map.
    fn reserve(&mut self) -> Result<(), NoMemory>
        ensures same { IsSameRegister self.old self.new }
        ensures ok { OnOk result (HasRoom self.new) }
    {
        self.placements.room(1)?;
        self.residents.reserve(1).map_err(|_| NoMemory)?;
        self.owners.reserve(1).map_err(|_| NoMemory)?;
        self.macs.reserve(1).map_err(|_| NoMemory)?;
        Ok(())
    }

    /// Makes room for one entry more.
    ///
    /// # Errors
    ///
    /// Where memory is wanting. The register says then, as ever, what it said before.
    pub fn room(&mut self) -> Result<(), NoMemory>
        ensures kept { (k : List Entry) → IsRegister self.old k → IsRegister self.new k }
        ensures ok { OnOk result (HasRoom self.new) }
    {
        self.reserve()
    }

    // Adds a VM, whose placement is there.
    fn add_vm(&mut self, vm: u32, net: u32, mac: u64, ip: u32)
        requires { HasLiveRoom self.old }
        ensures { (host : ℕ) (hosts : Option ℕ) (k : List Entry) → fits hosts k (AddVm vm net mac ip host) ≡ None
            → ArePlacements self.old.placements (k ++ AddVm vm net mac ip host ∷ []) → AreLive self.old k → IsRegister self.new (k ++ AddVm vm net mac ip host ∷ []) }
    {
        self.count = self.count.saturating_add(1);
        put(&mut self.residents, vm, Residence { net, mac, ip });
        put(&mut self.owners, (net, ip), vm);
        put(&mut self.macs, mac, vm);
    }

    // Takes a VM away.
    fn remove_vm(&mut self, vm: u32)
        ensures { (hosts : Option ℕ) (k : List Entry) → fits hosts k (RemoveVm vm) ≡ None
            → ArePlacements self.old.placements (k ++ RemoveVm vm ∷ []) → AreLive self.old k → IsRegister self.new (k ++ RemoveVm vm ∷ []) }
    {
        match self.residents.remove(&vm) {
            Some(residence) => {
                self.owners.remove(&(residence.net, residence.ip));
                self.macs.remove(&residence.mac);
            }
            None => {}
        }
    }

    // What an entry says of live VMs, whose placements are there.
    fn note(&mut self, entry: &Entry)
        requires { HasLiveRoom self.old }
        ensures { (hosts : Option ℕ) (k : List Entry) → fits hosts k entry.now ≡ None
            → ArePlacements self.old.placements (k ++ entry.now ∷ []) → AreLive self.old k → IsRegister self.new (k ++ entry.now ∷ []) }
    {
        match *entry {
            Entry::AddVm {
                vm,
                net,
                mac,
                ip,
                ..
            } => self.add_vm(vm, net, mac, ip),
            Entry::RemoveVm { vm } => self.remove_vm(vm),
            _ => {}
        }
    }

    /// One entry more, for which there is room. It takes no memory.
    pub fn append(&mut self, entry: &Entry)
        requires { HasRoom self.old }
        ensures { (hosts : Option ℕ) (k : List Entry) → fits hosts k entry.now ≡ None
            → IsRegister self.old k → IsRegister self.new (k ++ entry.now ∷ []) }
    {
        self.placements.append(entry);
        self.note(entry);
    }

    /// Whether the VM was added, removed since or not.
    pub fn was_added(&self, vm: u32) -> bool
        ensures { (k : List Entry) → IsRegister self.now k → result ≡ list_any (is_numbered vm) (logs.added k) }
    {
        self.placements.net(vm).is_some()
    }

    /// How many VMs were added.
    pub fn added_count(&self) -> usize
        ensures { (k : List Entry) → IsRegister self.now k → result ≡ length (logs.added k) }
    {
        self.count as usize
    }

    /// The network to which the VM was added, removed since or not.
    pub fn added_net(&self, vm: u32) -> Option<u32>
        ensures { (k : List Entry) → IsRegister self.now k → result ≡ programmes.net_of_vm k vm }
    {
        self.placements.net(vm)
    }

    /// The host to which the last entry brought the VM, removed since or not.
    pub fn place(&self, vm: u32) -> Option<u32>
        ensures { (k : List Entry) → IsRegister self.now k → result ≡ owners.place k vm }
    {
        self.placements.place(vm)
    }

    /// The network and the addresses of a live VM.
    pub fn residence(&self, vm: u32) -> Option<Residence>
        ensures { (k : List Entry) → IsRegister self.now k → result ≡ option_map residence_of (logs.vm_of k vm) }
    {
        self.residents.get(&vm).copied()
    }

    /// Whether the VM is live.
    pub fn is_live(&self, vm: u32) -> bool
        ensures { (k : List Entry) → IsRegister self.now k → result ≡ logs.is_live k vm }
    {
        self.residents.contains_key(&vm)
    }

    /// The live VM of the network with this address, the number whose highest byte is the first on the wire.
    pub fn owner(&self, net: u32, ip: u32) -> Option<u32>
        ensures { (k : List Entry) → IsRegister self.now k → result ≡ owners.owner k net ip }
    {
        self.owners.get(&(net, ip)).copied()
    }

    /// The host of the live VM of the network with this address, the number whose highest byte is the first on the wire.
    pub fn owner_place(&self, net: u32, ip: u32) -> Option<u32>
        ensures { (k : List Entry) → IsRegister self.now k → result ≡ owners.owner_place k net ip }
    {
        match self.owner(net, ip) {
            Some(vm) => self.place(vm),
            None => None,
        }
    }

    /// The live VM with this Ethernet address, the number whose highest byte is the first on the wire.
    pub fn by_mac(&self, mac: u64) -> Option<u32>
        ensures { (k : List Entry) → IsRegister self.now k → result ≡ option_map (λ v. v.number) (find (has_mac mac) (logs.vms k)) }
    {
        self.macs.get(&mac).copied()
    }

    /// Whether a live VM has this Ethernet address.
    pub fn has_mac(&self, mac: u64) -> bool
        ensures { (k : List Entry) → IsRegister self.now k → result ≡ list_any (has_mac mac) (logs.vms k) }
    {
        self.macs.contains_key(&mac)
    }

    /// Whether a live VM of the network has this IPv4 address.
    pub fn has_address(&self, net: u32, ip: u32) -> bool
        ensures { (k : List Entry) → IsRegister self.now k → result ≡ list_any (has_address net ip) (logs.vms k) }
    {
        self.owners.contains_key(&(net, ip))
    }
}
