//! Where the VMs of a list of entries are, of which network, and since which entry.
ghost use Rattle.std.specs.Prelude.{◌≡◌, ◌+◌, ◌≤◌, ◌<◌, ◌^◌, ◌∷◌, ◌++◌, ℕ, List, [], OnOk, Some, cond, length, nat_eq, unwrap_or};
ghost use Rattle.std.specs.HashMap as hash;
ghost use Rattle.and_policy.specs.declared.entry.Entry.{Entry};
ghost use Rattle.and_policy.specs.Owners as owners;
ghost use Rattle.and_policy.specs.Placements.{ArePlacements, AreSamePlacements, HasRoom};
ghost use Rattle.and_policy.specs.Programmes as programmes;

use crate::entry::Entry;
use crate::memory::NoMemory;
use crate::put::put;
use std::alloc::Global;
use std::collections::HashMap;

/// What the entry says that added a VM.
#[derive(Debug, Clone, Copy, PartialEq, Eq)]
pub struct Addition {
    /// The network.
    pub net: u32,
    /// The number of the entry, from 1.
    pub number: u32,
}

/// The VMs of a list of entries by their numbers, removed since or not. Each question is one look-up, however long the list is.
///
/// It keeps no entries: contracts say of it and a list of entries that the one is of the other (`ArePlacements`), whether or not the
/// entries fit.
#[derive(Drop)]
pub struct Placements {
    /// How many entries there are.
    pub(crate) count: u32,
    /// What the first entry says that adds the VM.
    pub(crate) additions: HashMap<u32, Addition>,
    /// The host to which the last entry brought the VM.
    pub(crate) hosts: HashMap<u32, u32>,
}

// Puts what the entry says that adds the VM, unless an earlier one added it.
fn note(additions: &mut HashMap<u32, Addition>, vm: u32, addition: Addition)
    requires { 0 < hash.spare additions.old }
    ensures additions { (q : ℕ) → hash.get nat_eq additions.new q
        ≡ cond (nat_eq vm q) (Some (unwrap_or (hash.get nat_eq additions.old vm) addition)) (hash.get nat_eq additions.old q) }
    ensures spare { hash.spare additions.old ≤ hash.spare additions.new + 1 }
{
    let first = additions.get(&vm).copied().unwrap_or(addition);
    put(additions, vm, first);
}

impl Placements {
    /// Those of no entries. It takes no memory.
    pub fn new(alloc: Global) -> Placements
        ensures { ArePlacements result [] }
    {
        Placements {
            count: 0,
            additions: HashMap::new(alloc),
            hosts: HashMap::new(alloc),
        }
    }

    // Makes room for so many VMs more in each map.
    fn reserve(&mut self, count: usize) -> Result<(), NoMemory>
        ensures same { AreSamePlacements self.old self.new }
        ensures ok { OnOk result (HasRoom count self.new) }
    {
        self.additions.reserve(count).map_err(|_| NoMemory)?;
        self.hosts.reserve(count).map_err(|_| NoMemory)?;
        Ok(())
    }

    /// Makes room for so many entries more.
    ///
    /// # Errors
    ///
    /// Where memory is wanting. They say then, as ever, what they said before.
    pub fn room(&mut self, count: usize) -> Result<(), NoMemory>
        ensures kept { (k : List Entry) → ArePlacements self.old k → ArePlacements self.new k }
        ensures ok { OnOk result (HasRoom count self.new) }
    {
        self.reserve(count)
    }

    /// One entry more, for which there is room. It takes no memory, and of the room at most that of one entry.
    pub fn append(&mut self, entry: &Entry)
        requires { HasRoom 1 self.old }
        ensures placements { (k : List Entry) → ArePlacements self.old k → ArePlacements self.new (k ++ entry.now ∷ []) }
        ensures room { (n : ℕ) → HasRoom (n + 1) self.old → HasRoom n self.new }
    {
        self.count = self.count.saturating_add(1);
        match *entry {
            Entry::AddVm { vm, net, host, .. } => {
                let number = self.count;
                note(&mut self.additions, vm, Addition { net, number });
                put(&mut self.hosts, vm, host);
            }
            Entry::Place { vm, host } => put(&mut self.hosts, vm, host),
            _ => {}
        }
    }

    /// The network to which the VM was added.
    pub fn net(&self, vm: u32) -> Option<u32>
        ensures { (k : List Entry) → ArePlacements self.now k → result ≡ programmes.net_of_vm k vm }
    {
        match self.additions.get(&vm) {
            Some(addition) => Some(addition.net),
            None => None,
        }
    }

    /// The number of the entry that added the VM, from 1.
    pub fn added(&self, vm: u32) -> Option<u32>
        ensures { (k : List Entry) → length k < 2 ^ 32 → ArePlacements self.now k → result ≡ programmes.added_at k vm }
    {
        match self.additions.get(&vm) {
            Some(addition) => Some(addition.number),
            None => None,
        }
    }

    /// The host to which the last entry brought the VM.
    pub fn place(&self, vm: u32) -> Option<u32>
        ensures { (k : List Entry) → ArePlacements self.now k → result ≡ owners.place k vm }
    {
        self.hosts.get(&vm).copied()
    }
}
