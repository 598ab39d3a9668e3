//! What a log is looked up by, so that the check of an entry never looks back.
ghost use Rattle.std.specs.Prelude.{◌≡◌, ◌<◌, ◌∷◌, ◌++◌, ℕ, List, [], Option, None, OnOk};
ghost use Rattle.std.specs.HashSet as bag;
ghost use Rattle.and_policy.specs.declared.entry.Entry.{Entry};
ghost use Rattle.and_policy.specs.Fitting.{fits};
ghost use Rattle.and_policy.specs.Indexes.{IsIndex, AreNets, HasRoom};

use crate::entry::Entry;
use crate::memory::NoMemory;
use crate::numbered::Numbered;
use crate::put::add;
use crate::register::Register;
use std::alloc::Global;
use std::collections::HashSet;

/// The look-ups of a log.
#[derive(Drop)]
pub struct Index {
    /// The networks.
    pub(crate) nets: HashSet<u32>,
    /// The numbers of the live rules of each network.
    pub(crate) rules: Numbered,
    /// The numbers of the live routes of each network.
    pub(crate) routes: Numbered,
    /// The VMs.
    pub(crate) register: Register,
}

// The networks after one entry more.
fn note_net(nets: &mut HashSet<u32>, entry: &Entry)
    requires { 0 < bag.spare nets.old }
    ensures { (hosts : Option ℕ) (k : List Entry) → fits hosts k entry.now ≡ None → AreNets nets.old k → AreNets nets.new (k ++ entry.now ∷ []) }
{
    if let Entry::AddNet { net } = *entry {
        add(nets, net);
    }
}

impl Index {
    /// The look-ups of no entries.
    pub(crate) fn new(alloc: Global) -> Index
        ensures { IsIndex result [] }
    {
        Index {
            nets: HashSet::new(alloc),
            rules: Numbered::new(alloc),
            routes: Numbered::new(alloc),
            register: Register::new(alloc),
        }
    }

    /// Makes room for one entry more.
    pub(crate) fn room(&mut self) -> Result<(), NoMemory>
        ensures kept { (k : List Entry) → IsIndex self.old k → IsIndex self.new k }
        ensures ok { OnOk result (HasRoom self.new) }
    {
        self.nets.reserve(1).map_err(|_| NoMemory)?;
        self.rules.room()?;
        self.routes.room()?;
        self.register.room()?;
        Ok(())
    }

    /// One entry more, for which there is room.
    pub(crate) fn append(&mut self, entry: &Entry)
        requires { HasRoom self.old }
        ensures { (hosts : Option ℕ) (k : List Entry) → fits hosts k entry.now ≡ None → IsIndex self.old k → IsIndex self.new (k ++ entry.now ∷ []) }
    {
        note_net(&mut self.nets, entry);
        self.rules.note_rule(entry);
        self.routes.note_route(entry);
        self.register.append(entry);
    }
}
