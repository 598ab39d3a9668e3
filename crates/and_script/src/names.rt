//! The VMs by number: names in the order in which they first stand in the script.
ghost use Rattle.std.specs.Prelude.{◌≡◌, ◌+◌, ◌-◌, ◌^◌, ◌<◌, ◌≤◌, [], length, map, string_bytes, bytes_eq, Some, IfOk, OnOk, OnErr};
ghost use Rattle.std.specs.List.{position_or_len};
ghost use Rattle.and_script.specs.Grammar.{with_name, number_of};

use and_capture::Bytes;
use and_events::Items;
use and_policy::NoMemory;
use indexmap::IndexSet;
use std::alloc::Global;
use std::marker::Model;

/// Names by number. Contracts see the list of them.
#[derive(Drop)]
pub(crate) struct Names {
    set: IndexSet<String>,
}

impl Model for Names {
    ghost use Rattle.std.specs.Prelude.{List, ℕ, map, string_bytes};

    ghost Value = { List (List ℕ) };

    ghost view = { λ n. map string_bytes n.set.keys };
}

/// Where the name stands in the set, at whose end it is put where it is new.
#[tactic(auto, using(crate::proofs::NameLists::names_added, crate::proofs::NameLists::name_place))]
fn insert(set: &mut IndexSet<String>, name: String) -> Result<usize, NoMemory>
    ensures names { OnOk result (map string_bytes set.new.keys ≡ with_name (map string_bytes set.old.keys) (Some (string_bytes name))) }
    ensures number { IfOk result (λ n. n ≡ position_or_len (bytes_eq (string_bytes name)) (map string_bytes set.old.keys)) }
    ensures within { IfOk result (λ n. n ≤ length set.old.keys) }
    ensures err { OnErr result (set.new.keys ≡ set.old.keys) }
{
    match set.insert_full(name) {
        Ok((index, _)) => Ok(index),
        Err(_) => Err(NoMemory),
    }
}

impl Names {
    pub(crate) fn new(alloc: Global) -> Names
        ensures { result ≡ [] }
    {
        Names {
            set: IndexSet::new(alloc),
        }
    }

    /// The number of the name, which is a new one where the name is new.
    pub(crate) fn number(&mut self, alloc: Global, name: &str) -> Result<u32, NoMemory>
        requires { length self.old < 2 ^ 32 - 1 }
        ensures names { OnOk result (self.new ≡ with_name self.old (Some name.now)) }
        ensures number { IfOk result (λ n. n ≡ number_of self.old (Some name.now)) }
        ensures err { OnErr result (self.new ≡ self.old) }
    {
        let Ok(name) = String::from_str(alloc, name) else {
            return Err(NoMemory);
        };
        let index = insert(&mut self.set, name)?;
        Ok(index as u32)
    }

    /// The names, by number.
    pub(crate) fn into_items(self, alloc: Global) -> Result<Items<Bytes>, NoMemory>
        ensures { IfOk result (λ items. items ≡ self) }
    {
        let mut names = Vec::new(alloc);
        for name in self.set.iter() {
            let Ok(bytes) = Bytes::make(alloc, name.as_bytes()) else {
                return Err(NoMemory);
            };
            if names.push(bytes).is_err() {
                return Err(NoMemory);
            }
        }
        Ok(Items::from_vec(names))
    }
}
