//! The numbers of live rules, or of live routes, by network.

use crate::entry::Entry;
use crate::memory::NoMemory;
use crate::put::{add, put};
use std::alloc::Global;
use std::collections::{HashMap, HashSet};

/// The live numbers of each network.
#[derive(Drop)]
pub struct Numbered {
    /// By network: how many numbers are live.
    pub(crate) counts: HashMap<u32, u32>,
    /// Network and number of each.
    pub(crate) live: HashSet<(u32, u32)>,
}

impl Numbered {
    ghost use Rattle.std.specs.Prelude.{◌≡◌, ◌<◌, ◌==◌, ◌∷◌, ◌++◌, ℕ, List, [], Option, None, OnOk, length, true, false};
    ghost use Rattle.std.specs.List.{list_any};
    ghost use Rattle.and_policy.specs.Numbered.{IsNumbered, IsSameNumbered, HasRoom, with_number, without_number, rule_numbers, route_numbers};
    ghost use Rattle.and_policy.specs.Fitting.{fits};
    ghost use Rattle.and_policy.specs.declared.entry.Entry.{Entry};

    /// No numbers. It takes no memory.
    pub(crate) fn new(alloc: Global) -> Numbered
        ensures { IsNumbered result (λ net. []) }
    {
        Numbered {
            counts: HashMap::new(alloc),
            live: HashSet::new(alloc),
        }
    }

    /// Makes room for one number more.
    pub(crate) fn room(&mut self) -> Result<(), NoMemory>
        ensures same { IsSameNumbered self.old self.new }
        ensures ok { OnOk result (HasRoom self.new) }
    {
        self.counts.reserve(1).map_err(|_| NoMemory)?;
        self.live.reserve(1).map_err(|_| NoMemory)?;
        Ok(())
    }

    /// How many numbers the network has.
    pub(crate) fn count(&self, net: u32) -> u32
        ensures { (f : ℕ → List ℕ) → IsNumbered self.now f → result ≡ length (f net) }
    {
        self.counts.get(&net).copied().unwrap_or(0)
    }

    /// Whether the network has the number.
    pub(crate) fn has(&self, net: u32, number: u32) -> bool
        ensures { (f : ℕ → List ℕ) → IsNumbered self.now f → result ≡ list_any (λ n. n == number) (f net) }
    {
        self.live.contains(&(net, number))
    }

    // Adds a number that the network has not.
    fn add(&mut self, net: u32, number: u32)
        requires { HasRoom self.old }
        ensures { (f : ℕ → List ℕ) → length (f net) < 256 → list_any (λ n. n == number) (f net) ≡ false
            → IsNumbered self.old f → IsNumbered self.new (with_number f net number) }
    {
        let count = self.counts.get(&net).copied().unwrap_or(0);
        put(&mut self.counts, net, count.saturating_add(1));
        add(&mut self.live, (net, number));
    }

    // Takes a number away that the network has.
    fn remove(&mut self, net: u32, number: u32)
        requires { HasRoom self.old }
        ensures { (f : ℕ → List ℕ) → list_any (λ n. n == number) (f net) ≡ true
            → IsNumbered self.old f → IsNumbered self.new (without_number f net number) }
    {
        let count = self.counts.get(&net).copied().unwrap_or(0);
        put(&mut self.counts, net, count.saturating_sub(1));
        self.live.remove(&(net, number));
    }

    /// The numbers of the rules after one entry more.
    pub(crate) fn note_rule(&mut self, entry: &Entry)
        requires { HasRoom self.old }
        ensures { (hosts : Option ℕ) (k : List Entry) → fits hosts k entry.now ≡ None
            → IsNumbered self.old (rule_numbers k) → IsNumbered self.new (rule_numbers (k ++ entry.now ∷ [])) }
    {
        match *entry {
            Entry::AddRule { net, rule } => self.add(net, rule.number),
            Entry::DelRule { net, number } => self.remove(net, number),
            _ => {}
        }
    }

    /// The numbers of the routes after one entry more.
    pub(crate) fn note_route(&mut self, entry: &Entry)
        requires { HasRoom self.old }
        ensures { (hosts : Option ℕ) (k : List Entry) → fits hosts k entry.now ≡ None
            → IsNumbered self.old (route_numbers k) → IsNumbered self.new (route_numbers (k ++ entry.now ∷ [])) }
    {
        match *entry {
            Entry::AddRoute { net, route } => self.add(net, route.number),
            Entry::DelRoute { net, number } => self.remove(net, number),
            _ => {}
        }
    }
}
