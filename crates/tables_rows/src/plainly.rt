//! The plain answers that `and_policy` has no function for.

use and_policy::{Cached, Entry, FlowKey, NoMemory, Op, Outcome, Rule, flow_hash};
use std::alloc::Global;

/// The network and the address of a VM, where it is live.
pub(crate) fn home_of(entries: &[Entry], number: u32) -> Option<(u32, u32)> {
    let mut home = None;
    for entry in entries {
        match entry {
            Entry::AddVm { vm, net, ip, .. } if *vm == number => home = Some((*net, *ip)),
            Entry::RemoveVm { vm } if *vm == number => home = None,
            _ => {}
        }
    }
    home
}

/// The live rules of a network, by priority and number.
pub(crate) fn rules_of(
    alloc: Global,
    entries: &[Entry],
    network: u32,
) -> Result<Vec<Rule>, NoMemory> {
    let mut rules = Vec::new(alloc);
    for entry in entries {
        match entry {
            Entry::AddRule { net, rule } if *net == network => {
                rules.push(*rule).map_err(|_| NoMemory)?;
            }
            Entry::DelRule { net, number } if *net == network => take_rule(&mut rules, *number),
            _ => {}
        }
    }
    rules.sort_unstable_by_key(|rule| (rule.priority, rule.number));
    Ok(rules)
}

fn take_rule(rules: &mut Vec<Rule>, number: u32) {
    rules.retain(|rule| rule.number != number);
}

/// The entries among the operations.
pub(crate) fn entries_of(alloc: Global, ops: &[Op]) -> Result<Vec<Entry>, NoMemory> {
    let mut entries = Vec::new(alloc);
    for op in ops {
        if let Op::Entry(entry) = op {
            entries.push(*entry).map_err(|_| NoMemory)?;
        }
    }
    Ok(entries)
}

/// A flow cache as the list of its entries, the oldest first.
#[derive(Drop)]
pub struct Puts {
    pub(crate) entries: Vec<Cached>,
}

fn group_of(key: &FlowKey) -> u16 {
    flow_hash(&key.tuple) % 64
}

impl Puts {
    /// No entries.
    pub(crate) fn new(alloc: Global) -> Puts {
        Puts {
            entries: Vec::new(alloc),
        }
    }

    /// The key's entry, where its stamp is at least the floor.
    pub(crate) fn look(&self, key: &FlowKey, floor: u32) -> Option<Outcome> {
        let mut found = None;
        for entry in &self.entries {
            if entry.key == *key && entry.stamp >= floor {
                found = Some(entry.outcome);
            }
        }
        found
    }

    fn take_out(&mut self, key: &FlowKey) {
        self.entries.retain(|entry| entry.key != *key);
    }

    // The oldest entry of the group.
    fn oldest(&self, group: u16) -> Option<FlowKey> {
        for entry in &self.entries {
            if group_of(&entry.key) == group {
                return Some(entry.key);
            }
        }
        None
    }

    fn count(&self, group: u16) -> usize {
        self.entries
            .iter()
            .filter(|entry| group_of(&entry.key) == group)
            .count()
    }

    /// Puts an entry in the place of the key's old one, and of the oldest of a group that has 16 others.
    pub(crate) fn put(&mut self, new: Cached) -> Result<(), NoMemory> {
        self.take_out(&new.key);
        let group = group_of(&new.key);
        if self.count(group) >= 16 {
            if let Some(oldest) = self.oldest(group) {
                self.take_out(&oldest);
            }
        }
        self.entries.push(new).map_err(|_| NoMemory)
    }
}
