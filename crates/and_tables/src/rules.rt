//! The rules of one network, in the order in which they are tried.
ghost use Rattle.std.specs.Prelude.{◌≡◌, ◌≤◌, ◌==◌, not, length, [], OnOk, OnErr};
ghost use Rattle.std.specs.List.{filter, insert};
ghost use Rattle.std.specs.List.Sorted.{IsSortedBy};
ghost use Rattle.and_policy.specs.Egress.{rule_before};
ghost use Rattle.and_policy.specs.Sorting.{place};

use and_policy::{NoMemory, Rule};
use std::alloc::Global;
use std::marker::Model;

/// The rules of one network by priority, then by number. Contracts see their list, which is always in this order.
#[derive(Drop)]
pub struct Rules {
    rules: Vec<Rule>,
}

impl Model for Rules {
    ghost use Rattle.std.specs.Prelude.{List};
    ghost use Rattle.std.specs.List.Sorted.{IsSortedBy};
    ghost use Rattle.and_policy.specs.declared.entry.Rule.{Rule};
    ghost use Rattle.and_policy.specs.Egress.{rule_before};

    ghost Value = { List Rule };

    ghost view = { λ r. r.rules.items };

    ghost invariant = { λ r. IsSortedBy rule_before r.rules.items };
}

// Whether the rule is tried before the other.
fn is_before(a: &Rule, b: &Rule) -> bool
    ensures { result ≡ rule_before a.now b.now }
{
    a.priority < b.priority || (a.priority == b.priority && a.number < b.number)
}

// Where the rule belongs among rules in their order.
fn place_of(rules: &[Rule], rule: &Rule) -> usize
    ensures bound { result ≤ length rules.now }
    ensures place { place rule_before rule.now rules.now ≡ insert rules.now result rule.now }
{
    let mut at = 0;
    while at < rules.len() {
        if is_before(rule, &rules[at]) {
            return at;
        }
        at += 1;
    }
    at
}

// Takes the rule of this number out.
fn delete_from(rules: &mut Vec<Rule>, number: u32)
    ensures { rules.new.items ≡ filter (λ r. not (r.number == number)) rules.old.items }
{
    rules.retain(|rule| rule.number != number);
}

impl Rules {
    /// No rules. It takes no memory.
    pub(crate) fn new(alloc: Global) -> Rules
        ensures { result ≡ [] }
    {
        Rules {
            rules: Vec::new(alloc),
        }
    }

    /// Adds a rule at its place. After want of memory the rules are as they were.
    pub(crate) fn add(&mut self, rule: Rule) -> Result<(), NoMemory>
        ensures ok { OnOk result (self.new ≡ place rule_before rule self.old) }
        ensures err { OnErr result (self.new ≡ self.old) }
    {
        let at = place_of(&self.rules, &rule);
        self.rules.insert(at, rule).map_err(|_| NoMemory)?;
        Ok(())
    }

    /// Takes the rule of this number out.
    pub(crate) fn delete(&mut self, number: u32)
        ensures { self.new ≡ filter (λ r. not (r.number == number)) self.old }
    {
        delete_from(&mut self.rules, number);
    }

    /// The rules.
    pub(crate) fn as_slice(&self) -> &[Rule]
        ensures rules { result.now ≡ self.now }
        ensures ordered { IsSortedBy rule_before result.now }
    {
        &self.rules
    }
}
