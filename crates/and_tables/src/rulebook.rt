//! The rules of all networks.
ghost use Rattle.std.specs.Prelude.{◌≡◌, ◌<◌, ◌∷◌, ◌++◌, ◌==◌, not, ℕ, nat_eq, List, [], Some, None, cond, OnOk, OnErr};
ghost use Rattle.std.specs.List.{filter};
ghost use Rattle.std.specs.List.Sorted.{IsSortedBy};
ghost use Rattle.std.specs.HashMap as hash;
ghost use Rattle.and_policy.specs.declared.entry.Entry.{Entry};
ghost use Rattle.and_policy.specs.declared.entry.Entry.TheVariants.{AddRule, DelRule};
ghost use Rattle.and_policy.specs.Egress.{rule_before};
ghost use Rattle.and_policy.specs.Fitting.{fits};
ghost use Rattle.and_policy.specs.Logs as logs;
ghost use Rattle.and_policy.specs.Sorting.{place, sorted};
ghost use Rattle.and_tables.specs.Books.{IsRulebook, rules_at};

use crate::rules::Rules;
use and_policy::{Entry, NoMemory, Rule};
use std::alloc::Global;
use std::collections::HashMap;

/// The live rules by network.
#[derive(Drop)]
pub struct Rulebook {
    /// By network: its rules.
    pub(crate) nets: HashMap<u32, Rules>,
}

// Puts the rules at the network, for which there is room.
fn put_rules(nets: &mut HashMap<u32, Rules>, net: u32, rules: Rules)
    requires { 0 < hash.spare nets.old }
    ensures { hash.Updates nat_eq nets.old nets.new net (Some rules) }
{
    let put: Result<_, _> = nets.insert(net, rules);
    let _ = put.unwrap();
}

// Adds the first rule of the network. After want of memory each network has the rules of before.
fn add_first(
    alloc: Global,
    nets: &mut HashMap<u32, Rules>,
    net: u32,
    rule: Rule,
) -> Result<(), NoMemory>
    ensures ok { OnOk result ((q : ℕ) → rules_at nets.new q ≡ cond (nat_eq net q) (place rule_before rule []) (rules_at nets.old q)) }
    ensures err { OnErr result ((q : ℕ) → rules_at nets.new q ≡ rules_at nets.old q) }
{
    nets.reserve(1).map_err(|_| NoMemory)?;
    let mut rules = Rules::new(alloc);
    rules.add(rule)?;
    put_rules(nets, net, rules);
    Ok(())
}

// Adds the rule. After want of memory each network has the rules of before.
fn add_at(
    alloc: Global,
    nets: &mut HashMap<u32, Rules>,
    net: u32,
    rule: Rule,
) -> Result<(), NoMemory>
    ensures ok { OnOk result ((q : ℕ) → rules_at nets.new q ≡ cond (nat_eq net q) (place rule_before rule (rules_at nets.old net)) (rules_at nets.old q)) }
    ensures err { OnErr result ((q : ℕ) → rules_at nets.new q ≡ rules_at nets.old q) }
{
    match nets.get_mut(&net) {
        Some(rules) => rules.add(rule),
        None => add_first(alloc, nets, net, rule),
    }
}

// Takes the rule of this number away.
fn delete_at(nets: &mut HashMap<u32, Rules>, net: u32, number: u32)
    ensures { (q : ℕ) → rules_at nets.new q ≡ cond (nat_eq net q) (filter (λ r. not (r.number == number)) (rules_at nets.old net)) (rules_at nets.old q) }
{
    if let Some(rules) = nets.get_mut(&net) {
        rules.delete(number);
    }
}

impl Rulebook {
    /// No rules. It takes no memory.
    pub(crate) fn new(alloc: Global) -> Rulebook
        ensures { IsRulebook result [] }
    {
        Rulebook {
            nets: HashMap::new(alloc),
        }
    }

    // Adds a rule.
    fn add(&mut self, alloc: Global, net: u32, rule: Rule) -> Result<(), NoMemory>
        ensures ok { OnOk result ((k : List Entry) → fits None k (AddRule net rule) ≡ None → IsRulebook self.old k → IsRulebook self.new (k ++ AddRule net rule ∷ [])) }
        ensures err { OnErr result ((k : List Entry) → IsRulebook self.old k → IsRulebook self.new k) }
    {
        add_at(alloc, &mut self.nets, net, rule)
    }

    // Takes a rule away.
    fn delete(&mut self, net: u32, number: u32)
        ensures { (k : List Entry) → fits None k (DelRule net number) ≡ None → IsRulebook self.old k → IsRulebook self.new (k ++ DelRule net number ∷ []) }
    {
        delete_at(&mut self.nets, net, number);
    }

    /// One entry more.
    ///
    /// # Errors
    ///
    /// Where memory is wanting; the rules are then those of before.
    pub(crate) fn append(&mut self, alloc: Global, entry: &Entry) -> Result<(), NoMemory>
        ensures ok { OnOk result ((k : List Entry) → fits None k entry.now ≡ None → IsRulebook self.old k → IsRulebook self.new (k ++ entry.now ∷ [])) }
        ensures err { OnErr result ((k : List Entry) → IsRulebook self.old k → IsRulebook self.new k) }
    {
        match *entry {
            Entry::AddRule { net, rule } => self.add(alloc, net, rule),
            Entry::DelRule { net, number } => {
                self.delete(net, number);
                Ok(())
            }
            _ => Ok(()),
        }
    }

    /// The live rules of the network, by priority and number.
    pub(crate) fn of(&self, net: u32) -> &[Rule]
        ensures ordered { IsSortedBy rule_before result.now }
        ensures rules { (k : List Entry) → IsRulebook self.now k → result.now ≡ sorted rule_before (logs.rules k net) }
    {
        match self.nets.get(&net) {
            Some(rules) => rules.as_slice(),
            None => &[],
        }
    }
}
