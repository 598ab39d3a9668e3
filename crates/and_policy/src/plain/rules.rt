//! Rules of a prefix, and what they say.
ghost use Rattle.std.specs.Prelude.{◌≡◌, ◌&&◌, Some, ◌∷◌, if◌then◌else◌};
ghost use Rattle.std.specs.List.{list_any};
ghost use Rattle.and_policy.specs.Egress as spec;
ghost use Rattle.and_policy.specs.Deletions as deletions;
ghost use Rattle.and_policy.specs.Logged.{entries_in, before, is_entry};
ghost use Rattle.and_policy.specs.Logs as logs;
ghost use Rattle.and_policy.specs.Matching as matching;
ghost use Rattle.and_policy.specs.Steps as steps;

use crate::decision::{Name, Verdict};
use crate::entry::{Entry, Prefix, Rule, Side};
use crate::packet::Tuple;
use crate::plain::logged::Logged;

/// Whether the prefix holds the address.
pub(crate) fn holds(prefix: &Prefix, address: u32) -> bool
    ensures { result ≡ matching.holds prefix.now address }
{
    if prefix.length > 32 {
        return false;
    }
    let past = 32 - prefix.length;
    u64::from(address) >> past == u64::from(prefix.address) >> past
}

// Whether a port lies in the range, ends included.
fn is_within(low: u16, high: u16, port: u16) -> bool
    ensures { result ≡ matching.is_within low high port }
{
    low <= port && port <= high
}

// Whether the protocol is the wanted one, where one is wanted.
fn is_protocol(wanted: Option<u8>, protocol: u8) -> bool
    ensures { result ≡ matching.is_protocol wanted protocol }
{
    match wanted {
        None => true,
        Some(wanted) => protocol == wanted,
    }
}

/// Whether the rule matches the tuple, whatever its side is: the protocol where it names one, both prefixes, and both ranges of ports, whose
/// ends count. Ports are compared whatever the protocol is.
pub fn matches(tuple: &Tuple, rule: &Rule) -> bool
    ensures { result ≡ matching.matches tuple.now rule.now }
{
    is_protocol(rule.protocol, tuple.protocol)
        && holds(&rule.source, tuple.source)
        && holds(&rule.destination, tuple.destination)
        && is_within(rule.source_low, rule.source_high, tuple.source_port)
        && is_within(
            rule.destination_low,
            rule.destination_high,
            tuple.destination_port,
        )
}

/// Whether the sides are the same.
pub fn is_side(a: Side, b: Side) -> bool
    ensures { result ≡ matching.is_side a b }
{
    match (a, b) {
        (Side::Egress, Side::Egress) | (Side::Ingress, Side::Ingress) => true,
        _ => false,
    }
}

// Whether the rule comes before the other: by priority, then by number, the smaller first.
fn is_before(a: &Rule, b: &Rule) -> bool
    ensures { result ≡ spec.rule_before a.now b.now }
{
    a.priority < b.priority || (a.priority == b.priority && a.number < b.number)
}

// Whether the rule decides in place of the best of those behind it.
fn decides(side: Side, tuple: &Tuple, rule: &Rule, best: Option<Rule>) -> bool
    ensures { (if result then Some rule.now else best) ≡ steps.with_rule side tuple.now rule.now best }
{
    if !(is_side(rule.side, side) && matches(tuple, rule)) {
        return false;
    }
    match best {
        None => true,
        Some(best) => !is_before(&best, rule),
    }
}

// The rule that decides of a list, one rule further to the front.
fn verdict_step(
    side: Side,
    tuple: &Tuple,
    rule: &Rule,
    later: &[Rule],
    best: Option<Rule>,
) -> Option<Rule>
    requires { best ≡ spec.deciding_rule side tuple.now later.now }
    ensures { result ≡ spec.deciding_rule side tuple.now (rule.now ∷ later.now) }
{
    let _ = later;
    if decides(side, tuple, rule, best) {
        Some(*rule)
    } else {
        best
    }
}

/// What a side says where this rule decides; without one a packet may leave and may not enter.
pub fn verdict_by(side: Side, rule: Option<Rule>) -> Verdict
    ensures { result ≡ spec.verdict_by side rule }
{
    match rule {
        None => Verdict {
            by: Name::Implied,
            allow: is_side(side, Side::Egress),
            sealed: false,
        },
        Some(rule) => Verdict {
            by: Name::Rule(rule.number),
            allow: rule.allow,
            sealed: rule.sealed,
        },
    }
}

/// What the rules of this side say of a packet: of those that match, the one with the smallest pair of priority and
/// number decides. Where none matches, a packet may leave and may not enter.
pub fn verdict(side: Side, tuple: &Tuple, rules: &[Rule]) -> Verdict
    ensures { result ≡ spec.verdict side tuple.now rules.now }
{
    let mut best = None;
    let mut at = rules.len();
    while at > 0 {
        at -= 1;
        best = verdict_step(side, tuple, &rules[at], &rules[at + 1..], best);
    }
    verdict_by(side, best)
}

// Whether the entry deletes the rule.
fn deletes(net: u32, number: u32, entry: Option<Entry>) -> bool
    ensures { result ≡ is_entry (logs.deletes_rule net number) entry }
{
    match entry {
        Some(Entry::DelRule { net: n, number: m }) => n == net && m == number,
        _ => false,
    }
}

// Whether an entry deletes the rule. There is no need to look where none deletes a rule of the network.
fn is_deleted<T: Logged>(log: &[T], net: u32, number: u32, some: bool) -> bool
    requires { some ≡ list_any (deletions.deletes_some_rule net) (entries_in T.entry_of log.now) }
    ensures { result ≡ list_any (logs.deletes_rule net number) (entries_in T.entry_of log.now) }
{
    some && has_deletion(log, net, number)
}

// Whether an entry deletes the rule.
fn has_deletion<T: Logged>(log: &[T], net: u32, number: u32) -> bool
    ensures { result ≡ list_any (logs.deletes_rule net number) (entries_in T.entry_of log.now) }
{
    let mut deleted = false;
    let mut at = log.len();
    while at > 0 {
        at -= 1;
        deleted = deletes(net, number, log[at].entry()) || deleted;
    }
    deleted
}

// Whether the entry deletes a rule of the network.
fn deletes_some(net: u32, entry: Option<Entry>) -> bool
    ensures { result ≡ is_entry (deletions.deletes_some_rule net) entry }
{
    match entry {
        Some(Entry::DelRule { net: n, .. }) => n == net,
        _ => false,
    }
}

// The rule that decides, one item further to the front. A rule counts only where no later entry deletes it.
fn deciding_step<T: Logged>(
    side: Side,
    tuple: &Tuple,
    net: u32,
    item: &T,
    later: &[T],
    some: bool,
    best: Option<Rule>,
) -> Option<Rule>
    requires some { some ≡ list_any (deletions.deletes_some_rule net) (entries_in T.entry_of later.now) }
    requires best { best ≡ spec.deciding_rule side tuple.now (logs.rules (entries_in T.entry_of later.now) net) }
    ensures { let log = before (T.entry_of item.now) (entries_in T.entry_of later.now) in
        result ≡ spec.deciding_rule side tuple.now (logs.rules log net) }
{
    match item.entry() {
        Some(Entry::AddRule { net: n, rule })
            if n == net
                && decides(side, tuple, &rule, best)
                && !is_deleted(later, net, rule.number, some) => { Some(rule) }
        _ => best,
    }
}

/// What the live rules of this side of the network say.
pub(crate) fn verdict_in<T: Logged>(side: Side, tuple: &Tuple, log: &[T], net: u32) -> Verdict
    ensures { result ≡ spec.verdict side tuple.now (logs.rules (entries_in T.entry_of log.now) net) }
{
    let mut best = None;
    let mut some = false;
    let mut at = log.len();
    while at > 0 {
        at -= 1;
        best = deciding_step(side, tuple, net, &log[at], &log[at + 1..], some, best);
        some = deletes_some(net, log[at].entry()) || some;
    }
    verdict_by(side, best)
}
