//! The first rule that matches.
ghost use Rattle.std.specs.Prelude.{◌≡◌, ◌+◌, ◌≤◌, length};
ghost use Rattle.std.specs.List.Sorted.{IsSortedBy};
ghost use Rattle.and_policy.specs.Egress as policy;
ghost use Rattle.and_slow.specs.Looked.{looked};

use crate::steps::Steps;
use and_policy::plain::{is_side, matches, verdict_by};
use and_policy::{Rule, Side, Tuple, Verdict};
use std::sync::ledger::Ledger;

/// What the rules of this side say of a packet. They are sorted by priority and then by number, the smaller first, and may be of both sides: those
/// of the other side are passed over. Each rule is looked at once at most, and the count is of those that were.
pub fn first_match<L: Ledger>(
    rules: &[Rule],
    tuple: &Tuple,
    side: Side,
    steps: &mut Steps<L>,
) -> Verdict
    requires { IsSortedBy policy.rule_before rules.now }
    ensures verdict { result ≡ policy.verdict side tuple.now rules.now }
    ensures counted { steps.new ≡ steps.old + looked side tuple.now rules.now }
    ensures cost { steps.new ≤ steps.old + length rules.now }
{
    for rule in rules {
        steps.tick();
        if is_side(rule.side, side) && matches(tuple, rule) {
            return verdict_by(side, Some(*rule));
        }
    }
    verdict_by(side, None)
}
