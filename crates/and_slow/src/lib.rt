//! The slow path: the rule of an ordered list that decides of a packet.
//!
//! It promises that the first rule of the side that matches, in a list that is sorted by priority and number, is the one that decides by the policy,
//! and that each rule is looked at once at most, which is counted. It stands on `and_policy`, which has the rules and what they say.
#![tactic(auto)]

mod first;
mod steps;

pub use and_policy::Verdict;
pub use first::first_match;
pub use steps::Steps;
