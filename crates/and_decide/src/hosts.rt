//! What a host's worker decides.
ghost use Rattle.std.specs.Prelude.{◌≡◌, ◌<◌, ◌≤◌, ◌+◌, IsOk, IfOk, Ok, Err, None, length};
ghost use Rattle.and_policy.specs.declared.decision.Way.TheVariants.{Fast};
ghost use Rattle.and_policy.specs.Caches as caches;
ghost use Rattle.and_policy.specs.Fitting.{IsLog};
ghost use Rattle.and_policy.specs.Frames.{fields};
ghost use Rattle.and_policy.specs.Logs as logs;
ghost use Rattle.and_policy.specs.Programmes.{entries};
ghost use Rattle.and_decide.specs.Deciding.{AreRight, IsAt, arrival, departure, net_of_key, rules_landing, rules_leaving};

use crate::asking::{remembered, tuple_of};
use crate::behind::{Behind, reached};
use crate::looking::look_up;
use and_flow::FlowCache;
use and_parcel::Parcel;
use and_policy::{Decision, FlowKey, Side, Tables, Way};
use and_slow::Steps;
use and_tables::HostTables;
use std::sync::ledger::Ledger;

// What is decided of the key: by the cache where it answers, and otherwise by the tables.
fn decide<L: Ledger>(
    tables: &HostTables,
    cache: &FlowCache,
    at: u32,
    key: &FlowKey,
    steps: &mut Steps<L>,
) -> Decision
    requires { AreRight tables.now cache.now }
    ensures at { result.at ≡ at }
    ensures way { IsLog None (entries tables.now.ops) → result.way ≡ caches.way tables.now.gateways cache.now tables.now.ops (length tables.now.ops) key.now }
    ensures outcome { IsLog None (entries tables.now.ops) → result.outcome ≡ caches.said tables.now.gateways tables.now.ops (length tables.now.ops) key.now }
    ensures fast { result.way ≡ Fast → steps.new ≡ steps.old }
    ensures cost { IsLog None (entries tables.now.ops) → steps.new ≤ steps.old + length (logs.rules (entries tables.now.ops) (net_of_key tables.now key.now)) }
{
    match remembered(tables, cache, key) {
        Some(outcome) => Decision {
            at,
            way: Way::Fast,
            outcome,
        },
        None => Decision {
            at,
            way: Way::Slow,
            outcome: look_up(tables, key, steps),
        },
    }
}

/// What the tables' operations say of a parcel that leaves its VM. The way is fast exactly where the cache answered; then no rule is looked at, and
/// otherwise each live rule of the VM's network at most once. The parcel's frame is one that `read_frame` accepts, as [`Parcel::make`] needs, and
/// each entry of the cache is what the first operations of these tables say, as many as its stamp. What is decided is the policy's where the entries
/// among the operations are a log. Takes no memory, and leaves the cache as it is.
///
/// # Errors
///
/// Exactly where the tables stand at fewer operations than `need`.
pub fn egress<L: Ledger>(
    tables: &HostTables,
    cache: &FlowCache,
    parcel: &Parcel,
    need: u32,
    steps: &mut Steps<L>,
) -> Result<Decision, Behind>
    requires frame { IsOk (fields parcel.now.frame) }
    requires right { AreRight tables.now cache.now }
    ensures behind { length tables.now.ops < need → result ≡ Err (record { at = length tables.now.ops }) }
    ensures number { need ≤ length tables.now.ops → IsAt (length tables.now.ops) result }
    ensures decision { need ≤ length tables.now.ops → IsLog None (entries tables.now.ops) → result ≡ Ok (departure tables.now cache.now parcel.now) }
    ensures fast { IfOk result (λ d. d.way ≡ Fast → steps.new ≡ steps.old) }
    ensures cost { IsLog None (entries tables.now.ops) → steps.new ≤ steps.old + rules_leaving tables.now parcel.now }
    ensures none { length tables.now.ops < need → steps.new ≡ steps.old }
{
    let at = reached(tables.at(), need)?;
    let key = FlowKey {
        side: Side::Egress,
        scope: parcel.vm(),
        tuple: tuple_of(parcel),
    };
    Ok(decide(tables, cache, at, &key, steps))
}

/// What the tables' operations say of a parcel that has come into the network `vni`. The way is fast exactly where the cache answered; then no rule
/// is looked at, and otherwise each live rule of the network at most once. The parcel's frame is one that `read_frame` accepts, as [`Parcel::make`]
/// needs, and each entry of the cache is what the first operations of these tables say, as many as its stamp. What is decided is the policy's where
/// the entries among the operations are a log. Takes no memory, and leaves the cache as it is.
///
/// # Errors
///
/// Exactly where the tables stand at fewer operations than `need`.
pub fn ingress<L: Ledger>(
    tables: &HostTables,
    cache: &FlowCache,
    parcel: &Parcel,
    vni: u32,
    need: u32,
    steps: &mut Steps<L>,
) -> Result<Decision, Behind>
    requires frame { IsOk (fields parcel.now.frame) }
    requires right { AreRight tables.now cache.now }
    ensures behind { length tables.now.ops < need → result ≡ Err (record { at = length tables.now.ops }) }
    ensures number { need ≤ length tables.now.ops → IsAt (length tables.now.ops) result }
    ensures decision { need ≤ length tables.now.ops → IsLog None (entries tables.now.ops) → result ≡ Ok (arrival tables.now cache.now vni parcel.now) }
    ensures fast { IfOk result (λ d. d.way ≡ Fast → steps.new ≡ steps.old) }
    ensures cost { IsLog None (entries tables.now.ops) → steps.new ≤ steps.old + rules_landing tables.now vni }
    ensures none { length tables.now.ops < need → steps.new ≡ steps.old }
{
    let at = reached(tables.at(), need)?;
    let key = FlowKey {
        side: Side::Ingress,
        scope: vni,
        tuple: tuple_of(parcel),
    };
    Ok(decide(tables, cache, at, &key, steps))
}
