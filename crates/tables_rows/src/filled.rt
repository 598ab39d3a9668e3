//! Flow caches with outcomes in them, beside the list of the same puts.
ghost use Rattle.std.specs.Prelude.{◌≡◌, ◌≤◌, IfOk, length};
ghost use Rattle.and_policy.specs.Caches.{said};
ghost use Rattle.and_decide.specs.Deciding.{AreRight};

use crate::comparing::count_of;
use crate::drawing::Draws;
use crate::plainly::Puts;
use and_flow::FlowCache;
use and_policy::{Cached, FlowKey, NoMemory, Outcome, Side, Tables, Tuple, plain};
use and_tables::HostTables;
use std::alloc::Global;

/// What the plain policy says of a key under the first `count` operations of the tables.
#[tactic(auto, unfolding(and_policy::specs::Caches::said))]
pub(crate) fn said_of(tables: &HostTables, key: &FlowKey, count: u32) -> Outcome
    requires { count ≤ length tables.now.ops }
    ensures { result ≡ said tables.now.gateways tables.now.ops count key.now }
{
    let (ops, gateways) = (tables.ops(), tables.gateways());
    match key.side {
        Side::Egress => {
            Outcome::Leaving(plain::leaving(gateways, ops, count, key.scope, &key.tuple))
        }
        Side::Ingress => Outcome::Landing(plain::landing_at(ops, count, key.scope, &key.tuple)),
    }
}

/// Puts what the first `stamp` operations say of the key into the cache and the list.
#[tactic(auto, using(and_decide::proofs::Remembered::right_put))]
fn remember(
    tables: &HostTables,
    cache: &mut FlowCache,
    puts: &mut Puts,
    key: FlowKey,
    stamp: u32,
) -> Result<(), NoMemory>
    requires right { AreRight tables.now cache.old }
    requires stamp { stamp ≤ length tables.now.ops }
    ensures { AreRight tables.now cache.new }
{
    let outcome = said_of(tables, &key, stamp);
    cache.put(&key, stamp, outcome);
    puts.put(Cached {
        key,
        stamp,
        outcome,
    })
}

/// A drawn number of operations, every second time all there are.
fn stamp_of(draws: &mut Draws, at: u32) -> u32
    ensures { result ≤ at }
{
    if draws.coin() || at == u32::MAX {
        return at;
    }
    draws.below(at + 1)
}

/// A cache after so many drawn puts for VMs and networks, all of this tuple and so into one group, and in the list the same puts.
#[tactic(auto, using(and_decide::proofs::Remembered::right_empty))]
pub(crate) fn filled(
    alloc: Global,
    draws: &mut Draws,
    tables: &HostTables,
    tuple: &Tuple,
    count: u32,
    puts: &mut Puts,
) -> Result<FlowCache, NoMemory>
    ensures { IfOk result (λ c. AreRight tables.now c) }
{
    let mut cache = FlowCache::make(alloc)?;
    let at = count_of(tables.ops());
    for _put in 0..count {
        let key = draws.key(tuple);
        let stamp = stamp_of(draws, at);
        remember(tables, &mut cache, puts, key, stamp)?;
    }
    Ok(cache)
}
