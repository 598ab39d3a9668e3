//! What is read of a parcel, and what the flow cache says of it.
ghost use Rattle.std.specs.Prelude.{◌≡◌, IsOk, IfSome, None, is_some, if◌then◌else◌, length};
ghost use Rattle.and_policy.specs.Caches as caches;
ghost use Rattle.and_policy.specs.declared.decision.Way.TheVariants.{Fast, Slow};
ghost use Rattle.and_policy.specs.Fitting.{IsLog};
ghost use Rattle.and_policy.specs.Frames.{fields, tuple_in};
ghost use Rattle.and_policy.specs.Programmes.{entries};
ghost use Rattle.and_decide.specs.Deciding.{AreRight};

use and_flow::FlowCache;
use and_parcel::Parcel;
use and_policy::{FlowKey, Outcome, Side, Tables, Tuple};
use and_tables::HostTables;
use and_wire::read_frame;

/// The tuple of the parcel's frame.
pub(crate) fn tuple_of(parcel: &Parcel) -> Tuple
    requires { IsOk (fields parcel.now.frame) }
    ensures { result ≡ tuple_in parcel.now.frame }
{
    match read_frame(parcel.frame()) {
        Ok(fields) => fields.tuple,
        Err(_) => unreachable!(),
    }
}

// Whether the cache is asked for the key: not where it is of a source VM that is not live.
fn is_asked(tables: &HostTables, key: &FlowKey) -> bool
    ensures { IsLog None (entries tables.now.ops) → result ≡ caches.is_cached (caches.said tables.now.gateways tables.now.ops (length tables.now.ops) key.now) }
{
    match key.side {
        Side::Egress => tables.net_of(key.scope).is_some(),
        Side::Ingress => true,
    }
}

// What the cache answers at the floor: an entry that was put before so many operations does not answer.
fn look(tables: &HostTables, cache: &FlowCache, key: &FlowKey) -> Option<Outcome>
    ensures { result ≡ caches.look cache.now key.now (caches.floor tables.now.ops (length tables.now.ops) key.now) }
{
    let floor = tables.at();
    cache.look(key, floor)
}

/// What the cache answers for the key, where it is asked.
pub(crate) fn remembered(tables: &HostTables, cache: &FlowCache, key: &FlowKey) -> Option<Outcome>
    ensures way { IsLog None (entries tables.now.ops) → caches.way tables.now.gateways cache.now tables.now.ops (length tables.now.ops) key.now ≡ (if is_some result then Fast else Slow) }
    ensures said { AreRight tables.now cache.now → IfSome result (λ o. o ≡ caches.said tables.now.gateways tables.now.ops (length tables.now.ops) key.now) }
{
    if is_asked(tables, key) {
        look(tables, cache, key)
    } else {
        None
    }
}
