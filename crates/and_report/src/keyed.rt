//! Packets that rules and routes dropped, counted by key.
ghost use Rattle.std.specs.Prelude.{◌≡◌, OnOk, unwrap_or};
ghost use Rattle.std.specs.BTreeMap.{is_at};
ghost use Rattle.std.specs.Map.{lookup};
ghost use Rattle.and_report.specs.Keys as spec;

use crate::counts::plus;
use crate::fate::{Fate, Key, Stage};
use and_policy::NoMemory;
use std::alloc::Global;
use std::collections::BTreeMap;

/// How many packets were dropped, by network and number.
pub(crate) type Drops = BTreeMap<(u32, u32), u64>;

/// The key of a packet that was dropped at this stage.
pub(crate) fn key_of(stage: Stage, fate: Fate) -> Option<Key>
    ensures { result ≡ spec.stage_key stage fate }
{
    match (stage, fate) {
        (Stage::Egress, Fate::EgressDenied { net, number }) => Some(Key { net, number }),
        (Stage::Ingress, Fate::IngressDenied { net, number }) => Some(Key { net, number }),
        (Stage::Route, Fate::RouteDropped { net, number }) => Some(Key { net, number }),
        _ => None,
    }
}

// The count of a key; 0 where it has none.
fn count_at(drops: &Drops, key: (u32, u32)) -> u64
    ensures { result ≡ unwrap_or (lookup (is_at (spec.pair_cmp key)) drops.now.entries) 0 }
{
    match drops.get(&key) {
        Some(count) => *count,
        None => 0,
    }
}

// Counts a key once more.
fn add_key(drops: &mut Drops, key: Key) -> Result<(), NoMemory>
    ensures { OnOk result (spec.Raises (Some key) drops.old.entries drops.new.entries) }
{
    let Key { net, number } = key;
    let count = count_at(drops, (net, number));
    let more = plus(count, true)?;
    match drops.insert((net, number), more) {
        Ok(_) => Ok(()),
        Err(_) => Err(NoMemory),
    }
}

/// Counts the packet, where it was dropped at this stage.
pub(crate) fn add_drop(drops: &mut Drops, stage: Stage, fate: Fate) -> Result<(), NoMemory>
    ensures { OnOk result (spec.Raises (spec.stage_key stage fate) drops.old.entries drops.new.entries) }
{
    match key_of(stage, fate) {
        Some(key) => add_key(drops, key),
        None => Ok(()),
    }
}
