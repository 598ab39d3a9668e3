//! Where a key stands, and how its bytes are added.
ghost use Rattle.std.specs.Prelude.{◌≡◌, ◌<◌, ◌≤◌, ◌+◌, ◌^◌, length, slice_index_or, slice_set, true, false};
ghost use Rattle.std.specs.List.{insert};
ghost use Rattle.std.specs.Vec.{vec_len, vec_capacity};
ghost use Rattle.and_events.specs.Usage.{Used, same_key, with_use};
ghost use Rattle.and_policy.specs.Sorting.{Ascends};
ghost use Rattle.and_usage.specs.Counting.{IsPlace, bytes_of, used_before};

use crate::keys::{Used, is_before, is_same_key};
use and_policy::UsageKey;

/// The place of the first key that does not come before this one.
pub(crate) fn place_of(used: &[Used], key: &UsageKey) -> usize
    requires { Ascends used_before used.now }
    ensures { IsPlace key.now used.now result }
{
    used.partition_point(|u| is_before(&u.key, key))
}

// Whether the key stands at the place.
fn stands(used: &[Used], at: usize, key: &UsageKey) -> bool
    ensures there { result ≡ true → (at < length used.now) × ((d : Used) → same_key key.now (slice_index_or used.now at d).key ≡ true) }
    ensures absent { result ≡ false → at < length used.now → (d : Used) → same_key key.now (slice_index_or used.now at d).key ≡ false }
{
    if at >= used.len() {
        return false;
    }
    let found = used[at].key();
    is_same_key(key, &found)
}

// Adds the bytes at the place where the key stands.
fn add_at(used: &mut Vec<Used>, at: usize, key: UsageKey, bytes: u64)
    requires there { at < length used.old.items }
    requires sum { (d : Used) → (slice_index_or used.old.items at d).bytes + bytes < 2 ^ 64 }
    ensures items { (d : Used) → used.new.items ≡ slice_set used.old.items at (record { key = key; bytes = (slice_index_or used.old.items at d).bytes + bytes }) }
    ensures len { vec_len used.new ≡ vec_len used.old }
    ensures capacity { vec_capacity used.new ≡ vec_capacity used.old }
{
    let sum = used[at].bytes() + bytes;
    used[at] = Used::new(key, sum);
}

// Puts a new key at its place, for which there is room.
fn put_at(used: &mut Vec<Used>, at: usize, key: UsageKey, bytes: u64)
    requires place { at ≤ length used.old.items }
    requires room { vec_len used.old < vec_capacity used.old }
    ensures items { used.new.items ≡ insert used.old.items at (record { key = key; bytes = bytes }) }
    ensures len { vec_len used.new ≡ vec_len used.old + 1 }
    ensures capacity { vec_capacity used.old ≤ vec_capacity used.new }
{
    match used.insert(at, Used::new(key, bytes)) {
        Ok(()) => {}
        Err(_) => unreachable!(),
    }
}

/// So many bytes more for the key, where there is room for a key.
pub(crate) fn add_to(used: &mut Vec<Used>, key: UsageKey, bytes: u64)
    requires room { vec_len used.old < vec_capacity used.old }
    requires ordered { Ascends used_before used.old.items }
    requires sum { bytes_of key used.old.items + bytes < 2 ^ 64 }
    ensures items { used.new.items ≡ with_use key bytes used.old.items }
    ensures len { vec_len used.new ≤ vec_len used.old + 1 }
    ensures capacity { vec_capacity used.old ≤ vec_capacity used.new }
{
    let at = place_of(used, &key);
    if stands(used, at, &key) {
        add_at(used, at, key, bytes);
    } else {
        put_at(used, at, key, bytes);
    }
}
