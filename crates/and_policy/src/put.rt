//! Keys and values put where there is room.
ghost use Rattle.std.specs.Prelude.{◌≡◌, ◌<◌, ◌≤◌, ◌+◌, Some, is_some, if◌then◌else◌, true};
ghost use Rattle.std.specs.HashMap as hash;
ghost use Rattle.std.specs.HashMap.{hash_map_len};
ghost use Rattle.std.specs.HashSet as bag;
ghost use Rattle.std.specs.HashSet.{hash_set_len};

use std::collections::{HashMap, HashSet};
use std::hash::Hash;

/// Puts the value at the key, for which there is room.
pub(crate) fn put<K: Eq + Hash + Drop, V: Drop>(map: &mut HashMap<K, V>, key: K, value: V)
    requires { 0 < hash.spare map.old }
    ensures updates { hash.Updates K.eq map.old map.new key (Some value) }
    ensures len { let was = is_some (hash.get K.eq map.old key) in
        hash_map_len map.new ≡ hash_map_len map.old + (if was then 0 else 1) }
    ensures spare { hash.spare map.old ≤ hash.spare map.new + 1 }
{
    let put: Result<_, _> = map.insert(key, value);
    let _ = put.unwrap();
}

/// Adds the key, for which there is room.
pub(crate) fn add<K: Eq + Hash + Drop>(set: &mut HashSet<K>, key: K)
    requires { 0 < bag.spare set.old }
    ensures updates { bag.Updates K.eq set.old set.new key true }
    ensures len { hash_set_len set.new ≡ hash_set_len set.old + (if bag.contains K.eq set.old key then 0 else 1) }
{
    let added: Result<_, _> = set.insert(key);
    let _ = added.unwrap();
}
