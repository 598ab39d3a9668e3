//! Numbers by keys, 0 where a key has none.
ghost use Rattle.std.specs.Prelude.{◌≡◌, ◌<◌, ◌==◌, ◌≤◌, ◌+◌, ℕ, if◌then◌else◌};
ghost use Rattle.std.specs.HashMap as hash;
ghost use Rattle.and_tables.specs.Numbers.{at, at_pair, pair_eq};

use std::collections::HashMap;

/// The number at the key.
pub(crate) fn last(map: &HashMap<u32, u32>, key: u32) -> u32
    ensures { result ≡ at map.now key }
{
    map.get(&key).copied().unwrap_or(0)
}

/// The number at the two keys.
pub(crate) fn last_of(map: &HashMap<(u32, u32), u32>, a: u32, b: u32) -> u32
    ensures { result ≡ at_pair map.now a b }
{
    map.get(&(a, b)).copied().unwrap_or(0)
}

/// Puts the number at the key, for which there is room.
pub(crate) fn put(map: &mut HashMap<u32, u32>, key: u32, number: u32)
    requires { 0 < hash.spare map.old }
    ensures numbers { (q : ℕ) → at map.new q ≡ (if key == q then number else at map.old q) }
    ensures spare { hash.spare map.old ≤ hash.spare map.new + 1 }
{
    let put: Result<_, _> = map.insert(key, number);
    let _ = put.unwrap();
}

/// Puts the number at the two keys, for which there is room.
pub(crate) fn put_of(map: &mut HashMap<(u32, u32), u32>, a: u32, b: u32, number: u32)
    requires { 0 < hash.spare map.old }
    ensures { (q r : ℕ) → at_pair map.new q r ≡ (if pair_eq (a, b) (q, r) then number else at_pair map.old q r) }
{
    match map.insert((a, b), number) {
        Ok(_) => {}
        Err(_) => unreachable!(),
    }
}

/// Puts the number at the key, which has one.
pub(crate) fn change(map: &mut HashMap<u32, u32>, key: u32, number: u32)
    requires { 0 < at map.old key }
    ensures { (q : ℕ) → at map.new q ≡ (if key == q then number else at map.old q) }
{
    let changed: Result<_, _> = map.insert(key, number);
    let _ = changed.unwrap();
}
