//! Live routes by the length of their prefix and the bits of it that count.
ghost use Rattle.std.specs.Prelude.{◌≡◌, ◌≤◌, ◌<◌, ◌-◌, ◌/◌, ◌^◌, ◌∷◌, ◌++◌, ◌==◌, not, ℕ, List, [], Some, None, cond, OnOk, OnErr};
ghost use Rattle.std.specs.List.{filter};
ghost use Rattle.std.specs.HashMap as hash;
ghost use Rattle.and_policy.specs.declared.entry.Entry.{Entry};
ghost use Rattle.and_policy.specs.declared.entry.Entry.TheVariants.{AddRoute, DelRoute};
ghost use Rattle.and_policy.specs.Fitting.{fits};
ghost use Rattle.and_policy.specs.Logs as logs;
ghost use Rattle.and_policy.specs.Routes.{deciding_route};
ghost use Rattle.and_policy.specs.Sorting.{place, smaller_route};
ghost use Rattle.and_routes.specs.Buckets.{IsPrefixes, key_eq, bucket_at, first_in};
ghost use Rattle.and_routes.specs.Heads.{head};

use crate::bucket::Bucket;
use and_policy::{Entry, NoMemory, Prefix, Route};
use std::alloc::Global;
use std::collections::HashMap;
use std::hash::Hash;

/// Network, length, and the bits that count, as the number that they are.
type Key = ((u32, u8), u64);

/// The live routes of all networks.
#[derive(Drop)]
pub struct Prefixes {
    /// By key: its routes, the smallest number first.
    pub(crate) buckets: HashMap<Key, Bucket>,
    /// By network and number: the route's prefix.
    pub(crate) prefixes: HashMap<(u32, u32), Prefix>,
}

// The bits of the address that count at this length; none do past 32.
fn high(address: u32, length: u8) -> u64
    ensures { length ≤ 32 → result ≡ address / 2 ^ (32 - length) }
{
    if length > 32 {
        return 0;
    }
    u64::from(address) >> (32 - length)
}

// Adds the route at the key. After want of memory each key has the routes of before.
fn add_at(
    alloc: Global,
    buckets: &mut HashMap<Key, Bucket>,
    key: Key,
    route: Route,
) -> Result<(), NoMemory>
    ensures ok { OnOk result ((q : (ℕ × ℕ) × ℕ) → bucket_at buckets.new q ≡ cond (key_eq key q) (place smaller_route route (bucket_at buckets.old key)) (bucket_at buckets.old q)) }
    ensures err { OnErr result ((q : (ℕ × ℕ) × ℕ) → bucket_at buckets.new q ≡ bucket_at buckets.old q) }
{
    buckets.reserve(1).map_err(|_| NoMemory)?;
    let mut bucket = buckets.remove(&key).unwrap_or(Bucket::new(alloc));
    let added = bucket.add(route);
    put(buckets, key, bucket);
    added
}

// Takes the route of this number away from the key. After want of memory each key has the routes of before.
fn delete_at(alloc: Global, buckets: &mut HashMap<Key, Bucket>, key: Key, number: u32)
    requires { 0 < hash.spare buckets.old }
    ensures { (q : (ℕ × ℕ) × ℕ) → bucket_at buckets.new q ≡ cond (key_eq key q) (filter (λ r. not (r.number == number)) (bucket_at buckets.old key)) (bucket_at buckets.old q) }
{
    let mut bucket = buckets.remove(&key).unwrap_or(Bucket::new(alloc));
    bucket.delete(number);
    put(buckets, key, bucket);
}

// Puts the value at the key, for which there is room.
fn put<K: Eq + Hash + Drop, V: Drop>(map: &mut HashMap<K, V>, key: K, value: V)
    requires { 0 < hash.spare map.old }
    ensures { hash.Updates K.eq map.old map.new key (Some value) }
{
    let put: Result<_, _> = map.insert(key, value);
    let _ = put.unwrap();
}

impl Prefixes {
    /// No routes. It takes no memory.
    pub(crate) fn new(alloc: Global) -> Prefixes
        ensures { IsPrefixes result [] }
    {
        Prefixes {
            buckets: HashMap::new(alloc),
            prefixes: HashMap::new(alloc),
        }
    }

    // Adds a route.
    fn add(&mut self, alloc: Global, net: u32, route: Route) -> Result<(), NoMemory>
        ensures ok { OnOk result ((k : List Entry) → fits None k (AddRoute net route) ≡ None → IsPrefixes self.old k → IsPrefixes self.new (k ++ AddRoute net route ∷ [])) }
        ensures err { OnErr result ((k : List Entry) → IsPrefixes self.old k → IsPrefixes self.new k) }
    {
        let key = (
            (net, route.prefix.length),
            high(route.prefix.address, route.prefix.length),
        );
        self.prefixes.reserve(1).map_err(|_| NoMemory)?;
        add_at(alloc, &mut self.buckets, key, route)?;
        put(&mut self.prefixes, (net, route.number), route.prefix);
        Ok(())
    }

    // Takes a route away.
    fn delete(&mut self, alloc: Global, net: u32, number: u32) -> Result<(), NoMemory>
        ensures ok { OnOk result ((k : List Entry) → fits None k (DelRoute net number) ≡ None → IsPrefixes self.old k → IsPrefixes self.new (k ++ DelRoute net number ∷ [])) }
        ensures err { OnErr result ((k : List Entry) → IsPrefixes self.old k → IsPrefixes self.new k) }
    {
        self.buckets.reserve(1).map_err(|_| NoMemory)?;
        match self.prefixes.remove(&(net, number)) {
            Some(prefix) => {
                let key = ((net, prefix.length), high(prefix.address, prefix.length));
                delete_at(alloc, &mut self.buckets, key, number);
            }
            None => {}
        }
        Ok(())
    }

    /// One entry more.
    ///
    /// # Errors
    ///
    /// Where memory is wanting; the routes are then those of before.
    pub(crate) fn append(&mut self, alloc: Global, entry: &Entry) -> Result<(), NoMemory>
        ensures ok { OnOk result ((k : List Entry) → fits None k entry.now ≡ None → IsPrefixes self.old k → IsPrefixes self.new (k ++ entry.now ∷ [])) }
        ensures err { OnErr result ((k : List Entry) → IsPrefixes self.old k → IsPrefixes self.new k) }
    {
        match *entry {
            Entry::AddRoute { net, route } => self.add(alloc, net, route),
            Entry::DelRoute { net, number } => self.delete(alloc, net, number),
            _ => Ok(()),
        }
    }

    // The route that decides among those of this length whose prefix holds the address.
    fn first(&self, net: u32, length: u8, address: u32) -> Option<Route>
        requires { length ≤ 32 }
        ensures { (k : List Entry) → IsPrefixes self.now k → result ≡ first_in length address (logs.routes k net) }
    {
        first_of(&self.buckets, ((net, length), high(address, length)))
    }

    /// The route of the network that decides for the address.
    pub(crate) fn deciding(&self, net: u32, address: u32) -> Option<Route>
        ensures { (k : List Entry) → IsPrefixes self.now k → result ≡ deciding_route address (logs.routes k net) }
    {
        let mut length = 33_u8;
        while length > 0 {
            length -= 1;
            match self.first(net, length, address) {
                Some(route) => return Some(route),
                None => {}
            }
        }
        None
    }
}

// The first route at the key.
fn first_of(buckets: &HashMap<Key, Bucket>, key: Key) -> Option<Route>
    ensures { result ≡ head (bucket_at buckets.now key) }
{
    match buckets.get(&key) {
        Some(bucket) => bucket.first(),
        None => None,
    }
}
