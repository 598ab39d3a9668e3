//! Routes of a prefix.
ghost use Rattle.std.specs.Prelude.{◌≡◌, Some, if◌then◌else◌};
ghost use Rattle.std.specs.List.{list_any};
ghost use Rattle.and_policy.specs.Deletions as deletions;
ghost use Rattle.and_policy.specs.Logged.{entries_in, before, is_entry};
ghost use Rattle.and_policy.specs.Logs as logs;
ghost use Rattle.and_policy.specs.Matching as matching;
ghost use Rattle.and_policy.specs.Routes as spec;
ghost use Rattle.and_policy.specs.Steps as steps;

use crate::decision::{Name, Routing};
use crate::entry::{Entry, Route, Target};
use crate::plain::logged::Logged;
use crate::plain::rules::holds;

// Whether the route comes before the other: by the length of the prefix, the greater first, then by number.
fn is_before(a: &Route, b: &Route) -> bool
    ensures { result ≡ spec.route_before a.now b.now }
{
    a.prefix.length > b.prefix.length || (a.prefix.length == b.prefix.length && a.number < b.number)
}

// Whether the route decides in place of the best of those behind it.
fn decides(address: u32, route: &Route, best: Option<Route>) -> bool
    ensures { (if result then Some route.now else best) ≡ steps.with_route address route.now best }
{
    if !holds(&route.prefix, address) {
        return false;
    }
    match best {
        None => true,
        Some(best) => !is_before(&best, route),
    }
}

// Whether the entry deletes the route.
fn deletes(net: u32, number: u32, entry: Option<Entry>) -> bool
    ensures { result ≡ is_entry (logs.deletes_route net number) entry }
{
    match entry {
        Some(Entry::DelRoute { net: n, number: m }) => n == net && m == number,
        _ => false,
    }
}

// Whether an entry deletes the route. There is no need to look where none deletes a route of the network.
fn is_deleted<T: Logged>(log: &[T], net: u32, number: u32, some: bool) -> bool
    requires { some ≡ list_any (deletions.deletes_some_route net) (entries_in T.entry_of log.now) }
    ensures { result ≡ list_any (logs.deletes_route net number) (entries_in T.entry_of log.now) }
{
    some && has_deletion(log, net, number)
}

// Whether an entry deletes the route.
fn has_deletion<T: Logged>(log: &[T], net: u32, number: u32) -> bool
    ensures { result ≡ list_any (logs.deletes_route net number) (entries_in T.entry_of log.now) }
{
    let mut deleted = false;
    let mut at = log.len();
    while at > 0 {
        at -= 1;
        deleted = deletes(net, number, log[at].entry()) || deleted;
    }
    deleted
}

// Whether the entry deletes a route of the network.
fn deletes_some(net: u32, entry: Option<Entry>) -> bool
    ensures { result ≡ is_entry (deletions.deletes_some_route net) entry }
{
    match entry {
        Some(Entry::DelRoute { net: n, .. }) => n == net,
        _ => false,
    }
}

// The route that decides, one item further to the front. A route counts only where no later entry deletes it.
fn deciding_step<T: Logged>(
    address: u32,
    net: u32,
    item: &T,
    later: &[T],
    some: bool,
    best: Option<Route>,
) -> Option<Route>
    requires some { some ≡ list_any (deletions.deletes_some_route net) (entries_in T.entry_of later.now) }
    requires best { best ≡ spec.deciding_route address (logs.routes (entries_in T.entry_of later.now) net) }
    ensures { let log = before (T.entry_of item.now) (entries_in T.entry_of later.now) in
        result ≡ spec.deciding_route address (logs.routes log net) }
{
    match item.entry() {
        Some(Entry::AddRoute { net: n, route })
            if n == net
                && decides(address, &route, best)
                && !is_deleted(later, net, route.number, some) => { Some(route) }
        _ => best,
    }
}

// What a network's routes say where this one decides.
fn routing_by(net: u32, route: Option<Route>) -> Routing
    ensures { result ≡ spec.routing_by net route }
{
    let Some(route) = route else {
        return Routing::Into {
            by: Name::Implied,
            net,
        };
    };
    let by = Name::Rule(route.number);
    match route.target {
        Target::Local => Routing::Into { by, net },
        Target::Peer(peer) => Routing::Into { by, net: peer },
        Target::Drop => Routing::Dropped { by },
    }
}

/// What the live routes of the network say of a destination.
pub(crate) fn route_in<T: Logged>(log: &[T], net: u32, address: u32) -> Routing
    ensures { result ≡ spec.route (entries_in T.entry_of log.now) net address }
{
    let mut best = None;
    let mut some = false;
    let mut at = log.len();
    while at > 0 {
        at -= 1;
        best = deciding_step(address, net, &log[at], &log[at + 1..], some, best);
        some = deletes_some(net, log[at].entry()) || some;
    }
    routing_by(net, best)
}
