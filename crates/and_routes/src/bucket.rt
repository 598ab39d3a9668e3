//! The routes of one prefix.
ghost use Rattle.std.specs.Prelude.{◌≡◌, ◌≤◌, ◌==◌, not, length, [], OnOk, OnErr};
ghost use Rattle.std.specs.List.{filter, insert};
ghost use Rattle.and_policy.specs.Sorting.{place, smaller_route};
ghost use Rattle.and_routes.specs.Heads.{head};

use and_policy::{NoMemory, Route};
use std::alloc::Global;
use std::marker::Model;

/// The routes of one prefix in the order of their numbers. Contracts see their list.
#[derive(Drop)]
pub struct Bucket {
    routes: Vec<Route>,
}

impl Model for Bucket {
    ghost use Rattle.std.specs.Prelude.{List};
    ghost use Rattle.and_policy.specs.declared.entry.Route.{Route};

    ghost Value = { List Route };

    ghost view = { λ b. b.routes.items };
}

// Where the route belongs among routes in the order of their numbers.
fn place_of(routes: &[Route], route: &Route) -> usize
    ensures bound { result ≤ length routes.now }
    ensures place { place smaller_route route.now routes.now ≡ insert routes.now result route.now }
{
    let mut at = 0;
    while at < routes.len() {
        if route.number < routes[at].number {
            return at;
        }
        at += 1;
    }
    at
}

// Takes the route of this number out.
fn delete_from(routes: &mut Vec<Route>, number: u32)
    ensures { routes.new.items ≡ filter (λ r. not (r.number == number)) routes.old.items }
{
    routes.retain(|route| route.number != number);
}

impl Bucket {
    /// No routes. It takes no memory.
    pub(crate) fn new(alloc: Global) -> Bucket
        ensures { result ≡ [] }
    {
        Bucket {
            routes: Vec::new(alloc),
        }
    }

    /// Adds a route at its place. After want of memory the routes are as they were.
    pub(crate) fn add(&mut self, route: Route) -> Result<(), NoMemory>
        ensures ok { OnOk result (self.new ≡ place smaller_route route self.old) }
        ensures err { OnErr result (self.new ≡ self.old) }
    {
        let at = place_of(&self.routes, &route);
        self.routes.insert(at, route).map_err(|_| NoMemory)?;
        Ok(())
    }

    /// Takes the route of this number out.
    pub(crate) fn delete(&mut self, number: u32)
        ensures { self.new ≡ filter (λ r. not (r.number == number)) self.old }
    {
        delete_from(&mut self.routes, number);
    }

    /// The route of the smallest number.
    pub(crate) fn first(&self) -> Option<Route>
        ensures { result ≡ head self.now }
    {
        self.routes.first().copied()
    }
}
