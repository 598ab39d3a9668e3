//! Which of the enabled actors is the first.
ghost use Rattle.std.specs.Prelude.{◌≡◌, ◌↔◌, ◌<◌, ◌≤◌, ◌+◌, ℕ, IsTrue};
ghost use Rattle.and_events.specs.Ordered.{IsFirst};
ghost use Rattle.and_events.specs.Places as places;
ghost use Rattle.and_events.specs.declared.event.Actor.TheVariants as actors;
ghost use Rattle.and_plain_fates.specs.First as spec;

use and_events::{Actor, Plan, Settings};
use and_plain::{State, both, hand_count, hand_place, is_enabled, node_count};

/// A post of a host or a gateway.
#[derive(Clone, Copy)]
pub(crate) enum Post {
    /// The installer of a host.
    InstallsHost,
    /// The installer of a gateway.
    InstallsGate,
    /// The packet worker of this index of a host.
    Works(u32),
    /// The coprocessor of a host.
    Seals,
    /// The packet worker of a gateway.
    Routes,
}

// The actor at the post of the host or gateway of this number.
fn actor_at(post: Post, number: u32) -> Actor
    ensures { result ≡ spec.actor_at post number }
{
    match post {
        Post::InstallsHost => Actor::HostInstall(number),
        Post::InstallsGate => Actor::GateInstall(number),
        Post::Works(index) => Actor::Worker {
            host: number,
            index,
        },
        Post::Seals => Actor::Coproc(number),
        Post::Routes => Actor::Gateway(number),
    }
}

/// The actor's number in the order of the actors.
pub(crate) fn actor_number(s: &Settings, actor: Actor) -> u128
    ensures { result ≡ places.actor_number s.now actor }
{
    match actor {
        Actor::HostInstall(host) => u128::from(host),
        Actor::GateInstall(gate) => u128::from(s.hosts) + u128::from(gate),
        Actor::Worker { .. } | Actor::Coproc(_) | Actor::Gateway(_) => {
            node_count(s) as u128 + hand_place(s, actor) as u128
        }
        Actor::Controller => node_count(s) as u128 + hand_count(s) as u128,
        Actor::Driver => node_count(s) as u128 + hand_count(s) as u128 + 1,
    }
}

// Whether the actor's number is not above the other's.
fn is_at_most(s: &Settings, actor: Actor, other: Actor) -> bool
    ensures { IsTrue result ↔ (places.actor_number s.now actor ≤ places.actor_number s.now other) }
{
    actor_number(s, actor) <= actor_number(s, other)
}

/// Whether the second holds where the first does.
pub(crate) fn implies(a: bool, b: bool) -> bool
    ensures { IsTrue result ↔ (IsTrue a → IsTrue b) }
{
    !a || b
}

// Whether the other actor, where it is enabled, does not come before.
fn is_not_before(plan: &Plan, s: &State, actor: Actor, other: Actor) -> bool
    ensures { IsTrue result ↔ spec.IsNotBefore plan.now s.now actor other }
{
    let enabled = is_enabled(plan, s, other);
    let after = is_at_most(&plan.settings, actor, other);
    implies(enabled, after)
}

// Whether the actor at this post, where it is enabled, does not come before.
fn is_not_before_at(plan: &Plan, s: &State, actor: Actor, post: Post, number: u32) -> bool
    ensures { IsTrue result ↔ spec.IsNotBefore plan.now s.now actor (spec.actor_at post number) }
{
    is_not_before(plan, s, actor, actor_at(post, number))
}

// Whether no enabled actor at this post of the first hosts or gateways comes before.
fn none_at(plan: &Plan, s: &State, actor: Actor, post: Post, count: u32) -> bool
    ensures { IsTrue result ↔ ((n : ℕ) → n < count → spec.IsNotBefore plan.now s.now actor (spec.actor_at post n)) }
{
    for number in 0..count {
        if !is_not_before_at(plan, s, actor, post, number) {
            return false;
        }
    }
    true
}

// Whether no enabled worker comes before.
fn no_worker(plan: &Plan, s: &State, actor: Actor) -> bool
    ensures { IsTrue result
        ↔ ((index : ℕ) → index < plan.now.settings.workers → (host : ℕ) → host < plan.now.settings.hosts
        → spec.IsNotBefore plan.now s.now actor (actors.Worker host index)) }
{
    for index in 0..plan.settings.workers {
        if !none_at(plan, s, actor, Post::Works(index), plan.settings.hosts) {
            return false;
        }
    }
    true
}

// Whether neither the controller nor the driver is enabled and comes before.
fn no_single(plan: &Plan, s: &State, actor: Actor) -> bool
    ensures { IsTrue result
        ↔ (spec.IsNotBefore plan.now s.now actor actors.Controller × spec.IsNotBefore plan.now s.now actor actors.Driver) }
{
    let controller = is_not_before(plan, s, actor, Actor::Controller);
    let driver = is_not_before(plan, s, actor, Actor::Driver);
    both(controller, driver)
}

/// Whether no enabled actor has a smaller number than this one.
pub(crate) fn is_first(plan: &Plan, s: &State, actor: Actor) -> bool
    ensures { IsTrue result ↔ IsFirst plan.now s.now actor }
{
    let hosts = plan.settings.hosts;
    let gates = plan.settings.gateways;
    let installs_host = none_at(plan, s, actor, Post::InstallsHost, hosts);
    let installs_gate = none_at(plan, s, actor, Post::InstallsGate, gates);
    let works = no_worker(plan, s, actor);
    let seals = none_at(plan, s, actor, Post::Seals, hosts);
    let routes = none_at(plan, s, actor, Post::Routes, gates);
    let single = no_single(plan, s, actor);
    all_of(installs_host, installs_gate, works, seals, routes, single)
}

// Whether all six hold.
fn all_of(a: bool, b: bool, c: bool, d: bool, e: bool, f: bool) -> bool
    ensures { IsTrue result ↔ (IsTrue a × IsTrue b × IsTrue c × IsTrue d × IsTrue e × IsTrue f) }
{
    a && b && c && d && e && f
}
