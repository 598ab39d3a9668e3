//! When the system has come to rest, when a run is over, and which hairpins may be taken away.
ghost use Rattle.std.specs.Prelude.{◌≡◌, ◌↔◌, ◌<◌, ℕ, [], None, IsTrue, length};
ghost use Rattle.std.specs.List.{All};
ghost use Rattle.and_events.specs.Legal as spec;
ghost use Rattle.and_events.specs.Ports as ports;

use crate::nodes::{NodeTest, nodes_pass};
use crate::ports::port_at;
use crate::rows::both;
use crate::state::State;
use and_events::{Held, Items, Plan};
use and_policy::Port;

// Whether nobody has a packet in hand.
fn are_free(hands: &[Option<Held>]) -> bool
    ensures { IsTrue result ↔ All (λ h. h ≡ None) hands.now }
{
    match hands {
        [] => true,
        [first, rest @ ..] => first.is_none() && are_free(rest),
    }
}

// Whether all queues are empty.
fn are_empty(queues: &[Items<u32>]) -> bool
    ensures { IsTrue result ↔ All (λ q. q ≡ []) queues.now }
{
    match queues {
        [] => true,
        [first, rest @ ..] => first.is_empty() && are_empty(rest),
    }
}

/// Whether the system has come to rest.
pub(crate) fn is_at_rest(plan: &Plan, s: &State) -> bool
    ensures { IsTrue result ↔ spec.IsAtRest plan.now s.now }
{
    are_free(&s.flow.hands) && nodes_pass(plan, s, NodeTest::Rests)
}

fn is_hairpin(port: Port) -> bool
    ensures { IsTrue result ↔ ports.IsHairpin port }
{
    match port {
        Port::Hairpin { .. } => true,
        _ => false,
    }
}

// Whether the list of ports has no hairpin.
fn is_clear(row: &[Port]) -> bool
    ensures { IsTrue result ↔ All (λ p. ports.IsHairpin p → ⊥) row.now }
{
    match row {
        [] => true,
        [first, rest @ ..] => !is_hairpin(*first) && is_clear(rest),
    }
}

// Whether there is no hairpin.
fn are_clear(all: &[Items<Port>]) -> bool
    ensures { IsTrue result ↔ All (λ row. All (λ p. ports.IsHairpin p → ⊥) row) all.now }
{
    match all {
        [] => true,
        [first, rest @ ..] => is_clear(first.as_slice()) && are_clear(rest),
    }
}

// The ports of each VM.
fn port_rows(s: &State) -> &[Items<Port>]
    ensures { result.now ≡ s.now.ports }
{
    &s.ports
}

// Whether no VM has a hairpin anywhere.
fn is_unpinned(s: &State) -> bool
    ensures { IsTrue result ↔ ((host vm : ℕ) → ports.IsHairpin (ports.port_at s.now.ports host vm) → ⊥) }
{
    are_clear(port_rows(s))
}

// Whether no packet is queued or in hand.
fn is_drained(s: &State) -> bool
    ensures { IsTrue result ↔ (All (λ q. q ≡ []) s.now.flow.queues × All (λ h. h ≡ None) s.now.flow.hands) }
{
    are_empty(&s.flow.queues) && are_free(&s.flow.hands)
}

/// Whether the run is over but for its last event.
pub(crate) fn is_over(plan: &Plan, s: &State) -> bool
    ensures { IsTrue result ↔ spec.IsOver plan.now s.now }
{
    let drained = is_drained(s);
    let installed = nodes_pass(plan, s, NodeTest::Installed);
    let clear = is_unpinned(s);
    both(drained, both(installed, clear))
}

/// Whether the VM's hairpin at the host is ripe: every node has installed the log entry that made it.
pub(crate) fn is_ripe(plan: &Plan, s: &State, host: u32, vm: usize) -> bool
    ensures { IsTrue result ↔ spec.IsRipe plan.now s.now host vm }
{
    match port_at(&s.ports, host as usize, vm) {
        Port::Hairpin { entry, .. } => {
            host < plan.settings.hosts && nodes_pass(plan, s, NodeTest::Has(entry))
        }
        _ => false,
    }
}

// Whether none of the first VMs has a ripe hairpin at the host.
fn none_below(plan: &Plan, s: &State, host: u32, count: usize) -> bool
    ensures { IsTrue result ↔ ((vm : ℕ) → vm < count → spec.IsRipe plan.now s.now host vm → ⊥) }
{
    for vm in 0..count {
        if is_ripe(plan, s, host, vm) {
            return false;
        }
    }
    true
}

/// How many VMs have ports.
pub(crate) fn vm_count(s: &State) -> usize
    ensures { result ≡ length s.now.ports }
{
    s.ports.len()
}

// Whether no VM has a ripe hairpin at the host.
fn none_at(plan: &Plan, s: &State, host: u32) -> bool
    ensures { IsTrue result ↔ ((vm : ℕ) → spec.IsRipe plan.now s.now host vm → ⊥) }
{
    none_below(plan, s, host, vm_count(s))
}

// Whether no VM has a ripe hairpin at one of the first hosts.
fn none_before(plan: &Plan, s: &State, hosts: u32) -> bool
    ensures { IsTrue result ↔ ((host : ℕ) → host < hosts → (vm : ℕ) → spec.IsRipe plan.now s.now host vm → ⊥) }
{
    for host in 0..hosts {
        if !none_at(plan, s, host) {
            return false;
        }
    }
    true
}

// Whether no ripe hairpin stands before this one, by host, then by VM.
fn is_first_ripe(plan: &Plan, s: &State, host: u32, vm: u32) -> bool
    ensures { IsTrue result ↔ ((h v : ℕ) → spec.IsRipe plan.now s.now h v → spec.Before h v host vm → ⊥) }
{
    let before = none_before(plan, s, host);
    let below = none_below(plan, s, host, vm as usize);
    both(before, below)
}

/// Whether this hairpin is the next to be taken away: the first of the ripe ones, by host, then by VM.
pub(crate) fn can_unpin(plan: &Plan, s: &State, host: u32, vm: u32) -> bool
    ensures { IsTrue result ↔ spec.CanUnpin plan.now s.now host vm }
{
    let ripe = is_ripe(plan, s, host, vm as usize);
    let first = is_first_ripe(plan, s, host, vm);
    both(ripe, first)
}
