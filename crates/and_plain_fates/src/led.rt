//! The network in which a packet arrives.
ghost use Rattle.std.specs.Prelude.{◌≡◌, ◌↔◌, ℕ, Some, IsTrue, IfOk};
ghost use Rattle.and_policy.specs.declared.decision.Dest as dest_type;
ghost use Rattle.and_events.specs.Just as spec;
ghost use Rattle.and_plain.specs.History.{history};
ghost use Rattle.and_plain_fates.specs.Behind as behind;

use crate::behind::{Led, Left, egresses, routes};
use and_events::{Departure, Event, Passage, Plan};
use and_plain::{source_net, tuple_at, vm_at};
use and_policy::plain::{egress, routed};
use and_policy::{Dest, Entry, Exit, NoMemory, Routed};
use std::alloc::Global;

/// What the route of the packet's source network says under these entries.
pub(crate) fn routed_from(plan: &Plan, log: &[Entry], packet: u32) -> Routed
    ensures { result ≡ behind.routed_from plan.now packet log.now }
{
    routed(
        log,
        source_net(plan, packet),
        tuple_at(plan, packet).destination,
    )
}

/// What the egress rules say of the packet under these entries.
pub(crate) fn exit_of(plan: &Plan, log: &[Entry], packet: u32) -> Exit
    ensures { result ≡ behind.exit_of plan.now packet log.now }
{
    let tuple = tuple_at(plan, packet);
    egress(log, vm_at(plan, packet), &tuple)
}

// Where the Egress sends the packet, where its entries allow it by the name that is written.
fn allowed_to(plan: &Plan, left: &Left, packet: u32) -> Option<Dest>
    ensures { (dest : dest_type.Dest) → (result ≡ Some dest) ↔ behind.Allows plan.now packet left.now dest }
{
    match left.said {
        Departure::Allowed {
            by,
            sealed,
            dest,
            ..
        } => {
            if exit_of(plan, left.behind.as_slice(), packet) == (Exit::Allowed { by, sealed }) {
                Some(dest)
            } else {
                None
            }
        }
        Departure::NoVm | Departure::Spoofed | Departure::Denied { .. } => None,
    }
}

// Whether the route leads to this network and host, by whatever name.
fn leads_to(said: Routed, net: u32, host: u32) -> bool
    ensures { IsTrue result ↔ behind.LeadsTo said net host }
{
    match said {
        Routed::To {
            net: to,
            host: at,
            ..
        } => to == net && at == host,
        Routed::Dropped { .. } | Routed::NoOwner { .. } => false,
    }
}

// The network that the Route writes, where its entries give it by the name that is written.
fn sent_into(plan: &Plan, led: &Led, packet: u32) -> Option<u32>
    ensures { (net : ℕ) → (result ≡ Some net) ↔ behind.SendsInto plan.now packet led.now net }
{
    match led.said {
        Passage::Send { by, net, host, .. } => {
            let said = routed_from(plan, led.behind.as_slice(), packet);
            if said == (Routed::To { by, net, host }) {
                Some(net)
            } else {
                None
            }
        }
        Passage::Dropped { .. } | Passage::NoOwner { .. } | Passage::Hops { .. } => None,
    }
}

// The network into which the one Route sends the packet.
fn sent_once(plan: &Plan, leds: &[Led], packet: u32) -> Option<u32>
    ensures { (net : ℕ) → (result ≡ Some net) ↔ behind.SentOnce plan.now packet leds.now net }
{
    match leds {
        [led] => sent_into(plan, led, packet),
        _ => None,
    }
}

// The network of an offload, where the route leads to its host.
fn offloaded(plan: &Plan, left: &Left, packet: u32, net: u32, host: u32) -> Option<u32>
    ensures { (to : ℕ) → (result ≡ Some to) ↔ ((net ≡ to) × behind.LeadsTo (behind.routed_from plan.now packet left.now.behind) net host) }
{
    if leads_to(routed_from(plan, left.behind.as_slice(), packet), net, host) {
        Some(net)
    } else {
        None
    }
}

// The network into which the Egress, and where it is to a gateway the one Route, lead the packet.
fn led_by(plan: &Plan, left: &Left, leds: &[Led], packet: u32) -> Option<u32>
    ensures { (net : ℕ) → (result ≡ Some net) ↔ behind.Leads plan.now packet left.now leds.now net }
{
    match allowed_to(plan, left, packet) {
        Some(Dest::Offload { host, net }) => offloaded(plan, left, packet, net, host),
        Some(Dest::Hover { .. }) => sent_once(plan, leds, packet),
        None => None,
    }
}

// The network into which the one Egress and the one Route lead the packet.
fn led_once(plan: &Plan, lefts: &[Left], leds: &[Led], packet: u32) -> Option<u32>
    ensures { (net : ℕ) → (result ≡ Some net) ↔ behind.LedOnce plan.now packet lefts.now leds.now net }
{
    match lefts {
        [left] => led_by(plan, left, leds, packet),
        _ => None,
    }
}

/// The network in which the packet arrives: into which its one Egress, and where that goes to a gateway its one Route, lead
/// it by the written names. The oldest event comes first.
pub fn led_to(
    alloc: Global,
    plan: &Plan,
    events: &[Event],
    packet: u32,
) -> Result<Option<u32>, NoMemory>
    ensures ok { IfOk result (λ found. (net : ℕ) → (found ≡ Some net) ↔ spec.LedTo plan.now (history events.now) packet net) }
{
    let lefts = egresses(alloc, plan, events, packet)?;
    let leds = routes(alloc, plan, events, packet)?;
    let led = led_once(plan, &lefts, &leds, packet);
    Ok(led)
}
