//! The fate that an event is.
ghost use Rattle.std.specs.Prelude.{◌≡◌};
ghost use Rattle.and_policy.specs.Egress as rules;
ghost use Rattle.and_report.specs.Fates as spec;
ghost use Rattle.and_report.specs.Nets.{AreVmNets, fate_under};

use crate::carried::net_at;
use crate::fate::Fate;
use crate::vm_nets::own_net;
use and_events::{Arrival, Departure, End, Event, Passage, Plan, Return};
use and_policy::{Name, Placements};

fn end_fate(end: End) -> Option<Fate>
    ensures { result ≡ spec.end_fate end }
{
    match end {
        End::Queued => None,
        End::Full => Some(Fate::AtFullQueue),
        End::Hops => Some(Fate::OutOfHops),
    }
}

fn inject_fate(full: bool) -> Option<Fate>
    ensures { result ≡ spec.inject_fate full }
{
    if full { Some(Fate::AtFullQueue) } else { None }
}

// The number of a rule or a route; 0 where none matched.
fn number_of(name: Name) -> u32
    ensures { result ≡ rules.number_of name }
{
    match name {
        Name::Implied => 0,
        Name::Rule(number) => number,
    }
}

fn departure_fate(net: u32, departure: Departure) -> Option<Fate>
    ensures { result ≡ spec.departure_fate net departure }
{
    match departure {
        Departure::NoVm => Some(Fate::NoVm),
        Departure::Spoofed => Some(Fate::Spoofed),
        Departure::Denied { number } => Some(Fate::EgressDenied { net, number }),
        Departure::Allowed { end, .. } => end_fate(end),
    }
}

fn passage_fate(net: u32, passage: Passage) -> Option<Fate>
    ensures { result ≡ spec.passage_fate net passage }
{
    match passage {
        Passage::Dropped { by } => Some(Fate::RouteDropped {
            net,
            number: number_of(by),
        }),
        Passage::NoOwner { .. } => Some(Fate::NoOwner),
        Passage::Send { end, .. } => end_fate(end),
        Passage::Hops { .. } => Some(Fate::OutOfHops),
    }
}

fn return_fate(back: Return) -> Option<Fate>
    ensures { result ≡ spec.return_fate back }
{
    match back {
        Return::NoOwner => Some(Fate::NoOwner),
        Return::Send { end, .. } => end_fate(end),
        Return::Hops => Some(Fate::OutOfHops),
    }
}

fn running_fate(net: u32, vm: u32, number: u32, pass: bool) -> Fate
    ensures { result ≡ spec.running_fate net vm number pass }
{
    if pass {
        Fate::Delivered { vm }
    } else {
        Fate::IngressDenied { net, number }
    }
}

fn arrival_fate(net: u32, arrival: Arrival) -> Option<Fate>
    ensures { result ≡ spec.arrival_fate net arrival }
{
    match arrival {
        Arrival::NoOwner => Some(Fate::NoOwner),
        Arrival::Running { vm, by, pass } => Some(running_fate(net, vm, number_of(by), pass)),
        Arrival::Blackout { .. } => Some(Fate::InBlackout),
        Arrival::Hairpin { end, .. } => end_fate(end),
        Arrival::Absent { end, .. } => end_fate(end),
    }
}

/// The fate that the event is, where packets carry these networks; none where the packet goes on or the event is
/// of no packet.
pub(crate) fn fate_under(
    plan: &Plan,
    vm_nets: &Placements,
    nets: &[u32],
    event: &Event,
) -> Option<Fate>
    requires { AreVmNets plan.now vm_nets.now }
    ensures { result ≡ fate_under plan.now nets.now event.now }
{
    match *event {
        Event::Inject { full, .. } => inject_fate(full),
        Event::Egress {
            packet,
            departure,
            ..
        } => departure_fate(own_net(plan, vm_nets, packet), departure),
        Event::Sealed { end, .. } => end_fate(end),
        Event::Route {
            packet,
            passage,
            ..
        } => passage_fate(net_at(nets, packet), passage),
        Event::Redirect { back, .. } => return_fate(back),
        Event::Ingress {
            packet,
            arrival,
            ..
        } => arrival_fate(net_at(nets, packet), arrival),
        _ => None,
    }
}
