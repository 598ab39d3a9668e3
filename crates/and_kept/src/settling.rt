//! What becomes of a packet in hand.
ghost use Rattle.std.specs.Prelude.{◌≡◌};
ghost use Rattle.and_events.specs.declared.event.Queue.TheVariants.{Seal};
ghost use Rattle.and_events.specs.Flow.{carried_in};
ghost use Rattle.and_events.specs.Places as places;
ghost use Rattle.and_events.specs.Places.{IsNode, HasQueue};
ghost use Rattle.and_events.specs.State as states;
ghost use Rattle.and_kept.specs.Settling.{end_to, passage_of, return_of, LeadsRouted, LeadsLocated, LeadsGate, gate_event, gate_move, arrival_at, arrival_of, LeadsPort, LeadsLanding, departure_of, LeadsLeaving};
ghost use Rattle.and_kept.specs.Moves.{MayMove, hand_of, moved};

use crate::traffic::{Holder, Traffic};
use and_events::{Arrival, Departure, End, Endpoint, Event, Passage, Return, host_of, node_of};
use and_parcel::Parcel;
use and_policy::{Dest, GateDecision, Landing, Leaving, Located, Name, Port, Routed};
use and_ports::Ports;

// Passes a packet at a gateway on, or lets it go, as the routes say.
fn pass(traffic: &mut Traffic, from: Holder, parcel: Parcel, said: Routed) -> Passage
    requires may { MayMove traffic.old from parcel }
    requires leads { LeadsRouted traffic.old.settings said }
    ensures passage { result ≡ passage_of traffic.old.settings traffic.old.flow parcel.packet said }
    ensures moved { traffic.new ≡ moved traffic.old from parcel (states.passes traffic.old.settings (hand_of traffic.old from) parcel.packet result) }
{
    match said {
        Routed::Dropped { by } => {
            traffic.stop(from, parcel);
            Passage::Dropped { by }
        }
        Routed::NoOwner { by } => {
            traffic.stop(from, parcel);
            Passage::NoOwner { by }
        }
        Routed::To { by, net, host } => match traffic.send(
            from,
            parcel,
            net,
            Endpoint::Host(host),
        ) {
            End::Hops => Passage::Hops { by },
            End::Full => Passage::Send {
                by,
                net,
                host,
                end: End::Full,
            },
            End::Queued => Passage::Send {
                by,
                net,
                host,
                end: End::Queued,
            },
        },
    }
}

// Sends a packet on in the network in which it came.
fn send_on(traffic: &mut Traffic, from: Holder, parcel: Parcel, target: Endpoint) -> End
    requires may { MayMove traffic.old from parcel }
    requires target { IsNode traffic.old.settings (states.node_at target) }
    ensures end { result ≡ end_to traffic.old.settings traffic.old.flow parcel.packet target }
    ensures moved { traffic.new ≡ moved traffic.old from parcel (states.send traffic.old.settings (hand_of traffic.old from) parcel.packet result target (carried_in traffic.old.flow.carried parcel.packet).net) }
{
    let net = traffic.carried(parcel.packet()).net;
    traffic.send(from, parcel, net, target)
}

// Sends a packet at a gateway to its owner's host, or lets it go.
fn go_back(traffic: &mut Traffic, from: Holder, parcel: Parcel, said: Located) -> Return
    requires may { MayMove traffic.old from parcel }
    requires leads { LeadsLocated traffic.old.settings said }
    ensures back { result ≡ return_of traffic.old.settings traffic.old.flow parcel.packet said }
    ensures moved { traffic.new ≡ moved traffic.old from parcel (states.goes_back traffic.old.settings (carried_in traffic.old.flow.carried parcel.packet) (hand_of traffic.old from) parcel.packet result) }
{
    match said {
        Located::NoOwner => {
            traffic.stop(from, parcel);
            Return::NoOwner
        }
        Located::To { host } => match send_on(traffic, from, parcel, Endpoint::Host(host)) {
            End::Hops => Return::Hops,
            End::Full => Return::Send {
                host,
                end: End::Full,
            },
            End::Queued => Return::Send {
                host,
                end: End::Queued,
            },
        },
    }
}

/// What a gateway worker's decision does with the packet in its hand.
pub fn settle_gate(
    traffic: &mut Traffic,
    from: Holder,
    parcel: Parcel,
    decision: GateDecision,
) -> Event
    requires may { MayMove traffic.old from parcel }
    requires leads { LeadsGate traffic.old.settings decision }
    ensures event { result ≡ gate_event traffic.old.settings traffic.old.flow from.actor parcel.packet decision }
    ensures moved { traffic.new ≡ moved traffic.old from parcel (gate_move traffic.old.settings traffic.old.flow (hand_of traffic.old from) parcel.packet decision) }
{
    let actor = from.actor;
    let packet = parcel.packet();
    match decision {
        GateDecision::Routed { at, routed } => {
            let passage = pass(traffic, from, parcel, routed);
            Event::Route {
                actor,
                packet,
                at,
                passage,
            }
        }
        GateDecision::Located { at, located } => {
            let back = go_back(traffic, from, parcel, located);
            Event::Redirect {
                actor,
                packet,
                at,
                back,
            }
        }
    }
}

// What becomes of a packet at its owner's host or where the owner was thought to be, by the owner's port there.
fn arrive(
    traffic: &mut Traffic,
    port: Port,
    from: Holder,
    parcel: Parcel,
    vm: u32,
    by: Name,
    pass: bool,
) -> Arrival
    requires may { MayMove traffic.old from parcel }
    requires leads { LeadsPort traffic.old.settings port }
    ensures arrival { result ≡ arrival_at traffic.old.settings traffic.old.flow from.tuple parcel.packet vm by pass port }
    ensures moved { traffic.new ≡ moved traffic.old from parcel (states.arrives traffic.old.settings (carried_in traffic.old.flow.carried parcel.packet) (hand_of traffic.old from) parcel.packet result) }
{
    match port {
        Port::Running => {
            traffic.stop(from, parcel);
            Arrival::Running { vm, by, pass }
        }
        Port::Paused => {
            traffic.stop(from, parcel);
            Arrival::Blackout { vm }
        }
        Port::Arriving => {
            traffic.stop(from, parcel);
            Arrival::Blackout { vm }
        }
        Port::Hairpin { host, .. } => {
            let end = send_on(traffic, from, parcel, Endpoint::Host(host));
            Arrival::Hairpin { vm, host, end }
        }
        Port::Absent => {
            let gateway = traffic.gateway(&from.tuple);
            let end = send_on(traffic, from, parcel, Endpoint::Redirect(gateway));
            Arrival::Absent { vm, gateway, end }
        }
    }
}

/// What a host worker's decision does with the packet in its hand that has come for a VM.
pub fn settle_landing(
    traffic: &mut Traffic,
    ports: &Ports,
    from: Holder,
    parcel: Parcel,
    said: Landing,
) -> Arrival
    requires may { MayMove traffic.old from parcel }
    requires leads { LeadsLanding traffic.old.settings ports.now (states.host_of (places.node_of from.actor)) said }
    ensures arrival { result ≡ arrival_of traffic.old.settings traffic.old.flow ports.now (states.host_of (places.node_of from.actor)) from.tuple parcel.packet said }
    ensures moved { traffic.new ≡ moved traffic.old from parcel (states.arrives traffic.old.settings (carried_in traffic.old.flow.carried parcel.packet) (hand_of traffic.old from) parcel.packet result) }
{
    match said {
        Landing::NoOwner => {
            traffic.stop(from, parcel);
            Arrival::NoOwner
        }
        Landing::Owned { vm, by, pass } => {
            let port = ports.state(host_of(node_of(from.actor)), vm);
            arrive(traffic, port, from, parcel, vm, by, pass)
        }
    }
}

// Gives a packet that may leave its VM to be sealed at its host, or sends it.
fn depart(
    traffic: &mut Traffic,
    from: Holder,
    own: u32,
    parcel: Parcel,
    by: Name,
    sealed: bool,
    dest: Dest,
) -> Departure
    requires may { MayMove traffic.old from parcel }
    requires seals { HasQueue (places.node_of from.actor) Seal }
    requires leads { LeadsLeaving traffic.old.settings own (Leaving.Allowed by sealed dest) }
    ensures departure { result ≡ departure_of traffic.old.settings traffic.old.flow (places.node_of from.actor) parcel.packet (Leaving.Allowed by sealed dest) }
    ensures moved { traffic.new ≡ moved traffic.old from parcel (states.departs traffic.old.settings own (hand_of traffic.old from) parcel.packet (places.node_of from.actor) result) }
{
    let (target, net) = match dest {
        Dest::Offload { host, net } => (Endpoint::Host(host), net),
        Dest::Hover { gateway } => (Endpoint::Route(gateway), own),
    };
    let end = if sealed {
        traffic.seal(from, parcel, net, target)
    } else {
        traffic.send(from, parcel, net, target)
    };
    Departure::Allowed {
        by,
        sealed,
        dest,
        end,
    }
}

/// What a host worker's decision does with the packet in its hand that leaves a VM of this network.
pub fn settle_leaving(
    traffic: &mut Traffic,
    from: Holder,
    own: u32,
    parcel: Parcel,
    said: Leaving,
) -> Departure
    requires may { MayMove traffic.old from parcel }
    requires seals { HasQueue (places.node_of from.actor) Seal }
    requires leads { LeadsLeaving traffic.old.settings own said }
    ensures departure { result ≡ departure_of traffic.old.settings traffic.old.flow (places.node_of from.actor) parcel.packet said }
    ensures moved { traffic.new ≡ moved traffic.old from parcel (states.departs traffic.old.settings own (hand_of traffic.old from) parcel.packet (places.node_of from.actor) result) }
{
    match said {
        Leaving::NoVm => {
            traffic.stop(from, parcel);
            Departure::NoVm
        }
        Leaving::Spoofed => {
            traffic.stop(from, parcel);
            Departure::Spoofed
        }
        Leaving::Denied { number } => {
            traffic.stop(from, parcel);
            Departure::Denied { number }
        }
        Leaving::Allowed { by, sealed, dest } => {
            depart(traffic, from, own, parcel, by, sealed, dest)
        }
    }
}
