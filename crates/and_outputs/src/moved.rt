//! What an event does with a packet, and what is known of each packet after it.
ghost use Rattle.std.specs.Prelude.{◌≡◌, ℕ, slice_set, IfOk};
ghost use Rattle.and_events.specs.declared.event.Carried.{Carried};
ghost use Rattle.and_events.specs.declared.event.Node.{Node};
ghost use Rattle.and_events.specs.declared.plan.Plan as plans;
ghost use Rattle.and_events.specs.declared.plan.Settings.{Settings};
ghost use Rattle.and_events.specs.Flow as flows;
ghost use Rattle.and_events.specs.Places as places;
ghost use Rattle.and_events.specs.State as states;
ghost use Rattle.and_events.specs.State.{State};
ghost use Rattle.and_policy.specs.Placements.{ArePlacements};
ghost use Rattle.and_outputs.specs.Moves as spec;

use and_events::{
    Arrival, Carried, Departure, End, Endpoint, Event, Node, Passage, Plan, Return, node_of,
};
use and_policy::{Dest, NoMemory, Placements};
use std::alloc::Global;

/// A packet on its way: with which network as VNI, and where it goes.
#[derive(Clone, Copy)]
pub(crate) struct Trip {
    pub(crate) packet: u32,
    pub(crate) net: u32,
    pub(crate) target: Endpoint,
}

/// What an event does with a packet.
#[derive(Clone, Copy)]
pub(crate) enum Moved {
    /// No packet goes anywhere.
    Not,
    /// A packet waits to be sealed, and goes then.
    Waits(Trip),
    /// A packet enters the underlay.
    Sent(Trip),
}

/// What is known of packets that were not sent yet.
#[tactic(auto, unfolding(and_events::specs::State::start))]
pub(crate) fn unsent(alloc: Global, plan: &Plan) -> Result<Vec<Carried>, NoMemory>
    ensures { IfOk result (λ carried. carried.items ≡ (states.start plan.now).flow.carried) }
{
    let new = Carried {
        hops: plan.settings.hop_limit,
        sealed: false,
        net: 0,
        target: Endpoint::Host(0),
    };
    vec![in alloc; new; plan.packets.len()].map_err(|_| NoMemory)
}

/// What is known of the packet; one that is not there has no hops.
pub(crate) fn carried_at(carried: &[Carried], packet: u32) -> Carried
    ensures { result ≡ flows.carried_in carried.now packet }
{
    match carried.get(packet as usize) {
        Some(carried) => *carried,
        None => Carried {
            hops: 0,
            sealed: false,
            net: 0,
            target: Endpoint::Host(0),
        },
    }
}

/// The node whose event it is.
pub(crate) fn sender(event: &Event) -> Node
    ensures { result ≡ places.node_of (places.actor_of event.now) }
{
    match *event {
        Event::Announce { node, .. } | Event::Installed { node, .. } => node,
        Event::Take { actor, .. }
        | Event::Egress { actor, .. }
        | Event::Sealed { actor, .. }
        | Event::Route { actor, .. }
        | Event::Redirect { actor, .. }
        | Event::Ingress { actor, .. } => node_of(actor),
        _ => Node::Host(0),
    }
}

fn dest_endpoint(dest: Dest) -> Endpoint
    ensures { result ≡ states.dest_endpoint dest }
{
    match dest {
        Dest::Offload { host, .. } => Endpoint::Host(host),
        Dest::Hover { gateway } => Endpoint::Route(gateway),
    }
}

fn dest_net(own: u32, dest: Dest) -> u32
    ensures { result ≡ states.dest_net own dest }
{
    match dest {
        Dest::Offload { net, .. } => net,
        Dest::Hover { .. } => own,
    }
}

// A try at a `wire` queue: what is lost there is not sent.
fn sends(trip: Trip, end: End) -> Moved
    ensures { (s : Settings) (a : ℕ) → result ≡ spec.moved_by (states.send s a trip.packet end trip.target trip.net) }
{
    match end {
        End::Queued => Moved::Sent(trip),
        End::Hops | End::Full => Moved::Not,
    }
}

// A try at a `seal` queue.
fn waits(trip: Trip, end: End) -> Moved
    ensures { (a q : ℕ) → result ≡ spec.moved_by (flows.seal_by a q trip.packet end trip.net trip.target) }
{
    match end {
        End::Queued => Moved::Waits(trip),
        End::Full | End::Hops => Moved::Not,
    }
}

fn departs(own: u32, packet: u32, departure: Departure) -> Moved
    ensures { (s : Settings) (a : ℕ) (here : Node) → result ≡ spec.moved_by (states.departs s own a packet here departure) }
{
    match departure {
        Departure::Allowed {
            sealed,
            dest,
            end,
            ..
        } => {
            let trip = Trip {
                packet,
                net: dest_net(own, dest),
                target: dest_endpoint(dest),
            };
            if sealed {
                waits(trip, end)
            } else {
                sends(trip, end)
            }
        }
        Departure::NoVm | Departure::Spoofed | Departure::Denied { .. } => Moved::Not,
    }
}

fn passes(packet: u32, passage: Passage) -> Moved
    ensures { (s : Settings) (a : ℕ) → result ≡ spec.moved_by (states.passes s a packet passage) }
{
    match passage {
        Passage::Send { net, host, end, .. } => sends(
            Trip {
                packet,
                net,
                target: Endpoint::Host(host),
            },
            end,
        ),
        Passage::Dropped { .. } | Passage::NoOwner { .. } | Passage::Hops { .. } => Moved::Not,
    }
}

fn goes_back(net: u32, packet: u32, back: Return) -> Moved
    ensures { (s : Settings) (c : Carried) (a : ℕ) → c.net ≡ net → result ≡ spec.moved_by (states.goes_back s c a packet back) }
{
    match back {
        Return::Send { host, end } => sends(
            Trip {
                packet,
                net,
                target: Endpoint::Host(host),
            },
            end,
        ),
        Return::NoOwner | Return::Hops => Moved::Not,
    }
}

fn arrives(net: u32, packet: u32, arrival: Arrival) -> Moved
    ensures { (s : Settings) (c : Carried) (a : ℕ) → c.net ≡ net → result ≡ spec.moved_by (states.arrives s c a packet arrival) }
{
    match arrival {
        Arrival::Hairpin { host, end, .. } => sends(
            Trip {
                packet,
                net,
                target: Endpoint::Host(host),
            },
            end,
        ),
        Arrival::Absent { gateway, end, .. } => sends(
            Trip {
                packet,
                net,
                target: Endpoint::Redirect(gateway),
            },
            end,
        ),
        Arrival::NoOwner | Arrival::Running { .. } | Arrival::Blackout { .. } => Moved::Not,
    }
}

// The network of the packet's source VM.
fn own_net(plan: &Plan, places: &Placements, packet: u32) -> u32
    requires { ArePlacements places.now plan.now.log }
    ensures { result ≡ states.source_net plan.now packet }
{
    let vm = match plan.packets.as_slice().get(packet as usize) {
        Some(packet) => packet.vm,
        None => 0,
    };
    places.net(vm).unwrap_or(0)
}

/// What an event does with a packet, where this is known of the packets just before it.
#[tactic(auto, unfolding(and_events::specs::State::move_of))]
pub(crate) fn moved_by(
    plan: &Plan,
    places: &Placements,
    carried: &[Carried],
    event: &Event,
) -> Moved
    requires { ArePlacements places.now plan.now.log }
    ensures { (s : State) → s.flow.carried ≡ carried.now → result ≡ spec.moved_by (states.move_of plan.now s event.now) }
{
    match *event {
        Event::Egress {
            packet,
            departure,
            ..
        } => departs(own_net(plan, places, packet), packet, departure),
        Event::Sealed { packet, end, .. } => {
            let Carried { net, target, .. } = carried_at(carried, packet);
            sends(
                Trip {
                    packet,
                    net,
                    target,
                },
                end,
            )
        }
        Event::Route {
            packet,
            passage,
            ..
        } => passes(packet, passage),
        Event::Redirect { packet, back, .. } => {
            goes_back(carried_at(carried, packet).net, packet, back)
        }
        Event::Ingress {
            packet,
            arrival,
            ..
        } => arrives(carried_at(carried, packet).net, packet, arrival),
        _ => Moved::Not,
    }
}

/// The packet that enters the underlay by an event, whatever is known of the packets.
#[tactic(auto, unfolding(and_events::specs::State::move_of))]
pub(crate) fn sent_packet(event: &Event) -> Option<u32>
    ensures { (plan : plans.Plan) (s : State) → result ≡ spec.sent_packet (spec.moved_by (states.move_of plan s event.now)) }
{
    match *event {
        Event::Egress {
            packet,
            departure: Departure::Allowed {
                sealed: false,
                end: End::Queued,
                ..
            },
            ..
        }
        | Event::Sealed {
            packet,
            end: End::Queued,
            ..
        }
        | Event::Route {
            packet,
            passage: Passage::Send {
                end: End::Queued,
                ..
            },
            ..
        }
        | Event::Redirect {
            packet,
            back: Return::Send {
                end: End::Queued,
                ..
            },
            ..
        }
        | Event::Ingress {
            packet,
            arrival: Arrival::Hairpin {
                end: End::Queued,
                ..
            }
            | Arrival::Absent {
                end: End::Queued,
                ..
            },
            ..
        } => Some(packet),
        _ => None,
    }
}

/// Notes what an event did with a packet: after a send it has one hop less.
pub(crate) fn note(carried: &mut Vec<Carried>, moved: Moved)
    ensures { carried.new.items ≡ spec.noted carried.old.items moved }
{
    match moved {
        Moved::Not => {}
        Moved::Waits(trip) => note_waiting(carried, trip),
        Moved::Sent(trip) => note_sent(carried, trip),
    }
}

fn note_sent(carried: &mut Vec<Carried>, trip: Trip)
    ensures { carried.new.items ≡ spec.noted_sent carried.old.items trip }
{
    let before = carried_at(carried, trip.packet);
    set_carried(
        carried,
        trip.packet,
        Carried {
            hops: before.hops.saturating_sub(1),
            sealed: before.sealed,
            net: trip.net,
            target: trip.target,
        },
    );
}

fn note_waiting(carried: &mut Vec<Carried>, trip: Trip)
    ensures { carried.new.items ≡ spec.noted_waiting carried.old.items trip }
{
    let before = carried_at(carried, trip.packet);
    set_carried(
        carried,
        trip.packet,
        Carried {
            hops: before.hops,
            sealed: true,
            net: trip.net,
            target: trip.target,
        },
    );
}

// Sets what is known of the packet, where there is such a packet.
#[tactic(auto, using(std::proofs::lemmas::List::set_past))]
fn set_carried(carried: &mut Vec<Carried>, packet: u32, new: Carried)
    ensures { carried.new.items ≡ slice_set carried.old.items packet new }
{
    let at = packet as usize;
    if at < carried.len() {
        carried[at] = new;
    }
}
