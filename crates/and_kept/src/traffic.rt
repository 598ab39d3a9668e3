//! Packets on their way.
ghost use Rattle.std.specs.Prelude.{◌≡◌, ◌<◌, ◌↔◌, ◌^◌, [], length, true, false, IsTrue, IfOk, None, Some, replicate, slice_get, slice_set};
ghost use Rattle.std.specs.List.{All};
ghost use Rattle.and_events.specs.Flow.{Stop, carried_in, flow_after, hand_at, queue_at, seal_by, sent, to_be_sealed};
ghost use Rattle.and_events.specs.declared.event.Queue.TheVariants.{Seal};
ghost use Rattle.and_events.specs.Places as places;
ghost use Rattle.and_events.specs.Places.{node_count, queue_count, hand_count, IsActor, IsNode, Handles, HasQueue};
ghost use Rattle.and_events.specs.State as states;
ghost use Rattle.and_kept.specs.Settling.{end_to};
ghost use Rattle.and_events.specs.Places.{IsSmall};
ghost use Rattle.and_policy.specs.FlowHash.{gateway_of};
ghost use Rattle.and_kept.specs.Busy.{is_busy};
ghost use Rattle.and_kept.specs.Lanes.{CarriedFits, parcels_at, unsent};
ghost use Rattle.and_kept.specs.Numbers.{count_below};
ghost use Rattle.and_kept.specs.Moves.{IsBusy, MayMove, end_here, entered, finds_full_at, hand_of, moved, seal_of, source_in, source_place, taken};

use crate::hall::Hall;
use crate::outers::wrap_to;
use and_events::{
    Actor, Carried, End, Endpoint, Held, Node, Queue, Settings, hand_place, node_at, node_of,
    node_place, queue_place,
};
use and_parcel::Parcel;
use and_policy::{NoMemory, Tuple, flow_hash};
use std::alloc::Global;
use std::marker::Model;

/// Who has a packet in hand, and the packet's tuple.
#[derive(Clone, Copy)]
pub struct Holder {
    pub actor: Actor,
    pub tuple: Tuple,
}

/// The packets of a run: the queues of parcels, what each actor has in hand, and what is known of each packet.
///
/// Contracts see it as the definition's component, beside its settings and the parcels in the queues. Its type says that
/// each queue and each hand has its place and each queue its capacity, so no call asks for that. A parcel that an actor
/// takes is the actor's until it is sent on or let go.
#[derive(Drop)]
pub struct Traffic {
    hall: Hall,
    carried: Vec<Carried>,
}

impl Model for Traffic {
    ghost use Rattle.and_kept.specs.Lanes.{Roads, IsShaped};

    ghost Value = { Roads };

    ghost view = { λ t. record {
      settings = t.hall.settings;
      flow = record { queues = t.hall.queues; hands = t.hall.hands; carried = t.carried.items };
      parcels = t.hall.parcels;
      held = t.hall.held;
    } };

    ghost invariant = { λ t. IsShaped t.hall.settings t.carried.items };
}

#[tactic(auto, unfolding(and_events::specs::Flow::flow_after))]
impl Traffic {
    /// Empty queues and hands, and so many packets that were not sent. All memory is taken here.
    pub fn make(alloc: Global, settings: Settings, packets: usize) -> Result<Traffic, NoMemory>
        requires small { IsSmall settings }
        requires gateways { 0 < settings.gateways }
        requires hops { settings.hop_limit < 2 ^ 8 }
        ensures { IfOk result (λ t. t ≡ record {
          settings = settings;
          flow = record {
            queues = replicate (queue_count settings) [];
            hands = replicate (hand_count settings) None;
            carried = replicate packets (unsent settings);
          };
          parcels = replicate (queue_count settings) [];
          held = replicate (node_count settings) false;
        }) }
    {
        let hall = Hall::make(alloc, settings)?;
        let new = Carried {
            hops: settings.hop_limit,
            sealed: false,
            net: 0,
            target: Endpoint::Host(0),
        };
        match vec![in alloc; new; packets] {
            Ok(carried) => Ok(Traffic { hall, carried }),
            Err(_) => Err(NoMemory),
        }
    }

    /// The settings.
    pub fn settings(&self) -> Settings
        ensures is { result ≡ self.now.settings }
        ensures small { IsSmall result }
    {
        self.hall.settings()
    }

    /// Whether the queue is empty.
    pub fn is_empty(&self, node: Node, queue: Queue) -> bool
        requires node { IsNode self.now.settings node }
        requires there { HasQueue node queue }
        ensures { IsTrue result ↔ (queue_at self.now.flow.queues (places.queue_place self.now.settings node queue) ≡ []) }
    {
        self.hall
            .is_empty(queue_place(self.hall.settings(), node, queue))
    }

    /// Whether all queues are empty.
    pub fn all_empty(&self) -> bool
        ensures { IsTrue result ↔ All (λ q. q ≡ []) self.now.flow.queues }
    {
        self.hall.all_empty()
    }

    /// Whether no actor has a packet in hand.
    pub fn all_free(&self) -> bool
        ensures { IsTrue result ↔ All (λ h. h ≡ None) self.now.flow.hands }
    {
        self.hall.all_free()
    }

    /// What is in the actor's hand.
    pub fn hand(&self, actor: Actor) -> Option<Held>
        requires actor { IsActor self.now.settings actor }
        requires handles { Handles actor }
        ensures { result ≡ hand_at self.now.flow.hands (places.hand_place self.now.settings actor) }
    {
        self.hall.hand(hand_place(self.hall.settings(), actor))
    }

    /// The queue from which the actor takes next.
    pub fn source(&self, actor: Actor) -> Queue
        requires actor { IsActor self.now.settings actor }
        requires handles { Handles actor }
        ensures is { result ≡ source_in self.now.settings self.now.flow actor }
        ensures there { HasQueue (places.node_of actor) result }
    {
        match actor {
            Actor::Worker { host, .. } => {
                if self.is_empty(Node::Host(host), Queue::Wire) {
                    Queue::Out
                } else {
                    Queue::Wire
                }
            }
            Actor::Coproc(_) => Queue::Seal,
            _ => Queue::Wire,
        }
    }

    /// Whether the actor has a packet in hand, or finds one in its queue where forwarding is not held at its node.
    #[tactic(auto, using(crate::proofs::BusyActors::busy_is))]
    pub fn is_busy(&self, actor: Actor) -> bool
        requires actor { IsActor self.now.settings actor }
        requires handles { Handles actor }
        ensures { IsTrue result ↔ IsBusy self.now.settings self.now.flow self.now.held actor }
    {
        self.hall
            .is_busy(hand_place(self.hall.settings(), actor) as u32)
    }

    /// How many hands have work.
    pub fn busy_count(&self) -> u32
        ensures is { result ≡ count_below (is_busy self.now.settings self.now.flow.queues self.now.flow.hands self.now.held) (hand_count self.now.settings) }
        ensures small { result < 2 ^ 16 }
    {
        self.hall.busy_count()
    }

    /// The place of the hand that has work, before which `k` hands have.
    pub fn nth_busy(&self, k: u32) -> u32
        requires { k < count_below (is_busy self.now.settings self.now.flow.queues self.now.flow.hands self.now.held) (hand_count self.now.settings) }
        ensures there { result < hand_count self.now.settings }
        ensures busy { is_busy self.now.settings self.now.flow.queues self.now.flow.hands self.now.held result ≡ true }
        ensures rank { count_below (is_busy self.now.settings self.now.flow.queues self.now.flow.hands self.now.held) result ≡ k }
    {
        self.hall.nth_busy(k)
    }

    /// Forwarding is held at the node, or is not.
    pub fn hold(&mut self, node: Node, on: bool)
        requires { IsNode self.old.settings node }
        ensures { self.new ≡ record self.old { held = slice_set self.old.held (places.node_place self.old.settings node) on } }
    {
        self.hall.hold(node_place(self.hall.settings(), node), on);
    }

    /// The gateway of a flow.
    pub fn gateway(&self, tuple: &Tuple) -> u32
        ensures is { result ≡ gateway_of self.now.settings.gateways tuple.now }
        ensures there { result < self.now.settings.gateways }
    {
        u32::from(flow_hash(tuple)) % self.hall.settings().gateways
    }

    /// What is known of the packet.
    pub fn carried(&self, packet: u32) -> Carried
        requires { packet < length self.now.flow.carried }
        ensures is { result ≡ carried_in self.now.flow.carried packet }
        ensures fits { CarriedFits result }
    {
        self.carried[packet as usize]
    }

    /// A parcel comes into the host's `out` queue, or is lost where that queue is full. Says whether it is lost.
    pub fn enter(&mut self, host: u32, parcel: Parcel) -> bool
        requires { host < self.old.settings.hosts }
        ensures full { result ≡ finds_full_at self.old host }
        ensures entered { self.new ≡ entered self.old host parcel result }
    {
        let queue = queue_place(self.hall.settings(), Node::Host(host), Queue::Out);
        self.hall.enter(queue, parcel)
    }

    /// The actor takes the first parcel of its queue.
    pub fn take(&mut self, actor: Actor, need: u32) -> (Held, Parcel)
        requires actor { IsActor self.old.settings actor }
        requires handles { Handles actor }
        requires some { 0 < length (queue_at self.old.flow.queues (source_place self.old actor)) }
        ensures held { result.0 ≡ record { packet = result.1.packet; need = need; queue = source_in self.old.settings self.old.flow actor } }
        ensures front { slice_get (queue_at self.old.flow.queues (source_place self.old actor)) 0 ≡ Some result.1.packet }
        ensures parcel { slice_get (parcels_at self.old.parcels (source_place self.old actor)) 0 ≡ Some result.1 }
        ensures taken { self.new ≡ taken self.old actor result.0 }
    {
        let settings = self.hall.settings();
        let queue = self.source(actor);
        let from = queue_place(settings, node_of(actor), queue);
        self.hall
            .take(hand_place(settings, actor), from, need, queue)
    }

    /// The holder lets its packet go.
    pub fn stop(&mut self, from: Holder, parcel: Parcel)
        requires may { MayMove self.old from parcel }
        ensures { self.new ≡ moved self.old from parcel (Stop (hand_of self.old from) parcel.packet) }
    {
        self.hall
            .clear(hand_place(self.hall.settings(), from.actor));
    }

    /// The host's holder gives its parcel to be sealed there and sent then, or it is lost where that queue is full.
    pub fn seal(&mut self, from: Holder, parcel: Parcel, net: u32, target: Endpoint) -> End
        requires may { MayMove self.old from parcel }
        requires host { HasQueue (places.node_of from.actor) Seal }
        requires net { net < 2 ^ 24 }
        ensures end { result ≡ end_here self.old from }
        ensures moved { self.new ≡ moved self.old from parcel (seal_by (hand_of self.old from) (seal_of self.old from) parcel.packet result net target) }
    {
        let settings = self.hall.settings();
        let packet = parcel.packet();
        self.hall.clear(hand_place(settings, from.actor));
        let queue = queue_place(settings, node_of(from.actor), Queue::Seal);
        if self.hall.enter(queue, parcel) {
            return End::Full;
        }
        note_seal(&mut self.carried, packet as usize, net, target);
        End::Queued
    }

    /// The holder sends its parcel to an endpoint, with the outer headers of this send, or it is lost: where no hop is
    /// left, or else where the queue there is full.
    pub fn send(&mut self, from: Holder, parcel: Parcel, net: u32, target: Endpoint) -> End
        requires may { MayMove self.old from parcel }
        requires net { net < 2 ^ 24 }
        requires target { IsNode self.old.settings (states.node_at target) }
        ensures end { result ≡ end_to self.old.settings self.old.flow parcel.packet target }
        ensures moved { self.new ≡ moved self.old from parcel (states.send self.old.settings (hand_of self.old from) parcel.packet result target net) }
    {
        let mut parcel = parcel;
        let settings = self.hall.settings();
        let packet = parcel.packet();
        let carried = self.carried(packet);
        wrap_to(
            node_of(from.actor),
            &from.tuple,
            carried,
            &mut parcel,
            net,
            target,
        );
        self.hall.clear(hand_place(settings, from.actor));
        if carried.hops == 0 {
            return End::Hops;
        }
        let queue = queue_place(settings, node_at(target), Queue::Wire);
        if self.hall.enter(queue, parcel) {
            return End::Full;
        }
        note_send(&mut self.carried, packet as usize, net, target);
        End::Queued
    }
}

// The packet is sent: it has one hop less.
fn note_send(carried: &mut Vec<Carried>, packet: usize, net: u32, target: Endpoint)
    requires packet { packet < length carried.old.items }
    requires hops { 0 < (carried_in carried.old.items packet).hops }
    ensures { carried.new.items ≡ slice_set carried.old.items packet (sent (carried_in carried.old.items packet) net target) }
{
    let entry = &mut carried[packet];
    entry.hops -= 1;
    entry.net = net;
    entry.target = target;
}

// The packet waits to be sealed.
fn note_seal(carried: &mut Vec<Carried>, packet: usize, net: u32, target: Endpoint)
    requires { packet < length carried.old.items }
    ensures { carried.new.items ≡ slice_set carried.old.items packet (to_be_sealed (carried_in carried.old.items packet) net target) }
{
    let entry = &mut carried[packet];
    entry.sealed = true;
    entry.net = net;
    entry.target = target;
}
