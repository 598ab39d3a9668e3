//! What actors do with packets.
ghost use Rattle.std.specs.Prelude.{◌≡◌, ◌+◌, ◌^◌, ◌<◌, ◌≤◌, length, slice_index_or};
ghost use Rattle.and_events.specs.Places as places;
ghost use Rattle.and_events.specs.Run.{past};
ghost use Rattle.and_events.specs.State.{installed_of, no_packet};
ghost use Rattle.and_events.specs.Usage.{usage_after};
ghost use Rattle.and_kept.specs.Moves.{source_in};
ghost use Rattle.and_kept.specs.Settling.{gate_event};
ghost use Rattle.and_usage.specs.Counting.{bytes_of};
ghost use Rattle.and_book.specs.Outers.{IsSentBy};
ghost use Rattle.and_book.specs.Settling.{MaySettleGateway, MaySettleIngress, ingress_event, IsLanding, MaySettleEgress, egress_event, IsLeaving, MaySeal, sealed_event, use_of};
ghost use Rattle.and_book.specs.Views.{now, held, IsSeat, with_line, MayTake, IsPacket};

use crate::book::{Book, note};
use and_events::{
    Actor, Departure, Event, Held, Items, Packet, Queue, host_of, node_of, node_place,
};
use and_kept::{Holder, settle_gate, settle_landing, settle_leaving};
use and_parcel::Parcel;
use and_policy::{Decision, GateDecision, Landing, Leaving, Outcome, UsageKey};
use and_review::Reviews;

impl Book {
    /// The actor takes the first packet of its queue: a host worker from `out` only where `wire` is empty. The parcel is the
    /// actor's until it settles the packet. From `wire` it has the outer bytes of the send that put it there, the packet's
    /// newest one in the underlay. It needs room for two events beside those that settle the packets in hand: its own, and the one that settles
    /// this packet.
    pub fn take(&mut self, seat: u32, actor: Actor) -> (Held, Parcel)
        requires seat { IsSeat self.old seat actor }
        requires ready { MayTake self.old.plan (now self.old) actor }
        requires room { held self.old + 2 ≤ self.old.spare }
        ensures line { self.new ≡ with_line self.old seat (Event.Take actor result.0.queue result.0.packet) }
        ensures held { result.0 ≡ record {
          packet = result.1.packet;
          need = installed_of self.old.plan (now self.old) (places.node_of actor);
          queue = source_in self.old.plan.settings (now self.old).flow actor;
        } }
        ensures parcel { IsPacket self.old.plan result.1 }
        ensures wire { result.0.queue ≡ Queue.Wire → IsSentBy self.old.plan (past self.old.lines) result.1 }
    {
        let place = node_place(self.plan.settings, node_of(actor));
        let need = self.progress.installed(place);
        let (held, parcel) = self.traffic.take(actor, need);
        note(
            &mut self.lines,
            &mut self.prepared,
            seat,
            Event::Take {
                actor,
                queue: held.queue,
                packet: held.packet,
            },
        );
        (held, parcel)
    }

    /// The gateway worker settles the packet in its hand by a decision of the policy.
    pub fn settle_gateway(
        &mut self,
        seat: u32,
        actor: Actor,
        parcel: Parcel,
        decision: GateDecision,
    )
        requires seat { IsSeat self.old seat actor }
        requires ready { MaySettleGateway self.old.plan (now self.old) actor parcel.packet decision }
        requires parcel { IsPacket self.old.plan parcel }
        ensures { self.new ≡ with_line self.old seat (gate_event self.old.plan.settings (now self.old).flow actor parcel.packet decision) }
    {
        let from = holder(&self.plan.packets, actor, parcel.packet());
        let event = settle_gate(&mut self.traffic, from, parcel, decision);
        note(&mut self.lines, &mut self.prepared, seat, event);
    }

    /// The coprocessor sends the packet in its hand on the way that was decided when it left its VM. From this send on its outer
    /// packets have their UDP checksum.
    pub fn sealed(&mut self, seat: u32, actor: Actor, parcel: Parcel)
        requires seat { IsSeat self.old seat actor }
        requires ready { MaySeal self.old.plan (now self.old) actor parcel.packet }
        requires parcel { IsPacket self.old.plan parcel }
        ensures { self.new ≡ with_line self.old seat (sealed_event self.old.plan.settings (now self.old).flow actor parcel.packet) }
    {
        let packet = parcel.packet();
        let from = holder(&self.plan.packets, actor, packet);
        let way = self.traffic.carried(packet);
        let end = self.traffic.send(from, parcel, way.net, way.target);
        note(
            &mut self.lines,
            &mut self.prepared,
            seat,
            Event::Sealed { actor, packet, end },
        );
    }

    /// The host worker settles the packet in its hand that has come for a VM, by a decision of the policy.
    pub fn settle_ingress(&mut self, seat: u32, actor: Actor, parcel: Parcel, decision: Decision)
        requires seat { IsSeat self.old seat actor }
        requires ready { MaySettleIngress self.old.plan (now self.old) actor parcel.packet decision }
        requires parcel { IsPacket self.old.plan parcel }
        ensures { self.new ≡ with_line self.old seat (ingress_event self.old.plan (now self.old) actor parcel.packet decision.at decision.way) }
    {
        let packet = parcel.packet();
        let from = holder(&self.plan.packets, actor, packet);
        let said = landing_in(decision.outcome);
        let arrival = settle_landing(&mut self.traffic, &self.ports, from, parcel, said);
        note(
            &mut self.lines,
            &mut self.prepared,
            seat,
            Event::Ingress {
                actor,
                packet,
                at: decision.at,
                way: decision.way,
                arrival,
            },
        );
    }

    /// The host worker settles the packet in its hand that leaves a VM, by a decision of the policy.
    pub fn settle_egress(&mut self, seat: u32, actor: Actor, parcel: Parcel, decision: Decision)
        requires seat { IsSeat self.old seat actor }
        requires ready { MaySettleEgress self.old.plan (now self.old) actor parcel.packet decision }
        requires parcel { IsPacket self.old.plan parcel }
        ensures { self.new ≡ with_line self.old seat (egress_event self.old.plan (now self.old) actor parcel.packet decision.at decision.way) }
    {
        let packet = parcel.packet();
        let from = holder(&self.plan.packets, actor, packet);
        let own = self.progress.net(parcel.vm()).unwrap_or(0);
        let said = leaving_in(decision.outcome);
        let key = UsageKey {
            host: host_of(node_of(actor)),
            net: own,
            ip: from.tuple.destination,
        };
        let bytes = parcel.frame().len() as u64;
        let departure = settle_leaving(&mut self.traffic, from, own, parcel, said);
        note_use(&mut self.reviews, key, bytes, departure);
        note(
            &mut self.lines,
            &mut self.prepared,
            seat,
            Event::Egress {
                actor,
                packet,
                at: decision.at,
                way: decision.way,
                departure,
            },
        );
    }
}

// The actor with a packet of the plan in hand.
fn holder(packets: &Items<Packet>, actor: Actor, packet: u32) -> Holder
    requires { packet < length packets.now }
    ensures { result ≡ record { actor = actor; tuple = (slice_index_or packets.now packet no_packet).tuple } }
{
    match packets.get(packet as usize) {
        Some(found) => Holder {
            actor,
            tuple: found.tuple,
        },
        None => unreachable!(),
    }
}

// A packet that may leave its VM counts, whatever becomes of it.
#[tactic(auto, unfolding(and_events::specs::Usage::usage_after))]
fn note_use(reviews: &mut Reviews, key: UsageKey, bytes: u64, departure: Departure)
    requires room { length reviews.old.used < reviews.old.room }
    requires sum { bytes_of key reviews.old.used + bytes < 2 ^ 64 }
    ensures used { reviews.new.used ≡ usage_after reviews.old.used (use_of key bytes departure) }
    ensures room { reviews.old.room ≤ reviews.new.room }
    ensures known { reviews.new.known ≡ reviews.old.known }
{
    if let Departure::Allowed { .. } = departure {
        reviews.add(key, bytes);
    }
}

// What an outcome says of a packet that has come for a VM.
fn landing_in(outcome: Outcome) -> Landing
    requires { IsLanding outcome }
    ensures { outcome ≡ Outcome.Landing result }
{
    match outcome {
        Outcome::Landing(said) => said,
        Outcome::Leaving(_) => unreachable!(),
    }
}

// What an outcome says of a packet that leaves a VM.
fn leaving_in(outcome: Outcome) -> Leaving
    requires { IsLeaving outcome }
    ensures { outcome ≡ Outcome.Leaving result }
{
    match outcome {
        Outcome::Leaving(said) => said,
        Outcome::Landing(_) => unreachable!(),
    }
}
