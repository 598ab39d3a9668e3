//! Where packets are.
ghost use Rattle.std.specs.Prelude.{◌≡◌, None, OnOk};
ghost use Rattle.and_events.specs.Flow as flows;
ghost use Rattle.and_events.specs.Flow.{flow_after};

use crate::rows::{at_or, pop_at, push_at, set_at};
use and_events::{Carried, End, Endpoint, Held, Items};
use and_policy::NoMemory;
use std::marker::Model;

/// The queues, what each actor has in hand, and what is known of each packet.
#[derive(Drop)]
pub struct Flow {
    pub(crate) queues: Vec<Items<u32>>,
    pub(crate) hands: Vec<Option<Held>>,
    pub(crate) carried: Vec<Carried>,
}

impl Model for Flow {
    ghost use Rattle.and_events.specs.Flow as flows;

    ghost Value = { flows.Flow };

    ghost view = { λ f. record { queues = f.queues.items; hands = f.hands.items; carried = f.carried.items } };
}

/// What is known of a packet; one that is not there has no hops.
pub(crate) fn carried_in(carried: &[Carried], packet: u32) -> Carried
    ensures { result ≡ flows.carried_in carried.now packet }
{
    at_or(
        carried,
        packet as usize,
        Carried {
            hops: 0,
            sealed: false,
            net: 0,
            target: Endpoint::Host(0),
        },
    )
}

/// A packet comes from outside, or is lost where the queue was full.
#[tactic(auto, unfolding(and_events::specs::Flow::flow_after))]
pub(crate) fn enter_by(
    flow: &mut Flow,
    queue: usize,
    packet: u32,
    full: bool,
) -> Result<(), NoMemory>
    ensures ok { OnOk result (flow.new ≡ flow_after flow.old (flows.enter_by queue packet full)) }
{
    if full {
        return Ok(());
    }
    push_at(&mut flow.queues, queue, packet)
}

/// An actor takes the front of a queue.
#[tactic(auto, unfolding(and_events::specs::Flow::flow_after))]
pub(crate) fn grab(flow: &mut Flow, hand: usize, queue: usize, held: Held)
    ensures { flow.new ≡ flow_after flow.old (flows.Grab hand queue held) }
{
    pop_at(&mut flow.queues, queue);
    set_at(&mut flow.hands, hand, Some(held));
}

/// A packet ends in its hand.
#[tactic(auto, unfolding(and_events::specs::Flow::flow_after))]
pub(crate) fn stop(flow: &mut Flow, hand: usize, packet: u32)
    ensures { flow.new ≡ flow_after flow.old (flows.Stop hand packet) }
{
    let _ = packet;
    set_at(&mut flow.hands, hand, None);
}

// An actor sends what it has in hand.
#[tactic(auto, unfolding(and_events::specs::Flow::flow_after))]
fn send(
    flow: &mut Flow,
    hand: usize,
    queue: usize,
    packet: u32,
    net: u32,
    target: Endpoint,
) -> Result<(), NoMemory>
    ensures ok { OnOk result (flow.new ≡ flow_after flow.old (flows.Send hand queue packet net target)) }
{
    let carried = carried_in(&flow.carried, packet);
    let sent = Carried {
        hops: carried.hops.saturating_sub(1),
        sealed: carried.sealed,
        net,
        target,
    };
    push_at(&mut flow.queues, queue, packet)?;
    set_at(&mut flow.hands, hand, None);
    set_at(&mut flow.carried, packet as usize, sent);
    Ok(())
}

// An actor gives what it has in hand to be sealed, and sent then.
#[tactic(auto, unfolding(and_events::specs::Flow::flow_after))]
fn seal_later(
    flow: &mut Flow,
    hand: usize,
    queue: usize,
    packet: u32,
    net: u32,
    target: Endpoint,
) -> Result<(), NoMemory>
    ensures ok { OnOk result (flow.new ≡ flow_after flow.old (flows.SealLater hand queue packet net target)) }
{
    let carried = carried_in(&flow.carried, packet);
    let sealed = Carried {
        hops: carried.hops,
        sealed: true,
        net,
        target,
    };
    push_at(&mut flow.queues, queue, packet)?;
    set_at(&mut flow.hands, hand, None);
    set_at(&mut flow.carried, packet as usize, sealed);
    Ok(())
}

/// A send of what an actor has in hand, by how it ends.
pub(crate) fn send_by(
    flow: &mut Flow,
    hand: usize,
    queue: usize,
    packet: u32,
    end: End,
    net: u32,
    target: Endpoint,
) -> Result<(), NoMemory>
    ensures ok { OnOk result (flow.new ≡ flow_after flow.old (flows.send_by hand queue packet end net target)) }
{
    match end {
        End::Queued => send(flow, hand, queue, packet, net, target),
        End::Full | End::Hops => {
            stop(flow, hand, packet);
            Ok(())
        }
    }
}

/// A packet to be sealed, by how the try at the queue ends.
pub(crate) fn seal_by(
    flow: &mut Flow,
    hand: usize,
    queue: usize,
    packet: u32,
    end: End,
    net: u32,
    target: Endpoint,
) -> Result<(), NoMemory>
    ensures ok { OnOk result (flow.new ≡ flow_after flow.old (flows.seal_by hand queue packet end net target)) }
{
    match end {
        End::Queued => seal_later(flow, hand, queue, packet, net, target),
        End::Full | End::Hops => {
            stop(flow, hand, packet);
            Ok(())
        }
    }
}
