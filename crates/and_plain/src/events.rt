//! The state after an event.
ghost use Rattle.std.specs.Prelude.{◌≡◌, ℕ, OnOk, IfOk};
ghost use Rattle.and_events.specs.declared.event.Event.TheVariants as events;
ghost use Rattle.and_events.specs.declared.plan.Plan as plans;
ghost use Rattle.and_policy.specs.declared.decision.Way as ways;
ghost use Rattle.and_plain.specs.History.{history};
ghost use Rattle.and_events.specs.State as spec;
ghost use Rattle.and_events.specs.Usage.{usage_after};

use crate::facts::{frame_len, source_net, tuple_at};
use crate::flow::{carried_in, enter_by, grab};
use crate::places::{hand_place, node_of, node_place, queue_place};
use crate::ports::unpinned;
use crate::programmes::{announces, installs};
use crate::state::{State, home, installed_of, start};
use crate::steps::{
    advance, arrives, departs, goes_back, holds_of_step, passes, ports_of_step, send, step_at,
    whole_step, word_of_step,
};
use crate::usage::with_use;
use and_events::{Actor, Arrival, Departure, End, Event, Held, Node, Passage, Plan, Queue, Return};
use and_policy::{NoMemory, UsageKey};
use std::alloc::Global;

#[tactic(auto, unfolding(and_events::specs::State::after, and_events::specs::State::move_of, and_events::specs::State::word_of, and_events::specs::State::ports_move_of, and_events::specs::State::usage_move_of, and_events::specs::State::holds_after, and_events::specs::State::step_of, and_events::specs::Flow::flow_after, and_events::specs::Programming::programmes_after, and_events::specs::Ports::ports_after, and_events::specs::Usage::usage_after))]
fn append(alloc: Global, plan: &Plan, s: &mut State, step: u32) -> Result<(), NoMemory>
    ensures ok { OnOk result (s.new ≡ spec.after plan.now s.old (events.Append step)) }
{
    whole_step(alloc, plan, s, step_at(plan, step))?;
    advance(s)
}

#[tactic(auto, unfolding(and_events::specs::State::after, and_events::specs::State::move_of, and_events::specs::State::word_of, and_events::specs::State::ports_move_of, and_events::specs::State::usage_move_of, and_events::specs::State::holds_after, and_events::specs::State::step_of, and_events::specs::Flow::flow_after, and_events::specs::Programming::programmes_after, and_events::specs::Ports::ports_after, and_events::specs::Usage::usage_after))]
fn review(alloc: Global, plan: &Plan, s: &mut State, step: u32) -> Result<(), NoMemory>
    ensures ok { OnOk result (s.new ≡ spec.after plan.now s.old (events.Review step)) }
{
    word_of_step(plan, s, step_at(plan, step))?;
    s.usage = Vec::new(alloc);
    advance(s)
}

#[tactic(auto, unfolding(and_events::specs::State::after, and_events::specs::State::move_of, and_events::specs::State::word_of, and_events::specs::State::ports_move_of, and_events::specs::State::usage_move_of, and_events::specs::State::holds_after, and_events::specs::State::step_of, and_events::specs::Flow::flow_after, and_events::specs::Programming::programmes_after, and_events::specs::Ports::ports_after, and_events::specs::Usage::usage_after))]
fn hold(plan: &Plan, s: &mut State, step: u32) -> Result<(), NoMemory>
    ensures ok { OnOk result (s.new ≡ spec.after plan.now s.old (events.Hold step)) }
{
    holds_of_step(plan, s, step_at(plan, step));
    advance(s)
}

#[tactic(auto, unfolding(and_events::specs::State::after, and_events::specs::State::move_of, and_events::specs::State::word_of, and_events::specs::State::ports_move_of, and_events::specs::State::usage_move_of, and_events::specs::State::holds_after, and_events::specs::State::step_of, and_events::specs::Flow::flow_after, and_events::specs::Programming::programmes_after, and_events::specs::Ports::ports_after, and_events::specs::Usage::usage_after))]
fn free(plan: &Plan, s: &mut State, step: u32) -> Result<(), NoMemory>
    ensures ok { OnOk result (s.new ≡ spec.after plan.now s.old (events.Free step)) }
{
    holds_of_step(plan, s, step_at(plan, step));
    advance(s)
}

#[tactic(auto, unfolding(and_events::specs::State::after, and_events::specs::State::move_of, and_events::specs::State::word_of, and_events::specs::State::ports_move_of, and_events::specs::State::usage_move_of, and_events::specs::State::holds_after, and_events::specs::State::step_of, and_events::specs::Flow::flow_after, and_events::specs::Programming::programmes_after, and_events::specs::Ports::ports_after, and_events::specs::Usage::usage_after))]
fn inject(plan: &Plan, s: &mut State, step: u32, packet: u32, full: bool) -> Result<(), NoMemory>
    ensures ok { OnOk result (s.new ≡ spec.after plan.now s.old (events.Inject step packet full)) }
{
    let host = home(plan, s, packet);
    let queue = queue_place(&plan.settings, Node::Host(host), Queue::Out);
    enter_by(&mut s.flow, queue, packet, full)?;
    advance(s)
}

#[tactic(auto, unfolding(and_events::specs::State::after, and_events::specs::State::move_of, and_events::specs::State::word_of, and_events::specs::State::ports_move_of, and_events::specs::State::usage_move_of, and_events::specs::State::holds_after, and_events::specs::State::step_of, and_events::specs::Flow::flow_after, and_events::specs::Programming::programmes_after, and_events::specs::Ports::ports_after, and_events::specs::Usage::usage_after))]
fn blackout(alloc: Global, plan: &Plan, s: &mut State, step: u32) -> Result<(), NoMemory>
    ensures ok { OnOk result (s.new ≡ spec.after plan.now s.old (events.Blackout step)) }
{
    ports_of_step(alloc, s, step_at(plan, step))?;
    advance(s)
}

#[tactic(auto, unfolding(and_events::specs::State::after, and_events::specs::State::move_of, and_events::specs::State::word_of, and_events::specs::State::ports_move_of, and_events::specs::State::usage_move_of, and_events::specs::State::holds_after, and_events::specs::State::step_of, and_events::specs::Flow::flow_after, and_events::specs::Programming::programmes_after, and_events::specs::Ports::ports_after, and_events::specs::Usage::usage_after))]
fn resume(alloc: Global, plan: &Plan, s: &mut State, step: u32) -> Result<(), NoMemory>
    ensures ok { OnOk result (s.new ≡ spec.after plan.now s.old (events.Resume step)) }
{
    whole_step(alloc, plan, s, step_at(plan, step))?;
    advance(s)
}

#[tactic(auto, unfolding(and_events::specs::State::after, and_events::specs::State::move_of, and_events::specs::State::word_of, and_events::specs::State::ports_move_of, and_events::specs::State::usage_move_of, and_events::specs::State::holds_after, and_events::specs::State::step_of, and_events::specs::Flow::flow_after, and_events::specs::Programming::programmes_after, and_events::specs::Ports::ports_after, and_events::specs::Usage::usage_after))]
fn announce(plan: &Plan, s: &mut State, node: Node, upto: u32)
    ensures { s.new ≡ spec.after plan.now s.old (events.Announce node upto) }
{
    announces(&mut s.programmes, node_place(&plan.settings, node), upto);
}

#[tactic(auto, unfolding(and_events::specs::State::after, and_events::specs::State::move_of, and_events::specs::State::word_of, and_events::specs::State::ports_move_of, and_events::specs::State::usage_move_of, and_events::specs::State::holds_after, and_events::specs::State::step_of, and_events::specs::Flow::flow_after, and_events::specs::Programming::programmes_after, and_events::specs::Ports::ports_after, and_events::specs::Usage::usage_after))]
fn installed(plan: &Plan, s: &mut State, node: Node, upto: u32)
    ensures { s.new ≡ spec.after plan.now s.old (events.Installed node upto) }
{
    installs(&mut s.programmes, node_place(&plan.settings, node), upto);
}

#[tactic(auto, unfolding(and_events::specs::State::after, and_events::specs::State::move_of, and_events::specs::State::word_of, and_events::specs::State::ports_move_of, and_events::specs::State::usage_move_of, and_events::specs::State::holds_after, and_events::specs::State::step_of, and_events::specs::Flow::flow_after, and_events::specs::Programming::programmes_after, and_events::specs::Ports::ports_after, and_events::specs::Usage::usage_after))]
fn take(plan: &Plan, s: &mut State, actor: Actor, queue: Queue, packet: u32)
    ensures { s.new ≡ spec.after plan.now s.old (events.Take actor queue packet) }
{
    let node = node_of(actor);
    let need = installed_of(plan, s, node);
    let hand = hand_place(&plan.settings, actor);
    let place = queue_place(&plan.settings, node, queue);
    grab(
        &mut s.flow,
        hand,
        place,
        Held {
            packet,
            need,
            queue,
        },
    );
}

// Counts the frame of a packet that may leave.
#[tactic(auto, unfolding(and_events::specs::Usage::usage_after))]
fn count_use(
    alloc: Global,
    plan: &Plan,
    s: &mut State,
    here: Node,
    packet: u32,
    departure: Departure,
) -> Result<(), NoMemory>
    ensures ok { OnOk result (s.new ≡ record s.old { usage = usage_after s.old.usage (spec.usage_by plan.now here packet departure) }) }
{
    if let Departure::Allowed { .. } = departure {
        let host = match here {
            Node::Host(host) => host,
            Node::Gate(_) => 0,
        };
        let key = UsageKey {
            host,
            net: source_net(plan, packet),
            ip: tuple_at(plan, packet).destination,
        };
        s.usage = with_use(alloc, key, frame_len(plan, packet) as u64, &s.usage)?;
    }
    Ok(())
}

#[tactic(auto, unfolding(and_events::specs::State::after, and_events::specs::State::move_of, and_events::specs::State::word_of, and_events::specs::State::ports_move_of, and_events::specs::State::usage_move_of, and_events::specs::State::holds_after, and_events::specs::State::step_of, and_events::specs::Flow::flow_after, and_events::specs::Programming::programmes_after, and_events::specs::Ports::ports_after, and_events::specs::Usage::usage_after))]
fn egress(
    alloc: Global,
    plan: &Plan,
    s: &mut State,
    actor: Actor,
    packet: u32,
    departure: Departure,
) -> Result<(), NoMemory>
    ensures ok { OnOk result ((at : ℕ) (way : ways.Way) → s.new ≡ spec.after plan.now s.old (events.Egress actor packet at way departure)) }
{
    let own = source_net(plan, packet);
    let hand = hand_place(&plan.settings, actor);
    let here = node_of(actor);
    departs(
        &plan.settings,
        &mut s.flow,
        own,
        hand,
        packet,
        here,
        departure,
    )?;
    count_use(alloc, plan, s, here, packet, departure)
}

#[tactic(auto, unfolding(and_events::specs::State::after, and_events::specs::State::move_of, and_events::specs::State::word_of, and_events::specs::State::ports_move_of, and_events::specs::State::usage_move_of, and_events::specs::State::holds_after, and_events::specs::State::step_of, and_events::specs::Flow::flow_after, and_events::specs::Programming::programmes_after, and_events::specs::Ports::ports_after, and_events::specs::Usage::usage_after))]
fn sealed(plan: &Plan, s: &mut State, actor: Actor, packet: u32, end: End) -> Result<(), NoMemory>
    ensures ok { OnOk result (s.new ≡ spec.after plan.now s.old (events.Sealed actor packet end)) }
{
    let hand = hand_place(&plan.settings, actor);
    let carried = carried_in(&s.flow.carried, packet);
    send(
        &plan.settings,
        &mut s.flow,
        hand,
        packet,
        end,
        carried.target,
        carried.net,
    )
}

#[tactic(auto, unfolding(and_events::specs::State::after, and_events::specs::State::move_of, and_events::specs::State::word_of, and_events::specs::State::ports_move_of, and_events::specs::State::usage_move_of, and_events::specs::State::holds_after, and_events::specs::State::step_of, and_events::specs::Flow::flow_after, and_events::specs::Programming::programmes_after, and_events::specs::Ports::ports_after, and_events::specs::Usage::usage_after))]
fn route(
    plan: &Plan,
    s: &mut State,
    actor: Actor,
    packet: u32,
    passage: Passage,
) -> Result<(), NoMemory>
    ensures ok { OnOk result ((at : ℕ) → s.new ≡ spec.after plan.now s.old (events.Route actor packet at passage)) }
{
    let hand = hand_place(&plan.settings, actor);
    passes(&plan.settings, &mut s.flow, hand, packet, passage)
}

#[tactic(auto, unfolding(and_events::specs::State::after, and_events::specs::State::move_of, and_events::specs::State::word_of, and_events::specs::State::ports_move_of, and_events::specs::State::usage_move_of, and_events::specs::State::holds_after, and_events::specs::State::step_of, and_events::specs::Flow::flow_after, and_events::specs::Programming::programmes_after, and_events::specs::Ports::ports_after, and_events::specs::Usage::usage_after))]
fn redirect(
    plan: &Plan,
    s: &mut State,
    actor: Actor,
    packet: u32,
    back: Return,
) -> Result<(), NoMemory>
    ensures ok { OnOk result ((at : ℕ) → s.new ≡ spec.after plan.now s.old (events.Redirect actor packet at back)) }
{
    let hand = hand_place(&plan.settings, actor);
    goes_back(&plan.settings, &mut s.flow, hand, packet, back)
}

#[tactic(auto, unfolding(and_events::specs::State::after, and_events::specs::State::move_of, and_events::specs::State::word_of, and_events::specs::State::ports_move_of, and_events::specs::State::usage_move_of, and_events::specs::State::holds_after, and_events::specs::State::step_of, and_events::specs::Flow::flow_after, and_events::specs::Programming::programmes_after, and_events::specs::Ports::ports_after, and_events::specs::Usage::usage_after))]
fn ingress(
    plan: &Plan,
    s: &mut State,
    actor: Actor,
    packet: u32,
    arrival: Arrival,
) -> Result<(), NoMemory>
    ensures ok { OnOk result ((at : ℕ) (way : ways.Way) → s.new ≡ spec.after plan.now s.old (events.Ingress actor packet at way arrival)) }
{
    let hand = hand_place(&plan.settings, actor);
    arrives(&plan.settings, &mut s.flow, hand, packet, arrival)
}

#[tactic(auto, unfolding(and_events::specs::State::after, and_events::specs::State::move_of, and_events::specs::State::word_of, and_events::specs::State::ports_move_of, and_events::specs::State::usage_move_of, and_events::specs::State::holds_after, and_events::specs::State::step_of, and_events::specs::Flow::flow_after, and_events::specs::Programming::programmes_after, and_events::specs::Ports::ports_after, and_events::specs::Usage::usage_after))]
fn unpin(s: &mut State, host: u32, vm: u32)
    ensures { (plan : plans.Plan) → s.new ≡ spec.after plan s.old (events.Unpin host vm) }
{
    unpinned(&mut s.ports, host as usize, vm as usize);
}

#[tactic(auto, unfolding(and_events::specs::State::after, and_events::specs::State::move_of, and_events::specs::State::word_of, and_events::specs::State::ports_move_of, and_events::specs::State::usage_move_of, and_events::specs::State::holds_after, and_events::specs::State::step_of, and_events::specs::Flow::flow_after, and_events::specs::Programming::programmes_after, and_events::specs::Ports::ports_after, and_events::specs::Usage::usage_after))]
fn wait(s: &mut State, step: u32) -> Result<(), NoMemory>
    ensures ok { OnOk result ((plan : plans.Plan) → s.new ≡ spec.after plan s.old (events.Wait step)) }
{
    let _ = step;
    advance(s)
}

#[tactic(auto, unfolding(and_events::specs::State::after, and_events::specs::State::move_of, and_events::specs::State::word_of, and_events::specs::State::ports_move_of, and_events::specs::State::usage_move_of, and_events::specs::State::holds_after, and_events::specs::State::step_of, and_events::specs::Flow::flow_after, and_events::specs::Programming::programmes_after, and_events::specs::Ports::ports_after, and_events::specs::Usage::usage_after))]
fn finish(s: &mut State, step: u32) -> Result<(), NoMemory>
    ensures ok { OnOk result ((plan : plans.Plan) → s.new ≡ spec.after plan s.old (events.Finish step)) }
{
    let _ = step;
    advance(s)
}

/// The state after one more event, legal or not. Where memory is short, or a number leaves its type's range, the state is
/// of no use.
pub fn after(alloc: Global, plan: &Plan, s: &mut State, event: &Event) -> Result<(), NoMemory>
    ensures ok { OnOk result (s.new ≡ spec.after plan.now s.old event.now) }
{
    match *event {
        Event::Append { step } => append(alloc, plan, s, step)?,
        Event::Review { step } => review(alloc, plan, s, step)?,
        Event::Hold { step } => hold(plan, s, step)?,
        Event::Free { step } => free(plan, s, step)?,
        Event::Wait { step } => wait(s, step)?,
        Event::Inject { step, packet, full } => inject(plan, s, step, packet, full)?,
        Event::Blackout { step } => blackout(alloc, plan, s, step)?,
        Event::Resume { step } => resume(alloc, plan, s, step)?,
        Event::Finish { step } => finish(s, step)?,
        Event::Announce { node, upto } => announce(plan, s, node, upto),
        Event::Installed { node, upto } => installed(plan, s, node, upto),
        Event::Take {
            actor,
            queue,
            packet,
        } => take(plan, s, actor, queue, packet),
        Event::Egress {
            actor,
            packet,
            departure,
            ..
        } => egress(alloc, plan, s, actor, packet, departure)?,
        Event::Sealed { actor, packet, end } => sealed(plan, s, actor, packet, end)?,
        Event::Route {
            actor,
            packet,
            passage,
            ..
        } => route(plan, s, actor, packet, passage)?,
        Event::Redirect {
            actor,
            packet,
            back,
            ..
        } => redirect(plan, s, actor, packet, back)?,
        Event::Ingress {
            actor,
            packet,
            arrival,
            ..
        } => ingress(plan, s, actor, packet, arrival)?,
        Event::Unpin { host, vm } => unpin(s, host, vm),
    }
    Ok(())
}

/// The state after events, the oldest of which is first.
#[tactic(auto, using(crate::proofs::Past::history_next), unfolding(and_events::specs::State::state))]
pub fn state_of(alloc: Global, plan: &Plan, events: &[Event]) -> Result<State, NoMemory>
    ensures ok { IfOk result (λ s. s ≡ spec.state plan.now (history events.now)) }
{
    let mut s = start(alloc, plan)?;
    for event in events {
        after(alloc, plan, &mut s, event)?;
    }
    Ok(s)
}
