//! Which hands have work: those that are full, and those that find a packet in a queue from which they are filled, where
//! forwarding is not held at their node.
ghost use Rattle.std.specs.Prelude.{◌≡◌, ℕ, ◌+◌, ◌*◌, ◌/◌, ◌<◌, ◌≤◌, ◌⊎◌, length, is_some, false, slice_index_or};
ghost use Rattle.and_events.specs.Flow.{hand_at};
ghost use Rattle.and_events.specs.Places.{node_count, queue_count, hand_count, IsSmall};
ghost use Rattle.and_kept.specs.Busy as spec;
ghost use Rattle.and_kept.specs.Busy.{Tells, has_some};

use crate::hands::Hands;
use crate::numbers::NumberSet;
use crate::queues::Queues;
use and_events::Settings;

// The place of the queue from which the hand is filled first.
fn first_queue(settings: Settings, hand: u32) -> u32
    requires small { IsSmall settings }
    requires hand { hand < hand_count settings }
    ensures is { result ≡ spec.first_queue settings hand }
    ensures within { result < queue_count settings }
{
    let workers = settings.hosts * settings.workers;
    if hand < workers {
        2 * settings.hosts + hand / settings.workers
    } else if hand < workers + settings.hosts {
        settings.hosts + (hand - workers)
    } else {
        2 * settings.hosts + (hand - workers)
    }
}

// And the place of the other one.
fn other_queue(settings: Settings, hand: u32) -> u32
    requires small { IsSmall settings }
    requires hand { hand < hand_count settings }
    ensures is { result ≡ spec.other_queue settings hand }
    ensures within { result < queue_count settings }
{
    if hand < settings.hosts * settings.workers {
        hand / settings.workers
    } else {
        first_queue(settings, hand)
    }
}

// Where the hands of a host's workers begin, and where they end.
fn workers_of(settings: Settings, host: u32) -> (u32, u32)
    requires small { IsSmall settings }
    requires host { host < settings.hosts }
    ensures within { result.1 ≤ settings.hosts * settings.workers }
    ensures are { (k : ℕ) → k < settings.hosts * settings.workers → k / settings.workers ≡ host → (result.0 ≤ k) × (k < result.1) }
{
    (
        host * settings.workers,
        host * settings.workers + settings.workers,
    )
}

/// Where the hands that are filled from a queue begin, and where they end.
pub(crate) fn takers(settings: Settings, queue: u32) -> (u32, u32)
    requires small { IsSmall settings }
    requires queue { queue < queue_count settings }
    ensures within { result.1 ≤ hand_count settings }
    ensures first { (k : ℕ) → k < hand_count settings → spec.first_queue settings k ≡ queue → (result.0 ≤ k) × (k < result.1) }
    ensures other { (k : ℕ) → k < hand_count settings → spec.other_queue settings k ≡ queue → (result.0 ≤ k) × (k < result.1) }
{
    let workers = settings.hosts * settings.workers;
    let hosts = settings.hosts;
    if queue < hosts {
        workers_of(settings, queue)
    } else if queue < 2 * hosts {
        let hand = workers + (queue - hosts);
        (hand, hand + 1)
    } else if queue < 3 * hosts {
        workers_of(settings, queue - 2 * hosts)
    } else {
        let hand = workers + (queue - 2 * hosts);
        (hand, hand + 1)
    }
}

/// Where the hands of the workers at a node begin, and where they end; and the same of its coprocessor or its gateway worker.
pub(crate) fn hands_at(settings: Settings, node: u32) -> ((u32, u32), (u32, u32))
    requires small { IsSmall settings }
    requires node { node < node_count settings }
    ensures workers_within { result.0.1 ≤ hand_count settings }
    ensures other_within { result.1.1 ≤ hand_count settings }
    ensures all { (k : ℕ) → k < hand_count settings → spec.hand_node settings k ≡ node → ((result.0.0 ≤ k) × (k < result.0.1)) ⊎ ((result.1.0 ≤ k) × (k < result.1.1)) }
{
    let hand = settings.hosts * settings.workers + node;
    if node < settings.hosts {
        (workers_of(settings, node), (hand, hand + 1))
    } else {
        ((0, 0), (hand, hand + 1))
    }
}

// The place of the node at which the hand's actor works.
fn hand_node(settings: Settings, hand: u32) -> u32
    requires small { IsSmall settings }
    requires hand { hand < hand_count settings }
    ensures is { result ≡ spec.hand_node settings hand }
    ensures within { result < node_count settings }
{
    let workers = settings.hosts * settings.workers;
    if hand < workers {
        hand / settings.workers
    } else {
        hand - workers
    }
}

// Whether forwarding is held at a node.
fn is_held(held: &Vec<bool>, node: u32) -> bool
    requires { node < length held.now.items }
    ensures { result ≡ slice_index_or held.now.items node false }
{
    held[node as usize]
}

fn is_full(hands: &Hands, hand: usize) -> bool
    requires { hand < length hands.now }
    ensures { result ≡ is_some (hand_at hands.now hand) }
{
    hands.at(hand).is_some()
}

fn has_queued(queues: &Queues, queue: usize) -> bool
    requires { queue < length queues.now.numbers }
    ensures { result ≡ has_some queues.now.numbers queue }
{
    !queues.is_empty(queue)
}

// Whether there is something in the hand, or in a queue from which it is filled where forwarding is not held.
#[tactic(auto, unfolding(crate::specs::Busy::is_busy))]
fn is_busy(settings: Settings, queues: &Queues, hands: &Hands, held: &Vec<bool>, hand: u32) -> bool
    requires small { IsSmall settings }
    requires queues { length queues.now.numbers ≡ queue_count settings }
    requires hands { length hands.now ≡ hand_count settings }
    requires held { length held.now.items ≡ node_count settings }
    requires hand { hand < hand_count settings }
    ensures { result ≡ spec.is_busy settings queues.now.numbers hands.now held.now.items hand }
{
    is_full(hands, hand as usize)
        || (!is_held(held, hand_node(settings, hand))
            && (has_queued(queues, first_queue(settings, hand) as usize)
                || has_queued(queues, other_queue(settings, hand) as usize)))
}

/// Looks again at the hands from `range.0` on and below `range.1`.
pub(crate) fn refresh(
    settings: Settings,
    queues: &Queues,
    hands: &Hands,
    held: &Vec<bool>,
    busy: &mut NumberSet,
    range: (u32, u32),
)
    requires small { IsSmall settings }
    requires queues { length queues.now.numbers ≡ queue_count settings }
    requires hands { length hands.now ≡ hand_count settings }
    requires held { length held.now.items ≡ node_count settings }
    requires size { busy.old.size ≡ hand_count settings }
    requires high { range.1 ≤ hand_count settings }
    ensures size { busy.new.size ≡ busy.old.size }
    ensures told { (k : ℕ) → k < hand_count settings → ((range.0 ≤ k) × (k < range.1)) ⊎ Tells settings queues.now.numbers hands.now held.now.items busy.old k → Tells settings queues.now.numbers hands.now held.now.items busy.new k }
{
    for hand in range.0..range.1 {
        busy.put(hand, is_busy(settings, queues, hands, held, hand));
    }
}
