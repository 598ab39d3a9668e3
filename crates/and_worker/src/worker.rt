//! The worker.
ghost use Rattle.std.specs.Prelude.{◌≡◌, ◌+◌, ◌≤◌, ◌<◌, ◌↔◌, true, false, IsOk, Ok, Err, Some, None, length, take, IsTrue, OnOk, OnErr, IfOk};
ghost use Rattle.and_policy.specs.declared.decision.Way.TheVariants.{Fast};
ghost use Rattle.and_policy.specs.Caches as caches;
ghost use Rattle.and_policy.specs.Fitting.{IsLog};
ghost use Rattle.and_policy.specs.Frames.{fields};
ghost use Rattle.and_policy.specs.Programmes.{entries};
ghost use Rattle.and_events.specs.declared.event.Actor.TheVariants as actors;
ghost use Rattle.and_events.specs.declared.event.Node.TheVariants as nodes;
ghost use Rattle.and_events.specs.Legal.{Enabled};
ghost use Rattle.and_events.specs.State.{programme_of, announced_of};
ghost use Rattle.and_book.specs.Views.{now, held, with_line, IsPacket, IsSeat};
ghost use Rattle.and_agree.specs.Agreeing.{Tells};
ghost use Rattle.and_decide.specs.Deciding.{AreRight, IsAt};
ghost use Rattle.and_worker.specs.Workers as workers;
ghost use Rattle.and_worker.specs.Workers.{actor_of, HoldsAsBook, HasTaken, MayDecide, needs, rules_of, rules_for, IsFast, HasDecided, decision_of, MaySettle, IsSettled, HasSettled, MayPutDown, event_of, forgotten, kept_after};

use and_agree::{Settled, compare};
use and_book::Book;
use and_decide::{Behind, egress, ingress};
use and_events::{Actor, Held, Node, Queue};
use and_flow::FlowCache;
use and_parcel::Parcel;
use and_policy::{Decision, FlowKey, Leaving, NoMemory, Outcome, Side, Tables, Way};
use and_slow::Steps;
use and_tables::HostTables;
use and_wire::read_frame;
use std::alloc::Global;
use std::marker::Model;
use std::sync::ledger::Ledger;

/// A packet in the worker's hand.
#[derive(Drop)]
pub struct InHand {
    /// What the book says of it.
    pub held: Held,
    /// Its parcel.
    pub parcel: Parcel,
    /// The network into which it was sent (VNI, RFC 7348); of no meaning where a VM sends it.
    pub vni: u32,
    /// What was decided of it.
    pub decision: Option<Decision>,
}

/// A packet worker of a host. Contracts see the host, the worker's number there, its flow cache, how many operations it has compared with the book's,
/// and the packet in its hand.
#[derive(Drop)]
pub struct Worker {
    host: u32,
    index: u32,
    cache: FlowCache,
    compared: u32,
    hand: Option<InHand>,
}

impl Model for Worker {
    ghost use Rattle.and_worker.specs.Workers.{WorkerView};

    ghost Value = { WorkerView };

    ghost use Rattle.and_worker.specs.Inside.{view_of, IsWorker};

    ghost view = { view_of };

    ghost invariant = { IsWorker };
}

// Whether the actor holds nothing and is enabled.
fn can_take(hand: &Option<InHand>, book: &Book, actor: Actor) -> bool
    ensures { IsTrue result ↔ ((hand.now ≡ None) × Enabled book.now.plan (now book.now) actor) }
{
    hand.is_none() && book.enabled(actor)
}

// The packet without a decision.
fn forget(hand: &mut Option<InHand>)
    ensures { hand.new ≡ forgotten hand.old }
{
    match hand {
        Some(in_hand) => in_hand.decision = None,
        None => {}
    }
}

// What the tables say of the packet.
fn decide<L: Ledger>(
    tables: &HostTables,
    cache: &FlowCache,
    in_hand: &InHand,
    steps: &mut Steps<L>,
) -> Result<Decision, Behind>
    requires frame { IsOk (fields in_hand.now.parcel.frame) }
    requires right { AreRight tables.now cache.now }
    ensures behind { length tables.now.ops < in_hand.now.held.need → result ≡ Err (record { at = length tables.now.ops }) }
    ensures number { in_hand.now.held.need ≤ length tables.now.ops → IsAt (length tables.now.ops) result }
    ensures decision { in_hand.now.held.need ≤ length tables.now.ops → IsLog None (entries tables.now.ops) → result ≡ Ok (decision_of tables.now cache.now in_hand.now) }
    ensures fast { IfOk result (λ d. d.way ≡ Fast → steps.new ≡ steps.old) }
    ensures cost { IsLog None (entries tables.now.ops) → steps.new ≤ steps.old + rules_of tables.now in_hand.now }
    ensures none { length tables.now.ops < in_hand.now.held.need → steps.new ≡ steps.old }
{
    let need = in_hand.held.need;
    match in_hand.held.queue {
        Queue::Out => egress(tables, cache, &in_hand.parcel, need, steps),
        Queue::Wire => ingress(tables, cache, &in_hand.parcel, in_hand.vni, need, steps),
        Queue::Seal => ingress(tables, cache, &in_hand.parcel, in_hand.vni, need, steps),
    }
}

// By which the packet is looked for in the flow cache.
fn key_of(held: Held, parcel: &Parcel, vni: u32) -> FlowKey
    requires { IsOk (fields parcel.now.frame) }
    ensures { result ≡ workers.key_of held.queue parcel.now vni }
{
    let tuple = match read_frame(parcel.frame()) {
        Ok(fields) => fields.tuple,
        Err(_) => unreachable!(),
    };
    match held.queue {
        Queue::Out => FlowKey {
            side: Side::Egress,
            scope: parcel.vm(),
            tuple,
        },
        Queue::Wire | Queue::Seal => FlowKey {
            side: Side::Ingress,
            scope: vni,
            tuple,
        },
    }
}

// Whether the outcome goes into a flow cache: not where it is of a VM that is not live.
fn is_cached(outcome: Outcome) -> bool
    ensures { result ≡ caches.is_cached outcome }
{
    match outcome {
        Outcome::Leaving(Leaving::NoVm) => false,
        Outcome::Leaving(_) | Outcome::Landing(_) => true,
    }
}

// The cache after a decision that was settled: what was found by the tables alone goes into it.
fn keep(cache: &mut FlowCache, key: &FlowKey, decision: Decision)
    ensures { cache.new ≡ kept_after cache.old key.now decision }
{
    match decision.way {
        Way::Slow if is_cached(decision.outcome) => {
            cache.put(key, decision.at, decision.outcome);
        }
        Way::Slow | Way::Fast => {}
    }
}

// The actor settles the packet by the decision.
fn put_down(book: &mut Book, seat: u32, actor: Actor, in_hand: InHand, decision: Decision)
    requires seat { IsSeat book.old seat actor }
    requires may { MayPutDown book.old.plan (now book.old) actor in_hand decision }
    requires parcel { IsPacket book.old.plan in_hand.parcel }
    ensures { book.new ≡ with_line book.old seat (event_of book.old.plan (now book.old) actor in_hand.held.queue in_hand.parcel.packet decision) }
{
    match in_hand.held.queue {
        Queue::Out => book.settle_egress(seat, actor, in_hand.parcel, decision),
        Queue::Wire | Queue::Seal => {
            book.settle_ingress(seat, actor, in_hand.parcel, decision);
        }
    }
}

impl Worker {
    /// The worker of this number at the host, counted from 0 there, with an empty flow cache and nothing in its hand. All memory that it ever uses is
    /// taken here.
    ///
    /// # Errors
    ///
    /// Where memory is wanting.
    pub fn make(alloc: Global, host: u32, index: u32) -> Result<Worker, NoMemory>
        ensures { IfOk result (λ w. w ≡ record { host = host; index = index; cache = caches.empty; compared = 0; hand = None }) }
    {
        Ok(Worker {
            host,
            index,
            cache: FlowCache::make(alloc)?,
            compared: 0,
            hand: None,
        })
    }

    /// Takes the next packet that came to the host, or where none did the next that a VM sends. True exactly where the worker holds nothing and is
    /// enabled; otherwise all is as it was. It needs room for two events beside those that settle the packets in hand.
    pub fn take(&mut self, book: &mut Book, seat: u32) -> bool
        requires seat { IsSeat book.old seat (actor_of self.old) }
        requires hands { HoldsAsBook book.old self.old }
        requires room { held book.old + 2 ≤ book.old.spare }
        ensures answer { IsTrue result ↔ ((self.old.hand ≡ None) × Enabled book.old.plan (now book.old) (actor_of self.old)) }
        ensures taken { result ≡ true → HasTaken book.old book.new seat self.old self.new }
        ensures book { result ≡ false → book.new ≡ book.old }
        ensures worker { result ≡ false → self.new ≡ self.old }
    {
        let actor = Actor::Worker {
            host: self.host,
            index: self.index,
        };
        if !can_take(&self.hand, book, actor) {
            return false;
        }
        let (held, parcel) = book.take(seat, actor);
        book.is_run();
        let carried = book.carried(held.packet);
        self.hand = Some(InHand {
            held,
            parcel,
            vni: carried.net,
            decision: None,
        });
        true
    }

    /// Decides of the packet in hand by the tables and the flow cache, which stays as it is. What is decided is the policy's where the entries among
    /// the tables' operations are a log. Found fast, it takes no step; otherwise at most one for each live rule of the network.
    ///
    /// # Errors
    ///
    /// Exactly where the tables stand at fewer operations than were installed when the packet was taken; the worker is as it was.
    pub fn decide<L: Ledger>(
        &mut self,
        tables: &HostTables,
        steps: &mut Steps<L>,
    ) -> Result<(), Behind>
        requires { MayDecide tables.now self.old }
        ensures behind { length tables.now.ops < needs self.old → result ≡ Err (record { at = length tables.now.ops }) }
        ensures decided { needs self.old ≤ length tables.now.ops → IsOk result }
        ensures decision { OnOk result (HasDecided tables.now self.old self.new) }
        ensures unchanged { OnErr result (self.new ≡ self.old) }
        ensures fast { OnOk result (IsFast self.new → steps.new ≡ steps.old) }
        ensures cost { IsLog None (entries tables.now.ops) → steps.new ≤ steps.old + rules_for tables.now self.old }
        ensures none { OnErr result (steps.new ≡ steps.old) }
    {
        let Some(in_hand) = self.hand.as_mut() else {
            unreachable!()
        };
        let decision = decide(tables, &self.cache, in_hand, steps)?;
        in_hand.decision = Some(decision);
        Ok(())
    }

    /// Settles the packet in hand by what was decided of it with these tables at their present number. `Early` exactly where fewer operations are
    /// announced; `Differs` exactly where the tables' operations are not the first ones of the book's programme. Then the book is unchanged, the
    /// packet stays in hand, and the decision is dropped. Otherwise `Done`, with one event, and the hand is empty; what was found by the tables alone
    /// goes into the flow cache.
    pub fn settle(&mut self, book: &mut Book, tables: &HostTables, seat: u32) -> Settled
        requires { MaySettle book.old tables.now seat self.old }
        ensures answer { Tells (announced_of book.old.plan (now book.old) (nodes.Host self.old.host)) tables.now.ops (programme_of book.old.plan (now book.old) (nodes.Host self.old.host)) result }
        ensures settled { HasSettled book.old book.new tables.now seat self.old self.new result }
    {
        match compare(book, Node::Host(self.host), tables, self.compared) {
            Settled::Done => {
                self.pass(book, tables, seat);
                Settled::Done
            }
            answer => {
                forget(&mut self.hand);
                answer
            }
        }
    }

    // Settles the packet in hand, whose decision may reach the book.
    fn pass(&mut self, book: &mut Book, tables: &HostTables, seat: u32)
        requires may { MaySettle book.old tables.now seat self.old }
        requires announced { length tables.now.ops ≤ announced_of book.old.plan (now book.old) (nodes.Host self.old.host) }
        requires same { take (length tables.now.ops) (programme_of book.old.plan (now book.old) (nodes.Host self.old.host)) ≡ tables.now.ops }
        ensures { IsSettled book.old book.new tables.now seat self.old self.new }
    {
        book.is_run();
        let Some(in_hand) = self.hand.take() else {
            unreachable!()
        };
        let Some(decision) = in_hand.decision else {
            unreachable!()
        };
        let key = key_of(in_hand.held, &in_hand.parcel, in_hand.vni);
        self.compared = self.compared.max(tables.at());
        keep(&mut self.cache, &key, decision);
        let actor = Actor::Worker {
            host: self.host,
            index: self.index,
        };
        put_down(book, seat, actor, in_hand, decision);
    }
}
