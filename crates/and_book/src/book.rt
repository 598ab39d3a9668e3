//! The book.
ghost use Rattle.std.specs.List.{All};
ghost use Rattle.std.specs.Prelude.{◌≡◌, ◌+◌, ◌^◌, ◌<◌, ◌≤◌, ◌++◌, ◌∷◌, [], false, length, IfOk, OnOk};
ghost use Rattle.std.specs.Vec.{vec_len, vec_capacity};
ghost use Rattle.and_events.specs.Places.{actor_of, seat_of};
ghost use Rattle.and_events.specs.Run.{Run, past};
ghost use Rattle.and_events.specs.Sound.{IsSound};
ghost use Rattle.and_laws.specs.Fates.{HasOneFateOrPlace};
ghost use Rattle.and_book.specs.Tales.{newest_first, KeepSeats};
ghost use Rattle.and_book.specs.Views.{held};

use and_events::{Event, Given, Line, Plan};
use and_kept::{Progress, Traffic, count_hands, count_nodes};
use and_pins::Pins;
use and_policy::NoMemory;
use and_ports::Ports;
use and_review::Reviews;
use and_turn::Tale;
use std::alloc::Global;
use std::marker::Model;

/// The events of a run of a plan, and what is kept of the state after them.
#[derive(Drop)]
pub struct Book {
    pub(crate) plan: Plan,
    pub(crate) threads: u32,
    pub(crate) lines: Vec<Line>,
    pub(crate) prepared: bool,
    pub(crate) orders: Vec<Given>,
    pub(crate) next: u32,
    pub(crate) progress: Progress,
    pub(crate) ports: Ports,
    pub(crate) pins: Pins,
    pub(crate) traffic: Traffic,
    pub(crate) reviews: Reviews,
}

impl Model for Book {
    ghost use Rattle.and_book.specs.Views.{BookView};

    ghost Value = { BookView };

    ghost use Rattle.and_book.specs.Inside.{view_of, IsBook};

    ghost view = { view_of };

    ghost invariant = { IsBook };
}

/// For the turn lock: the book's lines, each of its seat, under its plan and its number of threads, which no call changes.
impl Tale for Book {
    type Line = Line;

    type Root = (Plan, u32);

    ghost lines = { λ b. b.lines };

    ghost seat_of = { λ l. l.seat };

    ghost root = { λ b. (b.plan, b.threads) };

    fn line_count(&self) -> u64 {
        self.lines.len() as u64
    }
}

impl Book {
    /// A book without lines, prepared for no review. It takes all the memory that the parts of the state ever want; lines get theirs by
    /// [`Book::room`], the orders of a review by [`Book::prepare`]. After want of memory the plan is gone. `threads` is the number of
    /// threads: the seat of an actor is 1 + its number modulo `threads`. 0 means no threads, and then every actor has seat 0.
    pub fn make(alloc: Global, plan: Plan, threads: u32) -> Result<Book, NoMemory>
        requires sound { IsSound plan }
        ensures plan { IfOk result (λ b. b.plan ≡ plan) }
        ensures threads { IfOk result (λ b. b.threads ≡ threads) }
        ensures lines { IfOk result (λ b. b.lines ≡ []) }
        ensures prepared { IfOk result (λ b. b.prepared ≡ false) }
    {
        let settings = plan.settings;
        let traffic = Traffic::make(alloc, settings, plan.packets.len())?;
        let nodes = count_nodes(settings) as usize;
        let progress = Progress::make(alloc, nodes, plan.log.len() as u32)?;
        let ports = Ports::make(alloc, settings.hosts, plan.names.len() as u32)?;
        let pins = Pins::make(alloc, plan.steps.len() as u32)?;
        let reviews = Reviews::make(alloc, plan.steps.len() as u32 + 1)?;
        Ok(Book {
            plan,
            threads,
            lines: Vec::new(alloc),
            prepared: false,
            orders: Vec::new(alloc),
            next: 0,
            progress,
            ports,
            pins,
            traffic,
            reviews,
        })
    }

    /// Makes room for so many events beside those that settle the packets in hand. Where memory is wanting the book is
    /// as it was, but for its room.
    pub fn room(&mut self, alloc: Global, n: u32) -> Result<(), NoMemory>
        ensures lines { self.new.lines ≡ self.old.lines }
        ensures plan { self.new.plan ≡ self.old.plan }
        ensures threads { self.new.threads ≡ self.old.threads }
        ensures prepared { self.new.prepared ≡ self.old.prepared }
        ensures room { OnOk result (held self.new + n ≤ self.new.spare) }
    {
        let _ = alloc;
        let settings = self.plan.settings;
        let hands = count_hands(settings) as usize;
        match self.lines.reserve(n as usize + hands) {
            Ok(()) => Ok(()),
            Err(_) => Err(NoMemory),
        }
    }

    /// The plan.
    pub fn plan(&self) -> &Plan
        ensures { result.now ≡ self.now.plan }
    {
        &self.plan
    }

    /// The lines, the oldest first.
    pub fn lines(&self) -> &[Line]
        ensures { result.now ≡ self.now.lines }
    {
        self.lines.as_slice()
    }

    /// Law, at no cost when it runs: the lines are a legal run of the plan; each has the seat of its actor; each packet that was
    /// injected so far has exactly one fate or place; and what ends a holding has the seat of the Take that began it, an
    /// Installed that of its node's newest Announce.
    pub fn tells_a_run(&self)
        ensures run { Run self.now.plan (past self.now.lines) }
        ensures seats { All (λ l. l.seat ≡ seat_of self.now.threads self.now.plan.settings (actor_of l.event)) self.now.lines }
        ensures fates { HasOneFateOrPlace self.now.plan (past self.now.lines) }
        ensures keeps { KeepSeats self.now.plan.settings (newest_first self.now.lines) }
    {
        let _ = &self.plan;
    }

    /// What is true of every book: its lines are a legal run of its plan, which is sound; and the turn
    /// lock can count them.
    pub fn is_run(&self)
        ensures sound { IsSound self.now.plan }
        ensures run { Run self.now.plan (past self.now.lines) }
        ensures few { length self.now.lines < 2 ^ 63 }
    {
        let _ = &self.next;
    }
}

/// A line more, for which there is room. Whatever the book was prepared for is over.
pub(crate) fn note(lines: &mut Vec<Line>, prepared: &mut bool, seat: u32, event: Event)
    requires { vec_len lines.old < vec_capacity lines.old }
    ensures items { lines.new.items ≡ lines.old.items ++ record { seat = seat; event = event } ∷ [] }
    ensures len { vec_len lines.new ≡ vec_len lines.old + 1 }
    ensures capacity { vec_capacity lines.new ≡ vec_capacity lines.old }
    ensures prepared { prepared.new ≡ false }
{
    lines.push_reserved(Line { seat, event });
    *prepared = false;
}
