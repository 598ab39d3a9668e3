//! The steps of a seat: on the tickets, on the count of lines, on the slot, and on the seats themselves.
ghost use Rattle.std.specs.Prelude.{◌≡◌, ◌^◌, ◌<◌, [], ◌∷◌, ◌++◌, List, length, All, MatchBool, Some, None};
ghost use Rattle.and_turn.specs.Seats.{Holds, IsFree, Queues, SitsAt, hands_of, known_of, list_of, number_of, opened};
ghost use Rattle.and_turn.specs.Turns.{Shows};

use crate::plays::{Add, Draw, Learn, Look, Pass};
use crate::seat::{Seat, TurnLock};
use crate::tale::Tale;

impl<S: Tale> TurnLock<S> {
    // The seat draws the next ticket.
    pub(crate) fn draw(&self, seat: &mut Seat<S>)
        requires { SitsAt self.now seat.old × IsFree seat.old }
        ensures same { SitsAt self.now seat.new × (known_of seat.new ≡ known_of seat.old) }
        ensures drawn { Queues seat.new }
    {
        seat.ticket = self.table.shared.fetch_add::<Draw>(&mut seat.place, 1, 1);
    }

    // Whether the turn has come: then the seat has taken the slot.
    pub(crate) fn look(&self, seat: &mut Seat<S>) -> bool
        requires { SitsAt self.now seat.old × Queues seat.old }
        ensures same { SitsAt self.now seat.new × (known_of seat.new ≡ known_of seat.old) }
        ensures turn { MatchBool result ((x : S) × Holds seat.new (Some x) × (list_of seat.new ≡ S.lines x) × Shows S.lines S.root S.seat_of (known_of seat.old) x) (Queues seat.new) }
    {
        self.table.shared.load::<Look<S>>(&mut seat.place, 2) == seat.ticket
    }

    // Lifts out the value, which the seat has in hand then. None stays in its place.
    pub(crate) fn lift(&self, seat: &mut Seat<S>) -> S
        requires { SitsAt self.now seat.old × ((x : S) × Holds seat.old (Some x)) }
        ensures same { SitsAt self.now seat.new × (known_of seat.new ≡ known_of seat.old) × (list_of seat.new ≡ list_of seat.old) }
        ensures lifted { (hands_of seat.old ≡ (0, Some result) ∷ []) × Holds seat.new None }
    {
        self.table
            .shared
            .exchange(&mut seat.place, 0, None)
            .unwrap()
    }

    // The value goes into the place that the seat has in hand.
    pub(crate) fn home(&self, seat: &mut Seat<S>, value: S)
        requires { SitsAt self.now seat.old × Holds seat.old None }
        ensures same { SitsAt self.now seat.new × (known_of seat.new ≡ known_of seat.old) × (list_of seat.new ≡ list_of seat.old) }
        ensures home { Holds seat.new (Some value) }
    {
        let old = self.table.shared.exchange(&mut seat.place, 0, Some(value));
        let None = old else { unreachable!() };
    }

    // The slot goes back, and the next ticket is served.
    pub(crate) fn pass(&self, seat: &mut Seat<S>)
        requires { SitsAt self.now seat.old × ((x : S) × Holds seat.old (Some x) × (S.lines x ≡ list_of seat.old) × (S.root x ≡ S.root (opened self.now))) }
        ensures same { SitsAt self.now seat.new × (known_of seat.new ≡ known_of seat.old) }
        ensures free { IsFree seat.new }
    {
        let next = seat.ticket.wrapping_add(1);
        self.table.shared.store::<Pass>(&mut seat.place, 2, next);
    }

    // All lines of the value are seen, and how many they are is read.
    pub(crate) fn learn(&self, seat: &mut Seat<S>)
        requires { SitsAt self.now seat.old × Holds seat.old None }
        ensures turn { SitsAt self.now seat.new × Holds seat.new None }
        ensures seen { known_of seat.new ≡ record (known_of seat.old) { seen = list_of seat.old } }
        ensures lines { (list_of seat.new ≡ list_of seat.old) × (seat.new.lines ≡ length (list_of seat.old)) }
    {
        seat.lines = self.table.shared.load::<Learn>(&mut seat.place, 0);
    }

    // The new lines of the value in hand count from now on.
    pub(crate) fn add(&self, seat: &mut Seat<S>, new: u64)
        requires seat { SitsAt self.now seat.old }
        requires value { (x : S) × (more : List S.Line) × Holds seat.old (Some x) × (S.lines x ≡ list_of seat.old ++ more) × (new ≡ length more) × All (λ l. S.seat_of l ≡ number_of seat.old) more × (length (S.lines x) < 2 ^ 63) }
        ensures seat { SitsAt self.now seat.new }
        ensures value { (x : S) → hands_of seat.old ≡ (0, Some x) ∷ [] → Holds seat.new (Some x) × (list_of seat.new ≡ S.lines x) × (known_of seat.new ≡ record (known_of seat.old) { seen = S.lines x }) }
    {
        self.table
            .shared
            .fetch_add::<Add<S>>(&mut seat.place, 0, new);
    }
}
