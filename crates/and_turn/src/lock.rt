//! The calls of the lock.
ghost use Rattle.std.specs.Prelude.{◌≡◌, ◌+◌, ◌-◌, ◌^◌, ◌<◌, ℕ, [], ◌∷◌, ◌++◌, List, length, All, Contains, IfOk};
ghost use Rattle.and_turn.specs.Seats.{HasTurn, IsFree, IsSameSeat, SitsAt, ended_of, made_of, number_of, opened, out_of, seen_of};
ghost use Rattle.and_turn.specs.Tales.{IsPrefix, longer, own};

use crate::NoMemory;
use crate::plays::{Branch, Merge, Recall};
use crate::seat::{Seat, TurnLock};
use crate::tale::Tale;
use atomic_table::Table;
use std::alloc::Global;
use std::snapshot::Snapshot;
use std::sync::Wait;
use std::thread;

impl<S: Tale> TurnLock<S> {
    /// The lock around a value without lines, and its first seat, whose number is 0.
    ///
    /// Where there is no memory, the value is gone.
    pub fn make(alloc: Global, value: S) -> Result<(TurnLock<S>, Seat<S>), NoMemory>
        requires { S.lines value ≡ [] }
        ensures opened { IfOk result (λ r. opened r.0 ≡ value) }
        ensures seat { IfOk result (λ r. SitsAt r.0 r.1 × IsFree r.1) }
        ensures first { IfOk result (λ r. (number_of r.1 ≡ 0) × (out_of r.1 ≡ 0) × (made_of r.1 ≡ 1) × (ended_of r.1 ≡ [])) }
        ensures seen { IfOk result (λ r. seen_of r.1 ≡ []) }
    {
        let key = Snapshot::of(&value);
        let Ok(mut slots) = Vec::with_capacity(alloc, 1) else {
            return Err(NoMemory);
        };
        slots.push_reserved(Some(value));
        let Ok((table, place)) = Table::new(alloc, &[0, 0, 0], slots, &key) else {
            return Err(NoMemory);
        };
        let seat = Seat {
            ticket: 0,
            lines: 0,
            number: 0,
            made: 1,
            place,
        };
        Ok((TurnLock { table }, seat))
    }

    /// One more seat, made by the first one. It has seen what the first seat has seen.
    pub fn split(&self, seat: &mut Seat<S>) -> Seat<S>
        requires seat { SitsAt self.now seat.old × IsFree seat.old × (number_of seat.old ≡ 0) }
        requires room { made_of seat.old < 2 ^ 32 - 1 }
        ensures first { SitsAt self.now seat.new × IsFree seat.new × (number_of seat.new ≡ 0) }
        ensures counts { (out_of seat.new ≡ out_of seat.old + 1) × (made_of seat.new ≡ made_of seat.old + 1) × (ended_of seat.new ≡ ended_of seat.old) }
        ensures same { seen_of seat.new ≡ seen_of seat.old }
        ensures seat { SitsAt self.now result × IsFree result × (number_of result ≡ made_of seat.old) }
        ensures seen { seen_of result ≡ seen_of seat.old }
    {
        let number = seat.made;
        let place = self.table.shared.split_seat::<Branch>(&mut seat.place);
        seat.made = number + 1;
        Seat {
            ticket: 0,
            lines: 0,
            number,
            made: 0,
            place,
        }
    }

    /// Waits for the turn, and gives the value. Seats take turns in the order in which they asked, by the tickets that they draw;
    /// no clause says so.
    ///
    /// The value begins with what the seat had seen, and every line of the seat's number was already seen. For the first
    /// seat the same holds of each number that it joined.
    pub fn enter<R: Wait>(&self, rt: &R, seat: &mut Seat<S>) -> S
        requires { SitsAt self.now seat.old × IsFree seat.old }
        ensures turn { SitsAt self.now seat.new × HasTurn seat.new }
        ensures same { IsSameSeat seat.old seat.new }
        ensures root { S.root result ≡ S.root (opened self.now) }
        ensures seen { seen_of seat.new ≡ S.lines result }
        ensures grows { IsPrefix (seen_of seat.old) (S.lines result) }
        ensures own { own S.seat_of (S.lines result) (number_of seat.old) ≡ own S.seat_of (seen_of seat.old) (number_of seat.old) }
        ensures ended { number_of seat.old ≡ 0 → (n : ℕ) → Contains (ended_of seat.old) n → own S.seat_of (S.lines result) n ≡ own S.seat_of (seen_of seat.old) n }
    {
        self.draw(seat);
        for _ in rt.forever() {
            if self.look(seat) {
                let value = self.lift(seat);
                self.learn(seat);
                return value;
            }
            thread::yield_now();
        }
        unreachable!()
    }

    /// Gives the value back and ends the turn. The value has the lines that it had at `enter`, and then lines of this
    /// seat's number.
    pub fn leave(&self, seat: &mut Seat<S>, value: S)
        requires turn { SitsAt self.now seat.old × HasTurn seat.old }
        requires root { S.root value ≡ S.root (opened self.now) }
        requires lines { (more : List S.Line) × (S.lines value ≡ seen_of seat.old ++ more) × All (λ l. S.seat_of l ≡ number_of seat.old) more }
        requires few { length (S.lines value) < 2 ^ 63 }
        ensures seat { SitsAt self.now seat.new × IsFree seat.new }
        ensures same { IsSameSeat seat.old seat.new }
        ensures seen { seen_of seat.new ≡ S.lines value }
    {
        let new = value.line_count() - seat.lines;
        self.home(seat, value);
        self.add(seat, new);
        self.pass(seat);
    }

    /// The first seat takes another in, and knows what both knew. It has one seat out less.
    ///
    /// The lines of the joined seat are kept, and so are those of each number that was joined before.
    pub fn join(&self, seat: &mut Seat<S>, other: Seat<S>)
        requires seat { SitsAt self.now seat.old × IsFree seat.old × (number_of seat.old ≡ 0) }
        requires other { SitsAt self.now other × IsFree other }
        ensures first { SitsAt self.now seat.new × IsFree seat.new × (number_of seat.new ≡ 0) }
        ensures out { out_of seat.old ≡ out_of seat.new + 1 }
        ensures counts { (made_of seat.new ≡ made_of seat.old) × (ended_of seat.new ≡ ended_of seat.old ++ number_of other ∷ []) }
        ensures seen { seen_of seat.new ≡ longer (seen_of seat.old) (seen_of other) }
        ensures grows { IsPrefix (seen_of seat.old) (seen_of seat.new) × IsPrefix (seen_of other) (seen_of seat.new) }
        ensures own { own S.seat_of (seen_of seat.new) 0 ≡ own S.seat_of (seen_of seat.old) 0 }
        ensures joined { own S.seat_of (seen_of seat.new) (number_of other) ≡ own S.seat_of (seen_of other) (number_of other) }
        ensures ended { (n : ℕ) → Contains (ended_of seat.old) n → own S.seat_of (seen_of seat.new) n ≡ own S.seat_of (seen_of seat.old) n }
    {
        let Seat {
            ticket: _,
            lines: _,
            number: _,
            made: _,
            place,
        } = other;
        self.table.shared.join_seat::<Merge>(&mut seat.place, place);
        let _ = self.table.shared.load::<Recall<S>>(&mut seat.place, 0);
    }

    /// The value, once the first seat has joined all others. The first seat has seen all of its lines.
    pub fn close(self, seat: Seat<S>) -> S
        requires { SitsAt self seat × IsFree seat × (number_of seat ≡ 0) × (out_of seat ≡ 0) }
        ensures seen { seen_of seat ≡ S.lines result }
        ensures root { S.root result ≡ S.root (opened self) }
    {
        let Seat {
            ticket: _,
            lines: _,
            number: _,
            made: _,
            place,
        } = seat;
        let TurnLock { table } = self;
        let mut closed = table.close_with(place);
        let slot = closed.take(0);
        closed.free();
        slot.unwrap()
    }
}
