//! A seat, and the lock as its callers hold it.
ghost use Rattle.std.specs.Prelude.{◌≡◌};

use crate::plays::Rule;
use crate::tale::Tale;
use crate::view::View;
use atomic_table::Table;
use std::alloc::Global;
use std::snapshot::Snapshot;

/// The right to take turns at one lock. It is not `Drop`, so it cannot be lost: the first seat takes it in.
pub struct Seat<S: Tale> {
    /// The ticket that it drew last, modulo 2^64.
    pub(crate) ticket: u64,
    /// How many lines the value had when it came.
    pub(crate) lines: u64,
    pub(crate) number: u32,
    /// Of the first seat: how many seats were made, which is the number of the next one.
    pub(crate) made: u32,
    pub(crate) place: atomic_table::Seat<Option<S>, View<S, S::Line>>,
    ghost numbered: { number ≡ place.me.0.known.number },
    ghost counted: { made ≡ place.me.0.known.made },
}

/// One tale, which the seats of this lock hand to one another. It is not `Drop` either: the first seat closes it.
pub struct TurnLock<S: Tale> {
    pub(crate) table: Table<Option<S>, View<S, S::Line>, Snapshot<S>, Rule, Global>,
    ghost words: { table.shared.table_id.words ≡ 3 },
    ghost slots: { table.shared.table_id.slots ≡ 1 },
}

impl<S: Tale> Seat<S> {
    ghost use Rattle.and_turn.specs.Seats.{number_of};

    /// The seat's number, which each line that it adds has to name. The first seat has number 0.
    pub fn number(&self) -> u32
        ensures { result ≡ number_of self.now }
    {
        self.number
    }
}
