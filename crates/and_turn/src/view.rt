//! What the lock's rule says of a seat. No value of these types is made: they stand in contracts and proofs alone.
use std::collections::LinkedList;

/// Where a seat stands towards the turn. The tickets are counted without a bound.
pub enum Stage {
    /// It has no ticket.
    Out,
    /// It has drawn this ticket and not found its turn yet.
    Waits(u64),
    /// It has the turn of this ticket, and the slot.
    Has(u64),
}

/// What a seat's thread sees: its place in the queue, the lines of the value in its hands, and what it knows.
pub struct View<S, L> {
    pub stage: Stage,
    /// The lines that the holder of the turn took, and after it has added to them, all of them.
    pub list: LinkedList<L>,
    pub known: Known<S, L>,
}

/// What a seat knows of the lock.
pub struct Known<S, L> {
    /// False once the first seat has taken it in.
    pub live: bool,
    pub number: u64,
    /// The value that the lock was made with, which has the lock's root.
    pub opened: Option<S>,
    /// The lines that it has seen.
    pub seen: LinkedList<L>,
    /// Of the first seat: how many seats it split and has not joined.
    pub out: u64,
    /// Of the first seat: how many seats were made.
    pub made: u64,
    /// Of the first seat: the numbers of the seats that it joined.
    pub ended: LinkedList<u64>,
    /// Of the first seat: its last join.
    pub merged: Merged<L>,
}

/// What went into the last join of the first seat.
pub struct Merged<L> {
    /// What the first seat had seen before.
    pub before: LinkedList<L>,
    /// What the joined seat had seen.
    pub joined: LinkedList<L>,
    /// The number of the joined seat.
    pub last: u64,
    /// The numbers that were joined before.
    pub earlier: LinkedList<u64>,
    /// How many seats the first one had split and not joined before.
    pub out: u64,
}
