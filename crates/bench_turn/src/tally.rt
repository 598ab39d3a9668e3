//! The value under the lock: a count of turns, and no lines.
ghost use Rattle.std.specs.Prelude.{[]};

use and_turn::Tale;

/// How many turns were taken, modulo 2^64. It is a tale without lines, so that a turn's own cost is timed.
#[derive(Drop)]
pub(crate) struct Tally {
    pub(crate) turns: u64,
}

impl Tale for Tally {
    type Line = u32;

    type Root = ();

    ghost lines = { λ _. [] };

    ghost seat_of = { λ l. l };

    ghost root = { λ _. tt };

    fn line_count(&self) -> u64 {
        0
    }
}
