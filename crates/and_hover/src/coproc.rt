//! The coprocessor.
ghost use Rattle.std.specs.Prelude.{◌≡◌, ◌+◌, ◌≤◌, ◌↔◌, true, false, None, IsTrue};
ghost use Rattle.and_events.specs.declared.event.Actor.TheVariants as actors;
ghost use Rattle.and_events.specs.Legal.{Enabled};
ghost use Rattle.and_book.specs.Views.{now, held, IsSeat};
ghost use Rattle.and_hover.specs.Coprocs.{HasTaken, MaySettle, IsSettled};
ghost use Rattle.and_hover.specs.Holding.{HoldsAsBook};

use crate::taking::can_take;
use and_book::Book;
use and_events::{Actor, Held};
use and_parcel::Parcel;
use std::marker::Model;

/// A packet in the coprocessor's hand.
#[derive(Drop)]
pub struct ToSeal {
    /// What the book says of it.
    pub held: Held,
    /// Its parcel.
    pub parcel: Parcel,
}

/// The coprocessor of a host. Contracts see the host's number and the packet in its hand.
#[derive(Drop)]
pub struct Coproc {
    host: u32,
    hand: Option<ToSeal>,
}

impl Model for Coproc {
    ghost use Rattle.and_hover.specs.Coprocs.{CoprocView};

    ghost Value = { CoprocView };

    ghost use Rattle.and_hover.specs.Within.{view_of};

    ghost view = { view_of };
}

impl Coproc {
    /// The coprocessor of this host, with nothing in its hand.
    pub fn make(host: u32) -> Coproc
        ensures { result ≡ record { host = host; hand = None } }
    {
        Coproc { host, hand: None }
    }

    /// Takes the next packet that is to be sealed at the host. True exactly where the coprocessor holds nothing and is enabled; otherwise all is as
    /// it was. It needs room for two events beside those that settle the packets in hand.
    pub fn take(&mut self, book: &mut Book, seat: u32) -> bool
        requires seat { IsSeat book.old seat (actors.Coproc self.old.host) }
        requires hands { HoldsAsBook book.old (actors.Coproc self.old.host) self.old.hand }
        requires room { held book.old + 2 ≤ book.old.spare }
        ensures answer { IsTrue result ↔ ((self.old.hand ≡ None) × Enabled book.old.plan (now book.old) (actors.Coproc self.old.host)) }
        ensures taken { result ≡ true → HasTaken book.old book.new seat self.old self.new }
        ensures book { result ≡ false → book.new ≡ book.old }
        ensures coprocessor { result ≡ false → self.new ≡ self.old }
    {
        let actor = Actor::Coproc(self.host);
        if !can_take(&self.hand, book, actor) {
            return false;
        }
        let (held, parcel) = book.take(seat, actor);
        self.hand = Some(ToSeal { held, parcel });
        true
    }

    /// Sends the packet in hand to where its egress was decided to lead, sealed. The book has this one event more, and the hand is empty.
    pub fn settle(&mut self, book: &mut Book, seat: u32)
        requires { MaySettle book.old seat self.old }
        ensures { IsSettled book.old book.new seat self.old self.new }
    {
        book.is_run();
        let Some(to_seal) = self.hand.take() else {
            unreachable!()
        };
        book.sealed(seat, Actor::Coproc(self.host), to_seal.parcel);
    }
}
