//! The worker.
ghost use Rattle.std.specs.Prelude.{◌≡◌, ◌+◌, ◌≤◌, ◌<◌, ◌↔◌, true, false, IsOk, Err, Some, None, length, take, IsTrue, OnOk, OnErr, is_some};
ghost use Rattle.and_events.specs.declared.event.Actor.TheVariants as actors;
ghost use Rattle.and_events.specs.declared.event.Node.TheVariants as nodes;
ghost use Rattle.and_events.specs.Legal.{Enabled};
ghost use Rattle.and_events.specs.State.{programme_of, announced_of};
ghost use Rattle.and_book.specs.Views.{now, held, IsSeat};
ghost use Rattle.and_agree.specs.Agreeing.{Tells};
ghost use Rattle.and_hover.specs.Holding.{HoldsAsBook};
ghost use Rattle.and_hover.specs.Hovers.{HasTaken, HasPacket, needs, HasDecided, MaySettle, IsSettled, HasSettled, forgotten, is_redirect};

use crate::taking::can_take;
use and_agree::{Settled, compare};
use and_book::Book;
use and_decide::{Behind, gateway};
use and_events::{Actor, Carried, Endpoint, Held, Node};
use and_parcel::Parcel;
use and_policy::{GateDecision, Tables};
use and_routes::GatewayTables;
use std::marker::Model;

/// A packet in the worker's hand.
#[derive(Drop)]
pub struct InHand {
    /// What the book says of it.
    pub held: Held,
    /// Its parcel.
    pub parcel: Parcel,
    /// The network into which it was sent (VNI, RFC 7348).
    pub vni: u32,
    /// Whether it was sent to the redirect address.
    pub redirect: bool,
    /// What was decided of it.
    pub decision: Option<GateDecision>,
}

/// The packet worker of a gateway. Contracts see the gateway's number, how many operations it has compared with the book's, and the packet in its
/// hand.
#[derive(Drop)]
pub struct Hover {
    gateway: u32,
    compared: u32,
    hand: Option<InHand>,
}

impl Model for Hover {
    ghost use Rattle.and_hover.specs.Hovers.{HoverView};

    ghost Value = { HoverView };

    ghost use Rattle.and_hover.specs.Inside.{view_of, IsHover};

    ghost view = { view_of };

    ghost invariant = { IsHover };
}

// Whether the packet was sent to the redirect address.
fn is_for_redirect(carried: Carried) -> bool
    ensures { result ≡ is_redirect carried.target }
{
    match carried.target {
        Endpoint::Redirect(_) => true,
        Endpoint::Route(_) | Endpoint::Host(_) => false,
    }
}

// The packet without a decision.
fn forget(hand: &mut Option<InHand>)
    ensures { hand.new ≡ forgotten hand.old }
{
    match hand {
        Some(in_hand) => in_hand.decision = None,
        None => {}
    }
}

impl Hover {
    /// The worker of this gateway, with nothing in its hand.
    pub fn make(gateway: u32) -> Hover
        ensures { result ≡ record { gateway = gateway; compared = 0; hand = None } }
    {
        Hover {
            gateway,
            compared: 0,
            hand: None,
        }
    }

    /// Takes the next packet that came to the gateway. True exactly where the worker holds nothing and is enabled; otherwise all is as it was. It
    /// needs room for two events beside those that settle the packets in hand.
    pub fn take(&mut self, book: &mut Book, seat: u32) -> bool
        requires seat { IsSeat book.old seat (actors.Gateway self.old.gateway) }
        requires hands { HoldsAsBook book.old (actors.Gateway self.old.gateway) self.old.hand }
        requires room { held book.old + 2 ≤ book.old.spare }
        ensures answer { IsTrue result ↔ ((self.old.hand ≡ None) × Enabled book.old.plan (now book.old) (actors.Gateway self.old.gateway)) }
        ensures taken { result ≡ true → HasTaken book.old book.new seat self.old self.new }
        ensures book { result ≡ false → book.new ≡ book.old }
        ensures worker { result ≡ false → self.new ≡ self.old }
    {
        let actor = Actor::Gateway(self.gateway);
        if !can_take(&self.hand, book, actor) {
            return false;
        }
        let (held, parcel) = book.take(seat, actor);
        book.is_run();
        let carried = book.carried(held.packet);
        self.hand = Some(InHand {
            held,
            parcel,
            vni: carried.net,
            redirect: is_for_redirect(carried),
            decision: None,
        });
        true
    }

    /// Decides of the packet in hand by the tables. What is decided is the policy's where the entries among the tables' operations are a log.
    ///
    /// # Errors
    ///
    /// Exactly where the tables stand at fewer operations than were installed when the packet was taken; the worker is as it was.
    pub fn decide(&mut self, tables: &GatewayTables) -> Result<(), Behind>
        requires { HasPacket self.old }
        ensures behind { length tables.now < needs self.old → result ≡ Err (record { at = length tables.now }) }
        ensures decided { needs self.old ≤ length tables.now → IsOk result }
        ensures decision { OnOk result (HasDecided tables.now self.old self.new) }
        ensures unchanged { OnErr result (self.new ≡ self.old) }
    {
        let Some(in_hand) = self.hand.as_mut() else {
            unreachable!()
        };
        let decision = gateway(
            tables,
            &in_hand.parcel,
            in_hand.vni,
            in_hand.redirect,
            in_hand.held.need,
        )?;
        in_hand.decision = Some(decision);
        Ok(())
    }

    /// Settles the packet in hand by what was decided of it with these tables at their present number. `Early` exactly where fewer operations are
    /// announced; `Differs` exactly where the tables' operations are not the first ones of the book's programme. Then the book is unchanged, the
    /// packet stays in hand, and the decision is dropped. Otherwise `Done`, with one event, and the hand is empty.
    pub fn settle(&mut self, book: &mut Book, tables: &GatewayTables, seat: u32) -> Settled
        requires { MaySettle book.old tables.now seat self.old }
        ensures answer { Tells (announced_of book.old.plan (now book.old) (nodes.Gate self.old.gateway)) tables.now (programme_of book.old.plan (now book.old) (nodes.Gate self.old.gateway)) result }
        ensures settled { HasSettled book.old book.new tables.now seat self.old self.new result }
    {
        match compare(book, Node::Gate(self.gateway), tables, self.compared) {
            Settled::Done => {
                self.pass(book, tables, seat);
                Settled::Done
            }
            answer => {
                forget(&mut self.hand);
                answer
            }
        }
    }

    // Settles the packet in hand, whose decision may reach the book.
    fn pass(&mut self, book: &mut Book, tables: &GatewayTables, seat: u32)
        requires may { MaySettle book.old tables.now seat self.old }
        requires announced { length tables.now ≤ announced_of book.old.plan (now book.old) (nodes.Gate self.old.gateway) }
        requires same { take (length tables.now) (programme_of book.old.plan (now book.old) (nodes.Gate self.old.gateway)) ≡ tables.now }
        ensures { IsSettled book.old book.new tables.now seat self.old self.new }
    {
        book.is_run();
        let Some(in_hand) = self.hand.take() else {
            unreachable!()
        };
        let Some(decision) = in_hand.decision else {
            unreachable!()
        };
        self.compared = self.compared.max(tables.at());
        book.settle_gateway(seat, Actor::Gateway(self.gateway), in_hand.parcel, decision);
    }
}
