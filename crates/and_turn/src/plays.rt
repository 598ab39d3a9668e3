//! The rule of the lock's table, and what each kind of step tells.
use crate::tale::Tale;
use crate::view::View;
use atomic_table::{Join, Play, Split, TableRule};
use std::marker::PhantomData;
use std::snapshot::Snapshot;

pub struct Rule;

impl<S: Tale> TableRule<Option<S>, View<S, S::Line>, Snapshot<S>> for Rule {
    ghost use Rattle.and_turn.specs.Turns.{Turned, opening_view};

    ghost holds = { λ key. Turned S.lines S.root S.seat_of key.value };

    ghost first = { λ key. opening_view key.value };
}

pub(crate) struct Draw;

impl<S, L> Play<Option<S>, View<S, L>> for Draw {
    ghost use Rattle.and_turn.specs.Turns.{Draws};

    ghost then = { Draws };
}

pub(crate) struct Look<S> {
    tale: PhantomData<S>,
}

impl<S: Tale> Play<Option<S>, View<S, S::Line>> for Look<S> {
    ghost use Rattle.and_turn.specs.Turns.{Looks};

    ghost then = { Looks S.lines S.root S.seat_of };
}

pub(crate) struct Pass;

impl<S, L> Play<Option<S>, View<S, L>> for Pass {
    ghost use Rattle.and_turn.specs.Turns.{Passes};

    ghost then = { Passes };
}

pub(crate) struct Learn;

impl<S, L> Play<Option<S>, View<S, L>> for Learn {
    ghost use Rattle.and_turn.specs.Turns.{Learns};

    ghost then = { Learns };
}

pub(crate) struct Add<S> {
    tale: PhantomData<S>,
}

impl<S: Tale> Play<Option<S>, View<S, S::Line>> for Add<S> {
    ghost use Rattle.and_turn.specs.Turns.{Adds};

    ghost then = { Adds S.lines };
}

pub(crate) struct Recall<S> {
    tale: PhantomData<S>,
}

impl<S: Tale> Play<Option<S>, View<S, S::Line>> for Recall<S> {
    ghost use Rattle.and_turn.specs.Turns.{Recalls};

    ghost then = { Recalls S.seat_of };
}

// The first seat makes another.
pub(crate) struct Branch;

impl<S, L> Split<View<S, L>> for Branch {
    ghost use Rattle.and_turn.specs.Turns.{split_left, split_right};

    ghost left = { split_left };

    ghost right = { split_right };
}

// The first seat takes another in.
pub(crate) struct Merge;

impl<S, L> Join<View<S, L>> for Merge {
    ghost use Rattle.and_turn.specs.Turns.{joined_view, spent_view};

    ghost both = { joined_view };

    ghost spent = { spent_view };
}
