//! What the actors have in hand.
ghost use Rattle.std.specs.Prelude.{◌≡◌, ℕ, ◌<◌, ◌↔◌, List, length, IsTrue, IfOk, replicate, slice_set, None, Some};
ghost use Rattle.std.specs.List.{All};
ghost use Rattle.and_events.specs.Flow.{hand_at};

use crate::count::one_if;
use and_events::Held;
use and_policy::NoMemory;
use std::alloc::Global;
use std::marker::Model;

/// What each actor that takes packets has in hand, by the place of its hand. Contracts see it as that list.
#[derive(Drop)]
pub struct Hands {
    items: Vec<Option<Held>>,
    busy: usize,
}

impl Model for Hands {
    ghost use Rattle.std.specs.Prelude.{◌≡◌, List, Option, is_some};
    ghost use Rattle.std.specs.List.{count_by};
    ghost use Rattle.and_events.specs.declared.event.Held.{Held};

    ghost Value = { List (Option Held) };

    ghost view = { λ h. h.items.items };

    ghost invariant = { λ h. h.busy ≡ count_by is_some h.items.items };
}

impl Hands {
    /// So many empty hands. All memory is taken here.
    pub fn make(alloc: Global, count: usize) -> Result<Hands, NoMemory>
        ensures { IfOk result (λ hands. hands ≡ replicate count None) }
    {
        match vec![in alloc; None; count] {
            Ok(items) => Ok(Hands { items, busy: 0 }),
            Err(_) => Err(NoMemory),
        }
    }

    /// What is in the hand.
    pub fn at(&self, hand: usize) -> Option<Held>
        requires { hand < length self.now }
        ensures { result ≡ hand_at self.now hand }
    {
        self.items[hand]
    }

    /// Whether all hands are empty.
    pub fn are_empty(&self) -> bool
        ensures { IsTrue result ↔ All (λ h. h ≡ None) self.now }
    {
        self.busy == 0
    }

    /// A packet comes into the hand.
    pub fn fill(&mut self, hand: usize, held: Held)
        requires { hand < length self.old }
        ensures { self.new ≡ slice_set self.old hand (Some held) }
    {
        let was_empty = self.items[hand].is_none();
        self.busy += one_if(was_empty);
        self.items[hand] = Some(held);
    }

    /// The hand lets go what it has.
    pub fn clear(&mut self, hand: usize)
        requires { hand < length self.old }
        ensures { self.new ≡ slice_set self.old hand None }
    {
        let was_full = self.items[hand].is_some();
        self.busy -= one_if(was_full);
        self.items[hand] = None;
    }
}
