//! When an actor takes a packet.
ghost use Rattle.std.specs.Prelude.{◌≡◌, ◌↔◌, None, IsTrue};
ghost use Rattle.and_events.specs.Legal.{Enabled};
ghost use Rattle.and_book.specs.Views.{now};

use and_book::Book;
use and_events::Actor;

// Whether the actor holds nothing and is enabled.
pub(crate) fn can_take<T>(hand: &Option<T>, book: &Book, actor: Actor) -> bool
    ensures { IsTrue result ↔ ((hand.now ≡ None) × Enabled book.now.plan (now book.now) actor) }
{
    hand.is_none() && book.enabled(actor)
}
