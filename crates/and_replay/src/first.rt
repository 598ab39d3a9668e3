//! Whose turn it is.
ghost use Rattle.std.specs.Prelude.{◌<◌, length};
ghost use Rattle.and_events.specs.Legal.{Enabled};
ghost use Rattle.and_events.specs.Ordered.{IsFirst};
ghost use Rattle.and_events.specs.Places.{IsActor};
ghost use Rattle.and_book.specs.Views.{now};

use and_book::Book;
use and_events::Actor;

/// The enabled actor with the smallest number. Until the last step is done there is one.
pub(crate) fn first_enabled(book: &Book) -> Actor
    requires due { (now book.now).next < length book.now.plan.steps }
    ensures actor { IsActor book.now.plan.settings result }
    ensures enabled { Enabled book.now.plan (now book.now) result }
    ensures first { IsFirst book.now.plan (now book.now) result }
{
    book.is_run();
    match book.first_enabled() {
        Some(actor) => actor,
        None => unreachable!(),
    }
}
