//! Reviews of the usage.
ghost use Rattle.std.specs.Prelude.{◌≡◌, ◌+◌, ◌≤◌, true, Some, slice_get, OnOk, OnErr};
ghost use Rattle.and_events.specs.declared.event.Actor.TheVariants.{Driver};
ghost use Rattle.and_events.specs.declared.plan.Step.TheVariants as steps;
ghost use Rattle.and_book.specs.Views.{now, held, IsSeat, with_line};

use crate::book::{Book, note};
use and_events::Event;
use and_policy::NoMemory;
use std::alloc::Global;

impl Book {
    /// Finds the orders of a review of the usage so far, and makes room for them. A book that is prepared stays as it is. It looks at
    /// the keys that are used, and at the entries of the log that came since the last review.
    ///
    /// # Errors
    ///
    /// Where memory is wanting: the book is as it was.
    pub fn prepare(&mut self, alloc: Global) -> Result<(), NoMemory>
        ensures ok { OnOk result (self.new ≡ record self.old { prepared = true }) }
        ensures err { OnErr result (self.new ≡ self.old) }
    {
        if self.prepared {
            return Ok(());
        }
        let orders = self
            .reviews
            .orders(alloc, self.plan.settings, self.progress.log())?;
        self.progress.room_for(alloc, &orders)?;
        self.orders = orders;
        self.prepared = true;
        Ok(())
    }

    /// A review: each order goes to its host's programme, and the usage begins anew.
    pub fn review(&mut self, seat: u32)
        requires seat { IsSeat self.old seat Driver }
        requires due { slice_get self.old.plan.steps (now self.old).next ≡ Some steps.Review }
        requires prepared { self.old.prepared ≡ true }
        requires room { held self.old + 1 ≤ self.old.spare }
        ensures { self.new ≡ with_line self.old seat (Event.Review (now self.old).next) }
    {
        let step = self.next;
        self.progress.give(&self.orders);
        self.reviews.clear();
        self.next += 1;
        note(
            &mut self.lines,
            &mut self.prepared,
            seat,
            Event::Review { step },
        );
    }
}
