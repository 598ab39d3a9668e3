//! Announcements and installs.
ghost use Rattle.std.specs.Prelude.{◌≡◌, ◌+◌, ◌≤◌, length};
ghost use Rattle.and_events.specs.Legal.{CanAnnounce, CanInstall};
ghost use Rattle.and_events.specs.Places.{installer_of};
ghost use Rattle.and_events.specs.State.{programme_of, announced_of};
ghost use Rattle.and_book.specs.Views.{now, held, IsSeat, with_line};

use crate::book::{Book, note};
use and_events::{Event, Node, node_place};

impl Book {
    /// The node's installer announces how long its programme is.
    pub fn announce(&mut self, seat: u32, node: Node)
        requires seat { IsSeat self.old seat (installer_of node) }
        requires ready { CanAnnounce self.old.plan (now self.old) node }
        requires room { held self.old + 1 ≤ self.old.spare }
        ensures { self.new ≡ with_line self.old seat (Event.Announce node (length (programme_of self.old.plan (now self.old) node))) }
    {
        let place = node_place(self.plan.settings, node);
        let upto = self.progress.announce(place);
        note(
            &mut self.lines,
            &mut self.prepared,
            seat,
            Event::Announce { node, upto },
        );
    }

    /// The node's installer has installed what it announced.
    pub fn settle_install(&mut self, seat: u32, node: Node)
        requires seat { IsSeat self.old seat (installer_of node) }
        requires ready { CanInstall self.old.plan (now self.old) node }
        requires room { held self.old + 1 ≤ self.old.spare }
        ensures { self.new ≡ with_line self.old seat (Event.Installed node (announced_of self.old.plan (now self.old) node)) }
    {
        let place = node_place(self.plan.settings, node);
        let upto = self.progress.install(place);
        self.pins.ripen(self.progress.least());
        note(
            &mut self.lines,
            &mut self.prepared,
            seat,
            Event::Installed { node, upto },
        );
    }
}
