//! A book up to where a worker may take its packet.
ghost use Rattle.std.specs.Prelude.{◌≡◌, OnOk, IfOk};
ghost use Rattle.and_events.specs.declared.event.Node.TheVariants.{Host};
ghost use Rattle.and_events.specs.Places.{IsNode};
ghost use Rattle.actor_rows.specs.Waiting.{IsWaiting};

use crate::inputs::{Fault, planned};
use and_book::Book;
use and_driver::turn;
use and_events::Node;
use and_install::{begin, end};
use and_policy::NoMemory;
use std::alloc::Global;

// A book without lines.
fn blank(alloc: Global) -> Result<Book, Fault>
    ensures { IfOk result (λ b. IsWaiting b) }
{
    let plan = planned(alloc)?;
    match Book::make(alloc, plan, 0) {
        Ok(book) => {
            book.is_run();
            Ok(book)
        }
        Err(_) => Err(Fault::NoMemory),
    }
}

// The driver does a step, where it may.
fn drive(alloc: Global, book: &mut Book) -> Result<(), NoMemory>
    requires { IsWaiting book.old }
    ensures { OnOk result (IsWaiting book.new) }
{
    book.room(alloc, 2)?;
    book.is_run();
    let _done = turn(alloc, book, 0)?;
    book.is_run();
    Ok(())
}

// Host 0 installs what is new.
fn install(alloc: Global, book: &mut Book) -> Result<(), NoMemory>
    requires { IsWaiting book.old }
    ensures { OnOk result (IsWaiting book.new) }
{
    book.room(alloc, 2)?;
    book.is_run();
    let node = Node::Host(0);
    if begin(alloc, book, node, 0)?.is_some() {
        book.is_run();
        let at = book.announced(node);
        end(book, node, at, 0);
        book.is_run();
    }
    Ok(())
}

// Five entries are appended, of which host 0 installs so many at once, and the packet is injected.
fn fill(alloc: Global, book: &mut Book, installs: u32) -> Result<(), NoMemory>
    requires { IsWaiting book.old }
    ensures { OnOk result (IsWaiting book.new) }
{
    for step in 0..6u32 {
        drive(alloc, book)?;
        if step < installs {
            install(alloc, book)?;
        }
    }
    Ok(())
}

/// The book in which five entries are appended, of which host 0 has installed the first `installs`, and the packet of VM `a` is injected.
pub(crate) fn prepared(alloc: Global, installs: u32) -> Result<Book, Fault>
    ensures { IfOk result (λ b. IsWaiting b) }
{
    let mut book = blank(alloc)?;
    match fill(alloc, &mut book, installs) {
        Ok(()) => Ok(book),
        Err(_) => Err(Fault::NoMemory),
    }
}
