//! A book of two steps, handed on by the lock.
ghost use Rattle.std.specs.Prelude.{◌≡◌, [], IfOk};
ghost use Rattle.core_tests.specs.Small.{small_plan};

use and_book::Book;
use and_events::{Items, Plan, Settings, Step};
use and_policy::NoMemory;
use and_turn::{Tale, TurnLock};
use std::alloc::Global;
use std::sync::Wait;
use std::test::Fail;

/// One host with two workers, and one gateway.
const ONE_HOST: Settings = Settings {
    hosts: 1,
    gateways: 1,
    workers: 2,
    hop_limit: 16,
    out_queue: 256,
    wire_queue: 256,
    seal_queue: 256,
    threshold: 20_000,
    life: 3,
};

// A plan without VMs: the system comes to rest, and ends.
fn make_plan(alloc: Global) -> Result<Plan, NoMemory>
    ensures { IfOk result (λ p. p ≡ small_plan) }
{
    let mut steps = Items::new(alloc);
    steps.push(Step::Wait)?;
    steps.push(Step::Finish)?;
    Ok(Plan {
        settings: ONE_HOST,
        steps,
        log: Items::new(alloc),
        packets: Items::new(alloc),
        refused: Items::new(alloc),
        skipped: Items::new(alloc),
        frames: 0,
        unsent: 0,
        nanos: false,
        names: Items::new(alloc),
    })
}

// A book of that plan.
#[tactic(auto, using(crate::proofs::BookLemmas::small_sound))]
fn make_book(alloc: Global) -> Result<Book, NoMemory>
    ensures { IfOk result (λ b. b.lines ≡ []) }
{
    let plan = make_plan(alloc)?;
    Book::make(alloc, plan, 0)
}

// The book after one turn without an event; whether it had no line in that turn.
fn handed_on<R: Wait>(rt: &R, alloc: Global, book: Book) -> Result<(Book, bool), Fail>
    requires { book.lines ≡ [] }
{
    let (lock, mut first) = TurnLock::make(alloc, book)?;
    let book = lock.enter(rt, &mut first);
    let is_blank = book.line_count() == 0;
    book.is_run();
    lock.leave(&mut first, book);
    Ok((lock.close(first), is_blank))
}

#[test]
fn a_book_is_handed_on(rt: HostRuntime) -> Result<(), Fail> {
    let book = make_book(rt.alloc()).ok().ok_or("there is memory")?;
    let (closed, is_blank) = handed_on(&rt, rt.alloc(), book)?;
    assert!(rt; is_blank && closed.lines().is_empty());
    assert_eq!(rt; closed.plan().settings.hosts, 1);
    Ok(())
}
