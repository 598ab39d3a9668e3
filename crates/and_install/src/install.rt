//! The three parts of an install.
ghost use Rattle.std.specs.Prelude.{IsTrue, ◌↔◌, ◌≡◌, ◌<◌, ◌≤◌, ◌+◌, ◌^◌, ◌++◌, length, drop, OnOk, OnErr, IfOk, IfSome, IfNone};
ghost use Rattle.and_events.specs.declared.event.Event.TheVariants as Event;
ghost use Rattle.and_events.specs.Places.{IsNode, installer_of};
ghost use Rattle.and_events.specs.State.{programme_of, announced_of, installed_of};
ghost use Rattle.and_events.specs.Legal.{CanAnnounce, CanInstall};
ghost use Rattle.and_book.specs.Views.{now, held, with_line, IsSeat};
ghost use Rattle.and_install.specs.Applied.{IsStopped};

use and_book::Book;
use and_events::{Actor, Node};
use and_policy::{Batch, NoMemory, Tables};
use std::alloc::Global;

// The node's installer.
fn installer(node: Node) -> Actor
    ensures { result ≡ installer_of node }
{
    match node {
        Node::Host(host) => Actor::HostInstall(host),
        Node::Gate(gateway) => Actor::GateInstall(gateway),
    }
}

// Whether the node's installer may announce.
fn may_announce(book: &Book, node: Node) -> bool
    requires { IsNode book.now.plan.settings node }
    ensures { IsTrue result ↔ CanAnnounce book.now.plan (now book.now) node }
{
    book.announced(node) == book.installed(node) && book.enabled(installer(node))
}

/// Announces what is new in the node's programme, and answers the operations from what is installed to what is announced. None, with
/// the book unchanged, exactly where the installer may not announce.
///
/// # Errors
///
/// Where memory is wanting, which is taken first: the book is unchanged.
pub fn begin(
    alloc: Global,
    book: &mut Book,
    node: Node,
    seat: u32,
) -> Result<Option<Batch>, NoMemory>
    requires node { IsNode book.old.plan.settings node }
    requires seat { IsSeat book.old seat (installer_of node) }
    requires room { held book.old + 1 ≤ book.old.spare }
    ensures may { IfOk result (λ found. IfSome found (λ batch. CanAnnounce book.old.plan (now book.old) node)) }
    ensures batch { IfOk result (λ found. IfSome found (λ batch. batch ≡ drop (installed_of book.old.plan (now book.old) node) (programme_of book.old.plan (now book.old) node))) }
    ensures announced { IfOk result (λ found. IfSome found (λ batch. book.new ≡ with_line book.old seat (Event.Announce node (length (programme_of book.old.plan (now book.old) node))))) }
    ensures none { IfOk result (λ found. IfNone found (CanAnnounce book.old.plan (now book.old) node → ⊥)) }
    ensures unchanged { IfOk result (λ found. IfNone found (book.new ≡ book.old)) }
    ensures err { OnErr result (book.new ≡ book.old) }
{
    if may_announce(book, node) {
        let from = book.installed(node) as usize;
        let batch = Batch::make(alloc, &book.programme(node)[from..])?;
        book.announce(seat, node);
        Ok(Some(batch))
    } else {
        Ok(None)
    }
}

/// Applies the operations of a batch, in their order.
///
/// # Errors
///
/// Where memory is wanting; then some operations of the batch are applied, from the first on, and the others are not.
pub fn apply<T: Tables>(alloc: Global, tables: &mut T, batch: &Batch) -> Result<(), NoMemory>
    requires { length (T.ops tables.old) + length batch.now < 2 ^ 32 }
    ensures ok { OnOk result (T.ops tables.new ≡ T.ops tables.old ++ batch.now) }
    ensures err { OnErr result (IsStopped (T.ops tables.old) batch.now (T.ops tables.new)) }
    ensures origin { T.origin tables.new ≡ T.origin tables.old }
{
    for op in batch.ops() {
        tables.apply(alloc, *op)?;
    }
    Ok(())
}

/// Says that the node has installed what it announced, up to `at` operations. By then the caller has applied the batch that
/// [`begin`] gave.
pub fn end(book: &mut Book, node: Node, at: u32, seat: u32)
    requires seat { IsSeat book.old seat (installer_of node) }
    requires announced { at ≡ announced_of book.old.plan (now book.old) node }
    requires ready { CanInstall book.old.plan (now book.old) node }
    requires room { held book.old + 1 ≤ book.old.spare }
    ensures { book.new ≡ with_line book.old seat (Event.Installed node at) }
{
    let _ = at;
    book.settle_install(seat, node);
}
