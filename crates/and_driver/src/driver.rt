//! The turns of the driver and of the controller.
ghost use Rattle.std.specs.Prelude.{◌≡◌, ◌↔◌, ◌+◌, ◌<◌, ◌≤◌, IsTrue, false, length, IfOk, OnOk, OnErr, IsOk, Some, slice_get, slice_index_or};
ghost use Rattle.and_events.specs.declared.event.Actor.TheVariants.{Controller, Driver};
ghost use Rattle.and_events.specs.Legal.{Enabled};
ghost use Rattle.and_events.specs.State.{no_packet};
ghost use Rattle.and_policy.specs.Frames.{fields};
ghost use Rattle.and_book.specs.Views.{now, held, IsSeat};
ghost use Rattle.and_driver.specs.Driving.{DoesStep, Unpins};

use and_book::Book;
use and_events::{Actor, Items, Packet, Step};
use and_parcel::Parcel;
use and_policy::NoMemory;
use std::alloc::Global;

// A parcel of the frame of a packet.
fn parcel_of(alloc: Global, packets: &Items<Packet>, packet: u32) -> Result<Parcel, NoMemory>
    requires there { packet < length packets.now }
    requires read { IsOk (fields (slice_index_or packets.now packet no_packet).taken.frame) }
    ensures number { IfOk result (λ p. p.packet ≡ packet) }
    ensures frame { IfOk result (λ p. p.frame ≡ (slice_index_or packets.now packet no_packet).taken.frame) }
    ensures vm { IfOk result (λ p. p.vm ≡ (slice_index_or packets.now packet no_packet).vm) }
{
    match packets.get(packet as usize) {
        Some(found) => Parcel::make(alloc, found.taken.frame.as_bytes(), packet, found.vm),
        None => unreachable!(),
    }
}

// The step that is due.
fn due_step(book: &Book) -> Step
    requires { Enabled book.now.plan (now book.now) Driver }
    ensures { slice_get book.now.plan.steps (now book.now).next ≡ Some result }
{
    match book.next_step() {
        Some(step) => step,
        None => unreachable!(),
    }
}

// The step that is due is done.
fn drive(alloc: Global, book: &mut Book, seat: u32) -> Result<(), NoMemory>
    requires seat { IsSeat book.old seat Driver }
    requires enabled { Enabled book.old.plan (now book.old) Driver }
    requires room { held book.old + 1 ≤ book.old.spare }
    ensures done { OnOk result (DoesStep book.old book.new seat) }
    ensures err { OnErr result (book.new ≡ book.old) }
{
    book.is_run();
    match due_step(book) {
        Step::Append(_) => {
            book.append(seat);
            Ok(())
        }
        Step::Review => {
            book.prepare(alloc)?;
            book.review(seat);
            Ok(())
        }
        Step::Inject { packet } => {
            let parcel = parcel_of(alloc, &book.plan().packets, packet)?;
            book.inject(seat, parcel);
            Ok(())
        }
        Step::Hold { .. } => {
            book.hold(seat);
            Ok(())
        }
        Step::Free { .. } => {
            book.free(seat);
            Ok(())
        }
        Step::Blackout { .. } => {
            book.blackout(seat);
            Ok(())
        }
        Step::Resume { .. } => {
            book.resume(seat);
            Ok(())
        }
        Step::Wait => {
            book.wait(seat);
            Ok(())
        }
        Step::Finish => {
            book.finish(seat);
            Ok(())
        }
    }
}

/// Does the next step of the plan, and answers true; false, with the book unchanged, exactly where the driver may not act.
///
/// # Errors
///
/// Where memory for the packet's parcel or for a review's orders is wanting: the book is unchanged.
pub fn turn(alloc: Global, book: &mut Book, seat: u32) -> Result<bool, NoMemory>
    requires seat { IsSeat book.old seat Driver }
    requires room { held book.old + 1 ≤ book.old.spare }
    ensures may { IfOk result (λ done. IsTrue done ↔ Enabled book.old.plan (now book.old) Driver) }
    ensures done { IfOk result (λ done. IsTrue done → DoesStep book.old book.new seat) }
    ensures idle { IfOk result (λ done. done ≡ false → book.new ≡ book.old) }
    ensures err { OnErr result (book.new ≡ book.old) }
{
    if !book.enabled(Actor::Driver) {
        return Ok(false);
    }
    drive(alloc, book, seat)?;
    Ok(true)
}

/// Ends the hairpin that is the next to end, and answers true; false, with the book unchanged, exactly where the controller may not act.
///
/// # Errors
///
/// Where memory is wanting: the book is unchanged. None is taken.
pub fn control(alloc: Global, book: &mut Book, seat: u32) -> Result<bool, NoMemory>
    requires seat { IsSeat book.old seat Controller }
    requires room { held book.old + 1 ≤ book.old.spare }
    ensures may { IfOk result (λ done. IsTrue done ↔ Enabled book.old.plan (now book.old) Controller) }
    ensures done { IfOk result (λ done. IsTrue done → Unpins book.old book.new seat) }
    ensures idle { IfOk result (λ done. done ≡ false → book.new ≡ book.old) }
    ensures err { OnErr result (book.new ≡ book.old) }
{
    let _ = alloc;
    match book.next_hairpin() {
        Some((host, vm)) => {
            book.unpin(seat, host, vm);
            Ok(true)
        }
        None => Ok(false),
    }
}
