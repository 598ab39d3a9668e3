//! Lists that change at one place.
ghost use Rattle.std.specs.Prelude.{◌≡◌, slice_set, slice_index_or, ◌++◌, ◌∷◌, [], OnOk, IfOk, IsTrue, ◌↔◌, replicate};
ghost use Rattle.and_events.specs.Flow as flows;

use and_events::Items;
use and_policy::NoMemory;
use std::alloc::Global;

/// Puts an item at a place. A place past the end changes nothing.
#[tactic(auto, using(std::proofs::lemmas::List::set_past))]
pub(crate) fn set_at<T: Copy>(items: &mut Vec<T>, at: usize, item: T)
    ensures { items.new.items ≡ slice_set items.old.items at item }
{
    if at < items.len() {
        items[at] = item;
    }
}

/// The item at a place, or another where the list has none there.
pub(crate) fn at_or<T: Copy>(items: &[T], at: usize, or: T) -> T
    ensures { result ≡ slice_index_or items.now at or }
{
    match items.get(at) {
        Some(item) => *item,
        None => or,
    }
}

/// Puts an item at the end of the list at a place. A place past the end changes nothing.
#[tactic(auto, using(std::proofs::lemmas::List::set_past, std::proofs::lemmas::List::get_or_read))]
pub(crate) fn push_at<T: Copy>(rows: &mut Vec<Items<T>>, at: usize, item: T) -> Result<(), NoMemory>
    ensures ok { OnOk result (rows.new.items ≡ slice_set rows.old.items at (slice_index_or rows.old.items at [] ++ item ∷ [])) }
{
    if at >= rows.len() {
        return Ok(());
    }
    let row = &mut rows[at];
    row.push(item)
}

/// Takes the first packet of a queue away.
#[tactic(auto, using(std::proofs::lemmas::List::set_past, std::proofs::lemmas::List::get_or_read))]
pub(crate) fn pop_at(queues: &mut Vec<Items<u32>>, queue: usize)
    ensures { queues.new.items ≡ flows.popped queues.old.items queue }
{
    if queue >= queues.len() {
        return;
    }
    let entry = &mut queues[queue];
    entry.drop_first();
}

/// The list at a place; an empty one where there is none.
pub fn row_at<T>(rows: &[Items<T>], at: usize) -> &[T]
    ensures { result.now ≡ slice_index_or rows.now at [] }
{
    match rows.get(at) {
        Some(row) => row.as_slice(),
        None => &[],
    }
}

/// So many times the item.
#[tactic(auto, using(std::proofs::lemmas::Grind::replicate_next))]
pub(crate) fn filled<T: Copy>(alloc: Global, item: T, count: usize) -> Result<Vec<T>, NoMemory>
    ensures ok { IfOk result (λ items. items.items ≡ replicate count item) }
{
    let mut items = Vec::new(alloc);
    for at in 0..count {
        if items.push(item).is_err() {
            return Err(NoMemory);
        }
    }
    Ok(items)
}

/// So many lists, each with so many times the item.
#[tactic(auto, using(std::proofs::lemmas::Grind::replicate_next))]
pub(crate) fn make_rows<T: Copy>(
    alloc: Global,
    count: usize,
    width: usize,
    item: T,
) -> Result<Vec<Items<T>>, NoMemory>
    ensures ok { IfOk result (λ rows. rows.items ≡ replicate count (replicate width item)) }
{
    let mut rows = Vec::new(alloc);
    for at in 0..count {
        let row = filled(alloc, item, width)?;
        if rows.push(Items::from_vec(row)).is_err() {
            return Err(NoMemory);
        }
    }
    Ok(rows)
}

/// Whether both hold.
pub fn both(a: bool, b: bool) -> bool
    ensures { IsTrue result ↔ (IsTrue a × IsTrue b) }
{
    a && b
}
