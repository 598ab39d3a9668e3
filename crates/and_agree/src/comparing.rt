//! The operations of tables beside those of a programme.
ghost use Rattle.std.specs.Prelude.{◌≡◌, ◌≢◌, ◌<◌, ◌≤◌, true, false, length, take, IfSome, IfNone};
ghost use Rattle.and_events.specs.Places.{IsNode};
ghost use Rattle.and_events.specs.State.{programme_of, announced_of};
ghost use Rattle.and_book.specs.Views.{now};
ghost use Rattle.and_agree.specs.Agreeing.{Tells, DifferAt};

use and_book::Book;
use and_events::Node;
use and_policy::{Entry, Op, Order, Route, Rule, Tables};

/// What became of a packet that an actor was to settle by its decision.
#[derive(Debug, Clone, Copy, PartialEq, Eq)]
pub enum Settled {
    /// The packet is settled.
    Done,
    /// The decision stands on more operations than were announced, which are so many.
    Early { announced: u32 },
    /// The decision stands on other operations than the book's. At this place, counted from 1, is the first that differs.
    Differs { at: u32, table: Op, book: Op },
}

// Whether two rules are the same.
fn is_same_rule(a: &Rule, b: &Rule) -> bool
    ensures same { result ≡ true → a.now ≡ b.now }
    ensures other { result ≡ false → a.now ≢ b.now }
{
    a == b
}

// Whether two routes are the same.
fn is_same_route(a: &Route, b: &Route) -> bool
    ensures same { result ≡ true → a.now ≡ b.now }
    ensures other { result ≡ false → a.now ≢ b.now }
{
    a == b
}

// Whether two orders are the same.
fn is_same_order(a: &Order, b: &Order) -> bool
    ensures same { result ≡ true → a.now ≡ b.now }
    ensures other { result ≡ false → a.now ≢ b.now }
{
    a == b
}

// Whether two entries are the same.
fn is_same_entry(a: &Entry, b: &Entry) -> bool
    ensures same { result ≡ true → a.now ≡ b.now }
    ensures other { result ≡ false → a.now ≢ b.now }
{
    match a {
        Entry::AddNet { net } => matches!(b, Entry::AddNet { net: n } if *n == *net),
        Entry::AddVm {
            vm,
            net,
            mac,
            ip,
            host,
        } =>
            matches!(b, Entry::AddVm { vm: v, net: n, mac: m, ip: i, host: h } if *v == *vm && *n == *net && *m == *mac && *i == *ip && *h == *host),
        Entry::RemoveVm { vm } => matches!(b, Entry::RemoveVm { vm: v } if *v == *vm),
        Entry::Place { vm, host } =>
            matches!(b, Entry::Place { vm: v, host: h } if *v == *vm && *h == *host),
        Entry::AddRule { net, rule } =>
            matches!(b, Entry::AddRule { net: n, rule: r } if *n == *net && is_same_rule(rule, r)),
        Entry::DelRule { net, number } =>
            matches!(b, Entry::DelRule { net: n, number: k } if *n == *net && *k == *number),
        Entry::AddRoute { net, route } =>
            matches!(b, Entry::AddRoute { net: n, route: r } if *n == *net && is_same_route(route, r)),
        Entry::DelRoute { net, number } =>
            matches!(b, Entry::DelRoute { net: n, number: k } if *n == *net && *k == *number),
        Entry::Tick => matches!(b, Entry::Tick),
    }
}

// Whether two operations are the same.
fn is_same(a: &Op, b: &Op) -> bool
    ensures same { result ≡ true → a.now ≡ b.now }
    ensures other { result ≡ false → a.now ≢ b.now }
{
    match a {
        Op::Entry(entry) => matches!(b, Op::Entry(e) if is_same_entry(entry, e)),
        Op::Offload(order) => matches!(b, Op::Offload(o) if is_same_order(order, o)),
    }
}

// The first place, counted from 0, where the lists differ, whose first `from` elements are the same.
fn first_difference(tables: &[Op], programme: &[Op], from: usize) -> Option<usize>
    requires longer { length tables.now ≤ length programme.now }
    requires same { take from tables.now ≡ take from programme.now }
    ensures none { IfNone result (take (length tables.now) programme.now ≡ tables.now) }
    ensures some { IfSome result (λ k. DifferAt tables.now programme.now k) }
{
    for place in from..tables.len() {
        if !is_same(&tables[place], &programme[place]) {
            return Some(place);
        }
    }
    None
}

/// What a decision by these tables at the node is to the book: `Done` exactly where all operations of the tables are announced and are the first
/// ones of the node's programme. The first `compared` of them are known to be, and are not looked at again.
pub fn compare<T: Tables>(book: &Book, node: Node, tables: &T, compared: u32) -> Settled
    requires node { IsNode book.now.plan.settings node }
    requires agree { take compared (T.ops tables.now) ≡ take compared (programme_of book.now.plan (now book.now) node) }
    ensures { Tells (announced_of book.now.plan (now book.now) node) (T.ops tables.now) (programme_of book.now.plan (now book.now) node) result }
{
    book.is_run();
    let announced = book.announced(node);
    if announced < tables.at() {
        return Settled::Early { announced };
    }
    let ops = tables.ops();
    let programme = book.programme(node);
    match first_difference(ops, programme, compared as usize) {
        Some(place) => Settled::Differs {
            at: place as u32 + 1,
            table: ops[place],
            book: programme[place],
        },
        None => Settled::Done,
    }
}
