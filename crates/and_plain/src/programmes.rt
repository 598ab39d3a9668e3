//! The log, and what each node is programmed with.
ghost use Rattle.std.specs.Prelude.{◌≡◌, ◌++◌, ◌∷◌, [], ◌≤◌, OnOk, map, take, drop, length};
ghost use Rattle.and_policy.specs.declared.entry.Op.TheVariants as ops;
ghost use Rattle.and_events.specs.Programming as spec;
ghost use Rattle.and_events.specs.Programming.{programmes_after};

use crate::rows::{push_at, set_at};
use and_events::Items;
use and_policy::{Entry, NoMemory, Op};
use std::marker::Model;

/// The log; the programme of each node; how long each programme was at the node's last announcement, and how much is installed.
#[derive(Drop)]
pub struct Programmes {
    pub(crate) log: Vec<Entry>,
    pub(crate) ops: Vec<Items<Op>>,
    pub(crate) announced: Vec<u32>,
    pub(crate) installed: Vec<u32>,
}

impl Model for Programmes {
    ghost use Rattle.and_events.specs.Programming as spec;

    ghost Value = { spec.Programmes };

    ghost view = { λ p. record { log = p.log.items; ops = p.ops.items; announced = p.announced.items; installed = p.installed.items } };
}

// Puts the operation at the end of the first `count` programmes.
#[tactic(auto, using(crate::proofs::RowLemmas::push_last))]
fn push_first(programmes: &mut Vec<Items<Op>>, count: usize, op: Op) -> Result<(), NoMemory>
    requires { count ≤ length programmes.old.items }
    ensures ok { OnOk result (programmes.new.items ≡ map (λ programme. programme ++ op ∷ []) (take count programmes.old.items) ++ drop count programmes.old.items) }
{
    if count == 0 {
        return Ok(());
    }
    let last = count - 1;
    push_first(programmes, last, op)?;
    push_at(programmes, last, op)?;
    Ok(())
}

// Puts the operation at the end of every programme.
fn push_all(programmes: &mut Vec<Items<Op>>, op: Op) -> Result<(), NoMemory>
    ensures ok { OnOk result (programmes.new.items ≡ map (λ programme. programme ++ op ∷ []) programmes.old.items) }
{
    let count = programmes.len();
    push_first(programmes, count, op)
}

/// The log and every programme get the entry.
#[tactic(auto, unfolding(and_events::specs::Programming::programmes_after))]
pub(crate) fn logs(p: &mut Programmes, entry: Entry) -> Result<(), NoMemory>
    ensures ok { OnOk result (p.new ≡ programmes_after p.old (spec.Logs entry)) }
{
    if p.log.push(entry).is_err() {
        return Err(NoMemory);
    }
    push_all(&mut p.ops, Op::Entry(entry))
}

/// The node has announced so much.
#[tactic(auto, unfolding(and_events::specs::Programming::programmes_after))]
pub(crate) fn announces(p: &mut Programmes, node: usize, upto: u32)
    ensures { p.new ≡ programmes_after p.old (spec.Announces node upto) }
{
    set_at(&mut p.announced, node, upto);
}

/// The node has installed so much.
#[tactic(auto, unfolding(and_events::specs::Programming::programmes_after))]
pub(crate) fn installs(p: &mut Programmes, node: usize, upto: u32)
    ensures { p.new ≡ programmes_after p.old (spec.Installs node upto) }
{
    set_at(&mut p.installed, node, upto);
}
