//! How much was sent since the last review, and what a review orders.
ghost use Rattle.std.specs.Prelude.{◌≡◌, ◌++◌, ◌∷◌, [], OnOk, IfOk};
ghost use Rattle.and_events.specs.Usage as spec;
ghost use Rattle.and_events.specs.Programming as programming;

use crate::log::now;
use crate::rows::push_at;
use and_events::{Items, Settings};
use and_policy::plain::routed;
use and_policy::{Entry, NoMemory, Op, Order, Routed, UsageKey};
use std::alloc::Global;
use std::marker::Model;

/// The bytes of a key.
#[derive(Drop)]
pub struct Used {
    pub(crate) key: UsageKey,
    pub(crate) bytes: u64,
}

impl Model for Used {
    ghost use Rattle.and_events.specs.Usage as spec;

    ghost Value = { spec.Used };

    ghost view = { λ u. record { key = u.key; bytes = u.bytes } };
}

fn is_same_key(a: &UsageKey, b: &UsageKey) -> bool
    ensures { result ≡ spec.same_key a.now b.now }
{
    a.host == b.host && a.net == b.net && a.ip == b.ip
}

fn is_before(a: &UsageKey, b: &UsageKey) -> bool
    ensures { result ≡ spec.key_before a.now b.now }
{
    a.host < b.host || (a.host == b.host && (a.net < b.net || (a.net == b.net && a.ip < b.ip)))
}

// Puts it at the end.
fn put(all: &mut Vec<Used>, key: UsageKey, bytes: u64) -> Result<(), NoMemory>
    ensures ok { OnOk result (all.new.items ≡ all.old.items ++ record { key = key; bytes = bytes } ∷ []) }
{
    match all.push(Used { key, bytes }) {
        Ok(()) => Ok(()),
        Err(_) => Err(NoMemory),
    }
}

// Puts all of them at the end.
#[tactic(auto, using(std::proofs::Common::append_assoc))]
fn put_all(all: &mut Vec<Used>, usage: &[Used]) -> Result<(), NoMemory>
    ensures ok { OnOk result (all.new.items ≡ all.old.items ++ usage.now) }
{
    match usage {
        [] => Ok(()),
        [first, rest @ ..] => {
            put(all, first.key, first.bytes)?;
            put_all(all, rest)
        }
    }
}

// Puts the usage at the end, with so many bytes more for this key.
#[tactic(auto, using(std::proofs::Common::append_assoc))]
fn put_use(all: &mut Vec<Used>, key: UsageKey, bytes: u64, usage: &[Used]) -> Result<(), NoMemory>
    ensures ok { OnOk result (all.new.items ≡ all.old.items ++ spec.with_use key bytes usage.now) }
{
    match usage {
        [] => put(all, key, bytes),
        [first, rest @ ..] => {
            if is_same_key(&key, &first.key) {
                let Some(sum) = first.bytes.checked_add(bytes) else {
                    return Err(NoMemory);
                };
                put(all, key, sum)?;
                return put_all(all, rest);
            }
            if is_before(&key, &first.key) {
                put(all, key, bytes)?;
                return put_all(all, usage);
            }
            put(all, first.key, first.bytes)?;
            put_use(all, key, bytes, rest)
        }
    }
}

/// The usage in the order of its keys, with so many bytes more for this key.
pub(crate) fn with_use(
    alloc: Global,
    key: UsageKey,
    bytes: u64,
    usage: &[Used],
) -> Result<Vec<Used>, NoMemory>
    ensures ok { IfOk result (λ all. all.items ≡ spec.with_use key bytes usage.now) }
{
    let mut all = Vec::new(alloc);
    put_use(&mut all, key, bytes, usage)?;
    Ok(all)
}

// Gives the order for a key, where it has as many bytes as the threshold and its route gives a network with an owner of
// the address.
fn give_order(
    settings: &Settings,
    log: &[Entry],
    used: &Used,
    programmes: &mut Vec<Items<Op>>,
) -> Result<(), NoMemory>
    ensures ok { OnOk result (programmes.new.items ≡ programming.with_orders programmes.old.items (spec.orders_of settings.now log.now (used.now ∷ []))) }
{
    if used.bytes < settings.threshold {
        return Ok(());
    }
    let Routed::To { net, host, .. } = routed(log, used.key.net, used.key.ip) else {
        return Ok(());
    };
    let Some(until) = now(log).checked_add(settings.life as usize) else {
        return Err(NoMemory);
    };
    let Ok(until) = u32::try_from(until) else {
        return Err(NoMemory);
    };
    let order = Order {
        net: used.key.net,
        ip: used.key.ip,
        to_net: net,
        to_host: host,
        until,
    };
    push_at(programmes, used.key.host as usize, Op::Offload(order))
}

/// Gives the orders of a review, in key order.
pub(crate) fn give_orders(
    settings: &Settings,
    log: &[Entry],
    usage: &[Used],
    programmes: &mut Vec<Items<Op>>,
) -> Result<(), NoMemory>
    ensures ok { OnOk result (programmes.new.items ≡ programming.with_orders programmes.old.items (spec.orders_of settings.now log.now usage.now)) }
{
    match usage {
        [] => Ok(()),
        [first, rest @ ..] => {
            give_order(settings, log, first, programmes)?;
            give_orders(settings, log, rest, programmes)
        }
    }
}
