//! The items of a script.
ghost use Rattle.std.specs.Prelude.{◌≡◌, ℕ, option_map};
ghost use Rattle.serde_json.specs.View.{view};
ghost use Rattle.serde_json.specs.Find.{get};
ghost use Rattle.and_script.specs.Tables.{text_in, has_peer};
ghost use Rattle.and_script.specs.Grammar as grammar;
ghost use Rattle.and_script.specs.Answers.{Says};

use crate::fields::read_members;
use crate::refusal::Refusal;
use crate::tables::{Cause, Command, Given, Toward, command_of, item_rows};
use and_events::Item;
use and_policy::{Entry, Route, Rule, Side, Target};
use serde_json::Value;
use std::alloc::Global;

/// An item as it is written: its command, what its fields give, and the VM that it names.
#[derive(Drop)]
pub(crate) struct Draft<'a> {
    pub(crate) command: Command,
    pub(crate) values: Vec<Given>,
    pub(crate) name: Option<&'a str>,
}

/// The text of an object's field.
pub(crate) fn text_field<'a>(object: &'a Value, name: &str) -> Option<&'a str>
    ensures { option_map (λ s. s.now) result ≡ text_in (get name.now (view object.now)) }
{
    match object.get(name) {
        Some(value) => value.as_str(),
        None => None,
    }
}

/// Whether the object's target is the text `peer`.
fn has_peer(object: &Value) -> bool
    ensures { result ≡ has_peer (view object.now) }
{
    match text_field(object, "target") {
        Some(text) => text == "peer",
        None => false,
    }
}

/// A rule may seal what it allows to leave, and nothing else.
fn seals_wrongly(command: Command, values: &[Given]) -> bool
    ensures { result ≡ grammar.seals_wrongly command values.now }
{
    match (command, values) {
        (
            Command::AddRule,
            [
                _,
                _,
                _,
                Given::Sided(side),
                Given::Allows(allow),
                _,
                _,
                _,
                _,
                _,
                Given::Allows(true),
            ],
        ) => { !may_seal(*side, *allow) }
        _ => false,
    }
}

fn may_seal(side: Side, allow: bool) -> bool
    ensures { result ≡ grammar.may_seal side allow }
{
    match side {
        Side::Egress => allow,
        Side::Ingress => false,
    }
}

fn target_by(toward: Toward, values: &[Given]) -> Target
    ensures { result ≡ grammar.target_by toward values.now }
{
    match (toward, values) {
        (Toward::ToDrop, _) => Target::Drop,
        (Toward::ToPeer, [Given::Number(peer)]) => Target::Peer(*peer),
        _ => Target::Local,
    }
}

/// The item that adds the VM of this number.
fn vm_item(vm: u32, values: &[Given]) -> Item
    ensures { result ≡ grammar.item_with vm Command.AddVm values.now }
{
    match values {
        [
            Given::Named,
            Given::Number(net),
            Given::Address(mac),
            Given::Number(ip),
            Given::Number(host),
        ] => {
            Item::Entry(Entry::AddVm {
                vm,
                net: *net,
                mac: *mac,
                ip: *ip,
                host: *host,
            })
        }
        _ => Item::Wait,
    }
}

/// The item that adds a rule.
fn rule_item(values: &[Given]) -> Item
    ensures { (vm : ℕ) → result ≡ grammar.item_with vm Command.AddRule values.now }
{
    match values {
        [
            Given::Number(net),
            Given::Number(number),
            Given::Priority(priority),
            Given::Sided(side),
            Given::Allows(allow),
            Given::OfProtocol(protocol),
            Given::Within(source),
            Given::Within(destination),
            Given::Between {
                low: source_low,
                high: source_high,
            },
            Given::Between {
                low: destination_low,
                high: destination_high,
            },
            Given::Allows(sealed),
        ] => Item::Entry(Entry::AddRule {
            net: *net,
            rule: Rule {
                number: *number,
                priority: *priority,
                side: *side,
                allow: *allow,
                sealed: *sealed,
                protocol: *protocol,
                source: *source,
                destination: *destination,
                source_low: *source_low,
                source_high: *source_high,
                destination_low: *destination_low,
                destination_high: *destination_high,
            },
        }),
        _ => Item::Wait,
    }
}

/// The item that adds a route.
fn route_item(values: &[Given]) -> Item
    ensures { (vm : ℕ) → result ≡ grammar.item_with vm Command.AddRoute values.now }
{
    match values {
        [
            Given::Number(net),
            Given::Number(number),
            Given::Within(prefix),
            Given::Going(toward),
            rest @ ..,
        ] => {
            Item::Entry(Entry::AddRoute {
                net: *net,
                route: Route {
                    number: *number,
                    prefix: *prefix,
                    target: target_by(*toward, rest),
                },
            })
        }
        _ => Item::Wait,
    }
}

/// The item, whose VM has this number.
pub(crate) fn item_with(vm: u32, command: Command, values: &[Given]) -> Item
    ensures { result ≡ grammar.item_with vm command values.now }
{
    match (command, values) {
        (Command::AddVm, _) => vm_item(vm, values),
        (Command::AddRule, _) => rule_item(values),
        (Command::AddRoute, _) => route_item(values),
        (Command::AddNet, [Given::Number(net)]) => Item::Entry(Entry::AddNet { net: *net }),
        (Command::RemoveVm, [Given::Named]) => Item::Entry(Entry::RemoveVm { vm }),
        (Command::DelRule, [Given::Number(net), Given::Number(number)]) => Item::Entry(
            Entry::DelRule {
                net: *net,
                number: *number,
            },
        ),
        (Command::DelRoute, [Given::Number(net), Given::Number(number)]) => Item::Entry(
            Entry::DelRoute {
                net: *net,
                number: *number,
            },
        ),
        (Command::Tick, []) => Item::Entry(Entry::Tick),
        (Command::Wait, []) => Item::Wait,
        (Command::Send, [Given::Number(frames)]) => Item::Send {
            frames: Some(*frames),
        },
        (Command::Send, [Given::Absent]) => Item::Send { frames: None },
        (Command::Blackout, [Given::Named, Given::Number(host)]) => Item::Blackout {
            vm,
            host: *host,
        },
        (Command::Resume, [Given::Named]) => Item::Resume { vm },
        (Command::Hold, [Given::At(node), Given::Holding(what)]) => Item::Hold {
            node: *node,
            what: *what,
        },
        (Command::Free, [Given::At(node), Given::Holding(what)]) => Item::Free {
            node: *node,
            what: *what,
        },
        _ => Item::Wait,
    }
}

/// An item as it is written, or the first check that fails.
pub(crate) fn read_item<'a>(alloc: Global, value: &'a Value) -> Result<Draft<'a>, Refusal<'a>>
    ensures { Says (λ d. record { command = d.command; values = d.values.items; name = option_map (λ s. s.now) d.name }) result (grammar.item_of (view value.now)) }
{
    if value.as_object().is_none() {
        return Err(Refusal::Whole {
            cause: Cause::Field,
        });
    }
    let Some(text) = text_field(value, "do") else {
        return Err(Refusal::At {
            cause: Cause::Field,
            name: "do",
        });
    };
    let Some(command) = command_of(text) else {
        return Err(Refusal::At {
            cause: Cause::Unknown,
            name: "do",
        });
    };
    let rows = item_rows(command, has_peer(value));
    let values = match read_members(alloc, true, rows, value) {
        Ok(values) => values,
        Err(refusal) => return Err(refusal),
    };
    if seals_wrongly(command, values.as_slice()) {
        return Err(Refusal::At {
            cause: Cause::Range,
            name: "sealed",
        });
    }
    Ok(Draft {
        command,
        values,
        name: text_field(value, "vm"),
    })
}
