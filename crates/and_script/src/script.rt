//! The items of a script, in order.
ghost use Rattle.std.specs.Prelude.{◌≡◌, ◌+◌, ◌≤◌, ◌++◌, ◌∷◌, [], ℕ, List, length, Ok, OnOk, IfOk, IfErr, option_map};
ghost use Rattle.serde_json.specs.View.{items_view};
ghost use Rattle.and_script.specs.Grammar as grammar;
ghost use Rattle.and_script.specs.Answers.{RefusesAt};

use crate::items::{item_with, read_item};
use crate::names::Names;
use crate::refusal::Refusal;
use and_events::Item;
use serde_json::Value;
use std::alloc::Global;

/// A refusal in the item of this number.
#[derive(Clone, Copy)]
pub(crate) struct Refused<'a> {
    pub(crate) item: usize,
    pub(crate) refusal: Refusal<'a>,
}

/// The number of the VM that an item names; 0 where it names none.
fn vm_number(alloc: Global, names: &mut Names, name: Option<&str>) -> Result<u32, Refusal<'static>>
    requires { length names.old ≤ 65536 }
    ensures number { OnOk result (names.new ≡ grammar.with_name names.old (option_map (λ s. s.now) name.entry)) }
    ensures value { IfOk result (λ n. n ≡ grammar.number_of names.old (option_map (λ s. s.now) name.entry)) }
    ensures more { length names.new ≤ length names.old + 1 }
    ensures memory { IfErr result (λ e. e ≡ Refusal.NoMemory) }
{
    match name {
        Some(name) => match names.number(alloc, name) {
            Ok(number) => Ok(number),
            Err(_) => Err(Refusal::NoMemory),
        },
        None => Ok(0),
    }
}

/// The items of the list, and the names of their VMs.
pub(crate) fn read_items<'a>(
    alloc: Global,
    list: &'a [Value],
    names: &mut Names,
    items: &mut Vec<Item>,
) -> Result<(), Refused<'a>>
    requires few { length list.now ≤ 65536 }
    requires no_names { names.old ≡ [] }
    requires no_items { items.old.items ≡ [] }
    ensures found { OnOk result ((ws : List grammar.Written) × (grammar.items_of 0 (items_view list.now) ≡ Ok ws)
        × (names.new ≡ grammar.names_from [] ws) × (items.new.items ≡ grammar.items_from [] ws)) }
    ensures refused { IfErr result (λ r. RefusesAt r.item r.refusal (grammar.items_of 0 (items_view list.now))) }
{
    let mut item = 0usize;
    for value in list {
        let draft = match read_item(alloc, value) {
            Ok(draft) => draft,
            Err(refusal) => return Err(Refused { item, refusal }),
        };
        let vm = match vm_number(alloc, names, draft.name) {
            Ok(vm) => vm,
            Err(refusal) => return Err(Refused { item, refusal }),
        };
        if items
            .push(item_with(vm, draft.command, draft.values.as_slice()))
            .is_err()
        {
            return Err(Refused {
                item,
                refusal: Refusal::NoMemory,
            });
        }
        item += 1;
    }
    Ok(())
}
