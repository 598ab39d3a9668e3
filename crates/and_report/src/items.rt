//! The lines of refused items.
ghost use Rattle.std.specs.Prelude.{◌≡◌, ◌++◌, OnOk};
ghost use Rattle.std.specs.List.{flat_map};
ghost use Rattle.and_report.specs.Report as report;

use crate::rows::put;
use and_events::ItemFault;
use and_policy::{EntryFault, NoMemory};
use std::alloc::Global;

fn entry_fault_name(fault: EntryFault) -> &'static str
    ensures { result.now ≡ report.entry_fault_name fault }
{
    match fault {
        EntryFault::NoNet => "NoNet",
        EntryFault::NetTaken => "NetTaken",
        EntryFault::NoVm => "NoVm",
        EntryFault::VmTaken => "VmTaken",
        EntryFault::MacTaken => "MacTaken",
        EntryFault::AddressTaken => "AddressTaken",
        EntryFault::NoHost => "NoHost",
        EntryFault::NoRule => "NoRule",
        EntryFault::RuleTaken => "RuleTaken",
        EntryFault::NoRoute => "NoRoute",
        EntryFault::RouteTaken => "RouteTaken",
        EntryFault::TooMany => "TooMany",
    }
}

fn fault_name(fault: ItemFault) -> &'static str
    ensures { result.now ≡ report.fault_name fault }
{
    match fault {
        ItemFault::Entry(fault) => entry_fault_name(fault),
        ItemFault::Held => "Held",
        ItemFault::Paused => "Paused",
        ItemFault::NotPaused => "NotPaused",
        ItemFault::SameHost => "SameHost",
        ItemFault::NoNode => "NoNode",
        ItemFault::HoldTaken => "HoldTaken",
        ItemFault::NoHold => "NoHold",
    }
}

#[tactic(auto, using(crate::proofs::Texts::item_text))]
fn put_item(alloc: Global, item: u32, fault: ItemFault, text: &mut Vec<u8>) -> Result<(), NoMemory>
    ensures { OnOk result (text.new.items ≡ text.old.items ++ report.item_line (item, fault)) }
{
    let name = fault_name(fault);
    match format!(in alloc; "item {item} {name}\n") {
        Ok(line) => put(text, line.as_bytes()),
        Err(_) => Err(NoMemory),
    }
}

/// Puts the lines of the refused items.
pub(crate) fn put_items(
    alloc: Global,
    refused: &[(u32, ItemFault)],
    text: &mut Vec<u8>,
) -> Result<(), NoMemory>
    ensures { OnOk result (text.new.items ≡ text.old.items ++ flat_map report.item_line refused.now) }
{
    for r in refused {
        put_item(alloc, r.0, r.1, text)?;
    }
    Ok(())
}
