//! Scenarios, whole.
ghost use Rattle.std.specs.Prelude.{◌≡◌, ◌≤◌, ◌++◌, ◌∷◌, [], ℕ, List, Some, Ok, IfOk, IfErr, OnErr, option_map, length, codes, map, Err};
ghost use Rattle.std.specs.Fmt.{decimal};
ghost use Rattle.serde_json.specs.Data.{Data, Items};
ghost use Rattle.serde_json.specs.Find.{get, as_array, as_object};
ghost use Rattle.serde_json.specs.View.{view, items_view};
ghost use Rattle.and_script.specs.Grammar as grammar;
ghost use Rattle.and_script.specs.Tables.{top_rows};
ghost use Rattle.and_planner.specs.Scenarios.{IsScenario};
ghost use Rattle.and_script.specs.Defaults.{HasDefaults};
ghost use Rattle.and_script.specs.Answers.{Says, RefusesAt, Tells, TellsOf, IsText, IsFault, IsFaultOr, spot_of, TopFault, ItemFault};

use crate::fault::ScenarioFault;
use crate::fields::read_members;
use crate::names::Names;
use crate::refusal::Refusal;
use crate::script::{Refused, read_items};
use crate::tables::{Cause, Given, top_rows};
use and_capture::Bytes;
use and_events::{Items, Scenario, Settings};
use and_policy::NoMemory;
use serde_json::Value;
use std::alloc::Global;

/// The most items of a script.
const MAX_ITEMS: usize = 65_536;

/// The JSON value of the bytes. An error where they are not read as JSON, and where memory is wanting.
pub fn read_value(alloc: Global, bytes: &[u8]) -> Result<Value, ScenarioFault>
    ensures found { IfOk result (λ v. grammar.IsJson bytes.now (view v)) }
    ensures refused { IfErr result (TellsOf bytes.now) }
{
    match Value::from_slice(alloc, bytes) {
        Ok(value) => Ok(value),
        Err(error) => if error.is_memory() {
            Err(ScenarioFault::NoMemory)
        } else {
            Err(ScenarioFault::NotJson)
        },
    }
}

/// What the top fields give.
fn read_top<'a>(alloc: Global, value: &'a Value) -> Result<Vec<Given>, Refusal<'a>>
    ensures { Says (λ v. v.items) result (grammar.top_in (view value.now) (as_object (view value.now))) }
{
    let rows = top_rows();
    match value.as_object() {
        Some(_) => read_members(alloc, false, rows, value),
        None => Err(Refusal::Whole {
            cause: Cause::Field,
        }),
    }
}

/// The settings that the top fields give.
fn settings_by(values: &[Given]) -> Settings
    ensures { result ≡ grammar.settings_by values.now }
{
    match values {
        [
            Given::Number(hosts),
            Given::Number(gateways),
            Given::Number(workers),
            Given::Number(hop_limit),
            Given::Number(out_queue),
            Given::Number(wire_queue),
            Given::Number(seal_queue),
            Given::Number(threshold),
            Given::Number(life),
            ..
        ] => Settings {
            hosts: *hosts,
            gateways: *gateways,
            workers: *workers,
            hop_limit: *hop_limit,
            out_queue: *out_queue,
            wire_queue: *wire_queue,
            seal_queue: *seal_queue,
            threshold: *threshold as u64,
            life: *life,
        },
        _ => Settings {
            hosts: 0,
            gateways: 0,
            workers: 0,
            hop_limit: 0,
            out_queue: 0,
            wire_queue: 0,
            seal_queue: 0,
            threshold: 0,
            life: 0,
        },
    }
}

/// The items of the script, where the object has one.
fn script_of(value: &Value) -> &[Value]
    ensures { items_view result.now ≡ grammar.script_in (get (codes "script") (view value.now)) }
{
    let Some(script) = value.get("script") else {
        return &[];
    };
    match script.as_array() {
        Some(list) => list.as_slice(),
        None => &[],
    }
}

/// The fault of a cause, at a path.
fn fault_at(cause: Cause, path: Bytes) -> ScenarioFault
    ensures { (place : grammar.Place) → path ≡ grammar.path_of place → IsFault result cause place }
{
    match cause {
        Cause::Field => ScenarioFault::Field { path },
        Cause::Unknown => ScenarioFault::Unknown { path },
        Cause::Range => ScenarioFault::Range { path },
        Cause::Limit => ScenarioFault::Limit { path },
    }
}

/// The fault of a cause, at a path of these bytes.
fn fault_of(alloc: Global, cause: Cause, path: &[u8]) -> ScenarioFault
    ensures { (place : grammar.Place) → path.now ≡ grammar.path_of place → IsFaultOr result cause place }
{
    match Bytes::make(alloc, path) {
        Ok(path) => fault_at(cause, path),
        Err(_) => ScenarioFault::NoMemory,
    }
}

/// The fault at the top value, or at its field.
fn at_top(alloc: Global, cause: Cause, name: Option<&str>) -> ScenarioFault
    ensures { IsFaultOr result cause (grammar.Top (spot_of (option_map (λ s. s.now) name.entry))) }
{
    match name {
        Some(name) => match format!(in alloc; "/{name}") {
            Ok(path) => fault_of(alloc, cause, path.as_bytes()),
            Err(_) => ScenarioFault::NoMemory,
        },
        None => fault_of(alloc, cause, b""),
    }
}

/// The fault in an item, or at its field.
fn in_item(alloc: Global, item: usize, cause: Cause, name: Option<&str>) -> ScenarioFault
    ensures { IsFaultOr result cause (grammar.InItem item (spot_of (option_map (λ s. s.now) name.entry))) }
{
    match name {
        Some(name) => match format!(in alloc; "/script/{item}/{name}") {
            Ok(path) => fault_of(alloc, cause, path.as_bytes()),
            Err(_) => ScenarioFault::NoMemory,
        },
        None => match format!(in alloc; "/script/{item}") {
            Ok(path) => fault_of(alloc, cause, path.as_bytes()),
            Err(_) => ScenarioFault::NoMemory,
        },
    }
}

/// The fault of a refusal at the top.
fn top_fault(alloc: Global, refusal: Refusal) -> ScenarioFault
    ensures { TopFault result refusal.entry }
{
    match refusal {
        Refusal::At { cause, name } => at_top(alloc, cause, Some(name)),
        Refusal::Whole { cause } => at_top(alloc, cause, None),
        Refusal::NoMemory => ScenarioFault::NoMemory,
    }
}

/// The fault of a refusal in an item.
fn item_fault(alloc: Global, refused: Refused) -> ScenarioFault
    ensures { ItemFault result refused.entry.item refused.entry.refusal }
{
    match refused.refusal {
        Refusal::At { cause, name } => in_item(alloc, refused.item, cause, Some(name)),
        Refusal::Whole { cause } => in_item(alloc, refused.item, cause, None),
        Refusal::NoMemory => ScenarioFault::NoMemory,
    }
}

/// The settings and the script of a scenario: its items, and the names of their VMs.
fn read_script(
    alloc: Global,
    settings: Settings,
    script: &[Value],
) -> Result<Scenario, ScenarioFault>
    ensures found { IfOk result (λ s. grammar.scripted settings (items_view script.now) ≡ Ok s) }
    ensures refused { IfErr result (λ e. Tells e (grammar.scripted settings (items_view script.now))) }
{
    if MAX_ITEMS < script.len() {
        return Err(at_top(alloc, Cause::Limit, Some("script")));
    }
    let mut names = Names::new(alloc);
    let mut items = Vec::new(alloc);
    if let Err(refused) = read_items(alloc, script, &mut names, &mut items) {
        return Err(item_fault(alloc, refused));
    }
    match names.into_items(alloc) {
        Ok(names) => Ok(Scenario {
            settings,
            names,
            items: Items::from_vec(items),
        }),
        Err(_) => Err(ScenarioFault::NoMemory),
    }
}

/// The scenario that a JSON value is, or the first check that fails.
fn scenario_in(alloc: Global, value: &Value) -> Result<Scenario, ScenarioFault>
    ensures found { IfOk result (λ s. grammar.scenario_of (view value.now) ≡ Ok s) }
    ensures refused { IfErr result (λ e. Tells e (grammar.scenario_of (view value.now))) }
{
    let values = match read_top(alloc, value) {
        Ok(values) => values,
        Err(refusal) => return Err(top_fault(alloc, refusal)),
    };
    read_script(alloc, settings_by(values.as_slice()), script_of(value))
}

/// The scenario that a JSON value is, or the first check that fails. A plan can be made of it; settings that it leaves out
/// have their defaults.
pub fn scenario_of(alloc: Global, value: &Value) -> Result<Scenario, ScenarioFault>
    ensures found { IfOk result (λ s. grammar.scenario_of (view value.now) ≡ Ok s) }
    ensures fits { IfOk result (λ s. IsScenario s) }
    ensures defaults { IfOk result (λ s. HasDefaults (view value.now) s.settings) }
    ensures refused { IfErr result (λ e. Tells e (grammar.scenario_of (view value.now))) }
{
    scenario_in(alloc, value)
}

/// Reads a scenario: a JSON text whose fields and items are those of the tables. The first check that fails is answered with its
/// path. A plan can be made of what is read: its numbers are in their ranges, it names at most 65,536 VMs, each VM's number is
/// that of a name, and no item places a VM.
pub fn read_scenario(alloc: Global, bytes: &[u8]) -> Result<Scenario, ScenarioFault>
    ensures found { IfOk result (λ s. IsText bytes.now s) }
    ensures fits { IfOk result (λ s. IsScenario s) }
    ensures refused { IfErr result (λ e. TellsOf bytes.now e) }
{
    let value = read_value(alloc, bytes)?;
    scenario_of(alloc, &value)
}
