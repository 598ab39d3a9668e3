//! The report's lines on packets that rules and routes dropped.
ghost use Rattle.std.specs.Prelude.{◌≡◌, ◌++◌, List, string_bytes, OnOk, IfOk};
ghost use Rattle.std.specs.List.{flat_map};
ghost use Rattle.and_report.specs.declared.fate.Key as keys;
ghost use Rattle.and_report.specs.Report as reports;
ghost use Rattle.and_report.specs.Keys as spec;

use crate::fate::Stage;
use crate::keyed::Drops;
use crate::rows::put_counted;
use and_policy::NoMemory;
use std::alloc::Global;

// The name of a line on an egress rule.
#[tactic(auto, using(crate::proofs::Texts::egress_words))]
fn egress_name(alloc: Global, net: u32, number: u32) -> Result<String, NoMemory>
    ensures { IfOk result (λ name. string_bytes name ≡ reports.egress_name (record { net = net; number = number })) }
{
    match format!(in alloc; "drop egress {net} rule {number}") {
        Ok(name) => Ok(name),
        Err(_) => Err(NoMemory),
    }
}

// The name of a line on the implied verdict of ingress.
#[tactic(auto, using(crate::proofs::Texts::implied_words))]
fn implied_name(alloc: Global, net: u32) -> Result<String, NoMemory>
    ensures { IfOk result (λ name. string_bytes name ≡ reports.implied_name (record { net = net; number = 0 })) }
{
    match format!(in alloc; "drop ingress {net} implied") {
        Ok(name) => Ok(name),
        Err(_) => Err(NoMemory),
    }
}

// The name of a line on an ingress rule.
#[tactic(auto, using(crate::proofs::Texts::rule_words))]
fn rule_name(alloc: Global, net: u32, number: u32) -> Result<String, NoMemory>
    ensures { IfOk result (λ name. string_bytes name ≡ reports.rule_name (record { net = net; number = number })) }
{
    match format!(in alloc; "drop ingress {net} rule {number}") {
        Ok(name) => Ok(name),
        Err(_) => Err(NoMemory),
    }
}

// The name of a line on a route.
#[tactic(auto, using(crate::proofs::Texts::route_words))]
fn route_name(alloc: Global, net: u32, number: u32) -> Result<String, NoMemory>
    ensures { IfOk result (λ name. string_bytes name ≡ reports.route_name (record { net = net; number = number })) }
{
    match format!(in alloc; "drop route {net} {number}") {
        Ok(name) => Ok(name),
        Err(_) => Err(NoMemory),
    }
}

// The name of a line on ingress: number 0 is the implied verdict.
fn ingress_name(alloc: Global, net: u32, number: u32) -> Result<String, NoMemory>
    ensures { IfOk result (λ name. string_bytes name ≡ reports.ingress_name (record { net = net; number = number })) }
{
    if number == 0 {
        implied_name(alloc, net)
    } else {
        rule_name(alloc, net, number)
    }
}

// The name of a keyed line.
fn name_of(alloc: Global, stage: Stage, net: u32, number: u32) -> Result<String, NoMemory>
    ensures { IfOk result (λ name. string_bytes name ≡ spec.stage_name stage (record { net = net; number = number })) }
{
    match stage {
        Stage::Egress => egress_name(alloc, net, number),
        Stage::Ingress => ingress_name(alloc, net, number),
        Stage::Route => route_name(alloc, net, number),
    }
}

// Puts the line of a key and its count.
fn put_key(
    alloc: Global,
    text: &mut Vec<u8>,
    stage: Stage,
    key: (u32, u32),
    count: u64,
) -> Result<(), NoMemory>
    ensures { OnOk result (text.new.items ≡ text.old.items ++ spec.entry_line stage (key, count)) }
{
    let name = name_of(alloc, stage, key.0, key.1)?;
    put_counted(alloc, name.as_str(), count, text)
}

// Puts the lines of all keys, in order.
fn put_keys(alloc: Global, text: &mut Vec<u8>, stage: Stage, drops: &Drops) -> Result<(), NoMemory>
    ensures { OnOk result (text.new.items ≡ text.old.items ++ flat_map (spec.entry_line stage) drops.now.entries) }
{
    for (key, count) in drops {
        put_key(alloc, text, stage, *key, *count)?;
    }
    Ok(())
}

/// Puts a line for each rule or route that dropped packets at this stage, in order.
pub(crate) fn put_stage(
    alloc: Global,
    text: &mut Vec<u8>,
    stage: Stage,
    drops: &Drops,
) -> Result<(), NoMemory>
    ensures { OnOk result ((ks : List keys.Key) → drops.now.entries ≡ spec.tallied ks → text.new.items ≡ text.old.items ++ reports.keyed_lines (spec.stage_line stage) ks) }
{
    put_keys(alloc, text, stage, drops)?;
    Ok(())
}
