//! Traces with one line changed, and what the plain program must say of them.
ghost use Rattle.std.specs.Prelude.{◌<◌};

use crate::folder::file_of;
use crate::judging::{answered, events_of, line_of, plan_of};
use and_events::{Event, Plan};
use and_outside::Files;
use and_plain::first_illegal;
use and_plain_fates::{is_fresh, is_just};
use anyhow::{Result, bail};
use std::alloc::Global;

/// A line of the table.
#[derive(Clone, Copy)]
pub struct Change<'a> {
    /// The folder whose trace is changed.
    pub row: &'a str,
    /// The number of the changed line, from 1.
    line: usize,
    /// What stands there in its place; `-` is nothing, and `+ TEXT` this line before it.
    text: &'a str,
    /// What must be said of the changed trace.
    wanted: &'a str,
}

/// The change that a line of the table tells; nothing where it is none.
pub fn change_of<'a>(line: &'a str) -> Option<Change<'a>> {
    let (row, rest) = line.split_once('\t')?;
    let (number, rest) = rest.split_once('\t')?;
    let (text, rest) = rest.split_once('\t')?;
    let (wanted, _) = rest.split_once('\t')?;
    Some(Change {
        row,
        line: number.parse::<usize>().ok()?,
        text,
        wanted,
    })
}

/// Puts the line and its line feed at the end.
fn put_line(text: &mut String, line: &str) -> Result<()> {
    text.push_str(line)?;
    text.push_str("\n")?;
    Ok(())
}

/// Puts what stands in place of a line at the end.
fn put_changed(text: &mut String, line: &str, changed: &str) -> Result<()> {
    if changed == "-" {
        return Ok(());
    }
    if let Some(before) = changed.strip_prefix("+ ") {
        put_line(text, before)?;
        return put_line(text, line);
    }
    put_line(text, changed)
}

/// The trace with the change.
fn changed(alloc: Global, trace: &str, change: Change<'_>) -> Result<String> {
    let mut text = String::new(alloc);
    for (place, line) in trace.lines().enumerate() {
        if place.saturating_add(1) == change.line {
            put_changed(&mut text, line, change.text)?;
        } else {
            put_line(&mut text, line)?;
        }
    }
    Ok(text)
}

/// Whether the reasons of the packet's fates end at a line, and its decisions are fresh up to the changed line.
fn loses_reason(
    alloc: Global,
    plan: &Plan,
    events: &[Event],
    packet: u32,
    line: usize,
    changed: usize,
) -> Result<bool> {
    let before = answered(is_just(alloc, plan, up_to(events, line.saturating_sub(1)), packet))?;
    let there = answered(is_just(alloc, plan, up_to(events, line), packet))?;
    let fresh = answered(is_fresh(alloc, plan, up_to(events, changed), packet))?;
    Ok(before && !there && fresh)
}

/// Whether the packet's decisions are fresh up to a line and not with it, and its fates have their reasons.
fn grows_stale(
    alloc: Global,
    plan: &Plan,
    events: &[Event],
    packet: u32,
    line: usize,
) -> Result<bool> {
    let before = answered(is_fresh(alloc, plan, up_to(events, line.saturating_sub(1)), packet))?;
    let there = answered(is_fresh(alloc, plan, up_to(events, line), packet))?;
    let just = answered(is_just(alloc, plan, up_to(events, line), packet))?;
    Ok(before && !there && just)
}

/// The events up to the line of this number.
fn up_to(events: &[Event], line: usize) -> &[Event] {
    let count = line.saturating_sub(1);
    if count < events.len() {
        &events[..count]
    } else {
        events
    }
}

/// The packet and the line that the words name.
fn packet_and_line(words: &str) -> Result<(u32, usize)> {
    let Some((packet, line)) = words.split_once(' ') else {
        bail!("no packet and line: {words}");
    };
    Ok((packet.parse::<u32>()?, line.parse::<usize>()?))
}

/// Whether the plain program says of the events what the change wants.
fn is_as_wanted(alloc: Global, plan: &Plan, events: &[Event], change: Change<'_>) -> Result<bool>
    requires { 0 < plan.now.settings.gateways }
{
    if let Some(line) = change.wanted.strip_prefix("illegal ") {
        let line = line.parse::<usize>()?;
        let found = answered(first_illegal(alloc, plan, events))?;
        return Ok(found.is_some_and(|place| line_of(place) == line));
    }
    if let Some(words) = change.wanted.strip_prefix("unjust ") {
        let (packet, line) = packet_and_line(words)?;
        return loses_reason(alloc, plan, events, packet, line, change.line);
    }
    if let Some(words) = change.wanted.strip_prefix("stale ") {
        let (packet, line) = packet_and_line(words)?;
        return grows_stale(alloc, plan, events, packet, line);
    }
    let wanted = change.wanted;
    bail!("no answer of the plain program: {wanted}")
}

/// A file of the change's folder.
fn given<F: Files>(
    alloc: Global,
    files: &mut F,
    change: Change<'_>,
    name: &str,
) -> Result<Vec<u8>> {
    let row = change.row;
    match file_of(alloc, files, row, name)? {
        Some(bytes) => Ok(bytes),
        None => bail!("no file {row}/{name}"),
    }
}

/// Whether the plain program says of the changed trace what the change wants.
pub fn spoils<F: Files>(alloc: Global, files: &mut F, change: Change<'_>) -> Result<bool> {
    let scenario = given(alloc, files, change, "scenario.json")?;
    let capture = given(alloc, files, change, "capture.pcap")?;
    let trace = given(alloc, files, change, "out.trace")?;
    let plan = plan_of(alloc, scenario.as_slice(), capture.as_slice())?;
    let trace = String::from_utf8_lossy(alloc, trace.as_slice())?;
    let trace = changed(alloc, trace.as_str(), change)?;
    let events = events_of(alloc, trace.as_str().as_bytes())?;
    is_as_wanted(alloc, &plan, events.as_slice(), change)
}
