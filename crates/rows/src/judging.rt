//! What the plain program says of a trace: whether its events are a run of the plan, and whether each packet's fate has its reason.
ghost use Rattle.std.specs.Prelude.{◌<◌, IfOk};

use and_capture::read_capture;
use and_events::{Event, Plan};
use and_plain::first_illegal;
use and_plain_fates::{fates, is_complete, is_fresh, is_in_plain_order, is_just};
use and_planner::plan;
use and_policy::NoMemory;
use and_script::read_scenario;
use and_trace::{TraceAnswer, read_trace};
use anyhow::{Result, bail};
use std::alloc::Global;

/// The longest trace that is read, in bytes.
const LONGEST_TRACE: usize = 536_870_912;

/// What is asked of a trace.
#[derive(Clone, Copy, PartialEq, Eq)]
pub enum Asked {
    /// That it is a whole run in the plain order, in which each packet has one fate.
    Run,
    /// That it is the beginning of a run, in whatever order.
    Beginning,
}

/// The answer of the plain program, which gives none only for want of memory.
pub fn answered<T: Drop>(answer: Result<T, NoMemory>) -> Result<T> {
    match answer {
        Ok(value) => Ok(value),
        Err(_) => bail!("no memory"),
    }
}

/// The plan of a scenario and a capture.
#[tactic(auto, using(and_top::proofs::PlansLemmas::can_plan))]
pub fn plan_of(alloc: Global, scenario: &[u8], capture: &[u8]) -> Result<Plan>
    ensures { IfOk result (λ p. 0 < p.settings.gateways) }
{
    let Ok(scenario) = read_scenario(alloc, scenario) else {
        bail!("the scenario is refused");
    };
    let Ok(capture) = read_capture(alloc, capture) else {
        bail!("the capture is refused");
    };
    let Ok(plan) = plan(alloc, scenario, capture) else {
        bail!("no memory");
    };
    if plan.settings.gateways == 0 {
        bail!("there is no gateway");
    }
    Ok(plan)
}

/// The events of a trace, oldest first.
pub fn events_of(alloc: Global, trace: &[u8]) -> Result<Vec<Event>> {
    if LONGEST_TRACE < trace.len() {
        bail!("the trace is too long");
    }
    match read_trace(alloc, trace) {
        Ok(events) => Ok(events),
        Err(TraceAnswer::Bad(fault)) => {
            let line = fault.line;
            bail!("line {line} is in no trace")
        }
        Err(TraceAnswer::NoMemory) => bail!("no memory"),
    }
}

/// The number of the line that has the event of this place, from 0: the first line of a trace has none.
pub fn line_of(place: usize) -> usize {
    place.saturating_add(2)
}

/// The first of the packet's tests that fails: one fate where the run is whole, and none or one else; a reason for it; fresh decisions.
fn fault_of_packet(
    alloc: Global,
    plan: &Plan,
    events: &[Event],
    asked: Asked,
    packet: u32,
) -> Result<Option<&'static str>> {
    let count = answered(fates(alloc, events, packet))?.len();
    if 1 < count || (asked == Asked::Run && count == 0) {
        return Ok(Some("has not one fate"));
    }
    if !answered(is_just(alloc, plan, events, packet))? {
        return Ok(Some("has no reason for its fate"));
    }
    if !answered(is_fresh(alloc, plan, events, packet))? {
        return Ok(Some("has a decision that is not fresh"));
    }
    Ok(None)
}

/// The first packet that fails a test, and the test.
fn fault_of_packets(
    alloc: Global,
    plan: &Plan,
    events: &[Event],
    asked: Asked,
) -> Result<Option<String>> {
    for packet in 0..u32::try_from(plan.packets.len())? {
        if let Some(fault) = fault_of_packet(alloc, plan, events, asked, packet)? {
            return Ok(Some(format!(in alloc; "packet {packet} {fault}")?));
        }
    }
    Ok(None)
}

/// The first test of a whole run that fails.
fn fault_of_whole(alloc: Global, plan: &Plan, events: &[Event]) -> Result<Option<String>> {
    if !answered(is_complete(alloc, plan, events))? {
        return Ok(Some(String::from_str(alloc, "it is not complete")?));
    }
    if !answered(is_in_plain_order(alloc, plan, events))? {
        return Ok(Some(String::from_str(alloc, "it is not in the plain order")?));
    }
    Ok(None)
}

/// The first test that the events fail, or nothing.
pub fn fault_of(
    alloc: Global,
    plan: &Plan,
    events: &[Event],
    asked: Asked,
) -> Result<Option<String>>
    requires { 0 < plan.now.settings.gateways }
{
    if let Some(place) = answered(first_illegal(alloc, plan, events))? {
        let line = line_of(place);
        return Ok(Some(format!(in alloc; "line {line} is not legal")?));
    }
    if asked == Asked::Run {
        let fault = fault_of_whole(alloc, plan, events)?;
        if fault.is_some() {
            return Ok(fault);
        }
    }
    fault_of_packets(alloc, plan, events, asked)
}

/// The first test that a trace fails as one of this scenario and this capture, or nothing.
pub fn judge(
    alloc: Global,
    scenario: &[u8],
    capture: &[u8],
    trace: &[u8],
    asked: Asked,
) -> Result<Option<String>> {
    let plan = plan_of(alloc, scenario, capture)?;
    let events = events_of(alloc, trace)?;
    fault_of(alloc, &plan, events.as_slice(), asked)
}
