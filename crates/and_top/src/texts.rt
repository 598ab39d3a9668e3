//! What a replay writes: its trace, its two captures and its report.
ghost use Rattle.std.specs.Prelude.{IfOk};
ghost use Rattle.and_planner.specs.Plans.{CanPlan};
ghost use Rattle.and_top.specs.Texts.{AreTexts};

use and_capture::Capture;
use and_events::Scenario;
use and_outputs::{delivered_capture, underlay_capture};
use and_planner::plan;
use and_policy::NoMemory;
use and_replay::{Turns, replay_run};
use and_report::report_text;
use and_trace::print_trace;
use std::alloc::Global;

/// What a replay writes, before any of it is written.
#[derive(Drop)]
pub(crate) struct Texts {
    /// The trace.
    pub(crate) trace: Vec<u8>,
    /// The capture of the frames that were delivered.
    pub(crate) delivered: Vec<u8>,
    /// The capture of the packets of the underlay.
    pub(crate) underlay: Vec<u8>,
    /// The report.
    pub(crate) report: Vec<u8>,
}

/// Runs the plan of a scenario and a capture to its end, and writes what happened.
pub(crate) fn texts_of(
    alloc: Global,
    scenario: Scenario,
    capture: Capture,
    turns: Turns,
) -> Result<Texts, NoMemory>
    requires { CanPlan scenario capture }
    ensures { IfOk result (λ texts. AreTexts scenario capture texts) }
{
    let plan = plan(alloc, scenario, capture)?;
    let book = replay_run(alloc, plan, turns)?;
    let trace = print_trace(alloc, book.lines())?;
    let delivered = delivered_capture(alloc, book.plan(), book.lines())?;
    let underlay = underlay_capture(alloc, book.plan(), book.lines())?;
    let report = report_text(alloc, book.plan(), book.lines())?;
    Ok(Texts {
        trace,
        delivered,
        underlay,
        report,
    })
}
