//! What the top call is asked for, and how it can fail.

use and_capture::CaptureFault;
use and_replay::Turns;
use and_script::ScenarioFault;

/// A file of a job, or its report.
#[derive(Debug, Clone, Copy, PartialEq, Eq)]
pub enum Which {
    /// The scenario, which is read.
    Scenario,
    /// The capture, which is read.
    Capture,
    /// The trace of the run.
    Trace,
    /// The capture of all frames that were delivered.
    Delivered,
    /// The capture of all packets of the underlay.
    Underlay,
    /// The report, which goes to the sink.
    Report,
}

/// Why a job was not done: the first failure in the order of the work.
#[derive(Drop)]
pub enum Fault {
    /// The scenario was refused. Want of memory is never answered so.
    Scenario(ScenarioFault),
    /// The capture was refused. Want of memory is never answered so.
    Capture(CaptureFault),
    /// A file could not be read.
    Read(Which),
    /// A file or the report could not be written.
    Write(Which),
    /// A file is longer than its limit.
    TooLong(Which),
    /// Memory ran out, wherever that was.
    NoMemory,
}

/// What to replay.
#[derive(Debug, Drop)]
pub struct Job {
    /// The name of the scenario's file.
    pub scenario: String,
    /// The name of the capture's file.
    pub capture: String,
    /// What the names of all files that are written begin with.
    pub out: String,
    /// The order of the turns.
    pub turns: Turns,
}
