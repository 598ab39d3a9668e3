//! The replay of a scenario and the frames of a capture.
ghost use Rattle.std.specs.Prelude.{IfOk, IfErr, OnOk};
ghost use Rattle.std.specs.Bool.{OnTrue, OnFalse};
ghost use Rattle.and_top.specs.Outside.{Calls, Stays, LeavesOthers, WriteFailed};
ghost use Rattle.and_top.specs.Inputs.{ScenarioAt, CaptureAt, Refuses};
ghost use Rattle.and_top.specs.Statuses.{CanComplete, IsLate, MustRefuseScenario, MustRefuseCapture, RefusesScenario, RefusesCapture};
ghost use Rattle.and_top.specs.Answers.{Answers, Leaves, Stands, Writes, names_in};
ghost use Rattle.and_top.specs.Texts.{AreNames, outputs_of};
ghost use Rattle.and_top.specs.Words.{Named};

use crate::answers::{Fault, Job, Which};
use crate::inputs::{capture_in, scenario_in};
use crate::line::put;
use crate::texts::{Texts, texts_of};
use and_capture::Capture;
use and_events::Scenario;
use and_outside::{Files, Sink};
use std::alloc::{AllocError, Global};

/// The scenario and the capture of the job's files, the scenario first.
fn read_both<F: Files>(
    alloc: Global,
    job: &Job,
    files: &mut F,
) -> Result<(Scenario, Capture), Fault>
    ensures stays { Stays (F.disk files.old) (F.disk files.new) }
    ensures calls { OnOk result (Calls 2 (F.disk files.old) (F.disk files.new)) }
    ensures scenario { IfOk result (λ r. ScenarioAt (F.disk files.old) (names_in job.now).scenario r.0) }
    ensures capture { IfOk result (λ r. CaptureAt (F.disk files.old) (names_in job.now).capture r.1) }
    ensures refused { IfErr result (λ e. Refuses (names_in job.now) (F.disk files.old) (F.disk files.new) e) }
{
    let scenario = scenario_in(alloc, job.scenario.as_str(), files)?;
    let capture = capture_in(alloc, job.capture.as_str(), files)?;
    Ok((scenario, capture))
}

/// The names of the files that are written.
#[derive(Drop)]
struct Written {
    trace: String,
    delivered: String,
    underlay: String,
}

/// The names of the files that a job writes.
fn written_names(alloc: Global, out: &str) -> Result<Written, AllocError>
    ensures names { IfOk result (λ written. AreNames out.now written) }
{
    Ok(Written {
        trace: format!(in alloc; "{out}.trace")?,
        delivered: format!(in alloc; "{out}.delivered.pcap")?,
        underlay: format!(in alloc; "{out}.underlay.pcap")?,
    })
}

/// Writes one file, and says whether that was done.
fn write<F: Files>(files: &mut F, name: &str, bytes: &[u8]) -> bool
    ensures done { OnTrue result (Stands name.now (F.disk files.old) (F.disk files.new) bytes.now) }
    ensures failed { OnFalse result (WriteFailed 1 (F.disk files.old) (F.disk files.new)) }
    ensures call { Calls 1 (F.disk files.old) (F.disk files.new) }
    ensures leaves { LeavesOthers name.now (F.disk files.old) (F.disk files.new) }
{
    files.write(name, bytes).is_ok()
}

/// Writes the trace, the capture of what was delivered and that of the underlay, and then puts the report.
fn write_texts<F: Files, O: Sink>(
    names: &Written,
    texts: &Texts,
    files: &mut F,
    out: &mut O,
) -> Result<(), Fault>
    ensures leaves { (job : Named) → AreNames job.out names.now → Leaves job (F.disk files.old) (F.disk files.new) }
    ensures writes { (job : Named) → AreNames job.out names.now → Writes 1 job (F.disk files.old) (F.disk files.new)
        (O.stream out.old) (O.stream out.new) (outputs_of texts.now) result }
{
    if !write(files, names.trace.as_str(), &texts.trace) {
        return Err(Fault::Write(Which::Trace));
    }
    if !write(files, names.delivered.as_str(), &texts.delivered) {
        return Err(Fault::Write(Which::Delivered));
    }
    if !write(files, names.underlay.as_str(), &texts.underlay) {
        return Err(Fault::Write(Which::Underlay));
    }
    if put(out, &texts.report) {
        Ok(())
    } else {
        Err(Fault::Write(Which::Report))
    }
}

/// The work of a replay, up to its first failure.
fn work<F: Files, O: Sink>(
    alloc: Global,
    job: &Job,
    files: &mut F,
    out: &mut O,
) -> Result<(), Fault>
    ensures leaves { Leaves (names_in job.now) (F.disk files.old) (F.disk files.new) }
    ensures answer { Answers (names_in job.now) (F.disk files.old) (F.disk files.new)
        (O.stream out.old) (O.stream out.new) result }
{
    let (scenario, capture) = read_both(alloc, job, files)?;
    let Ok(names) = written_names(alloc, job.out.as_str()) else {
        return Err(Fault::NoMemory);
    };
    let Ok(texts) = texts_of(alloc, scenario, capture, job.turns) else {
        return Err(Fault::NoMemory);
    };
    write_texts(&names, &texts, files, out)
}

/// Replays the job's scenario over the frames of its capture: writes the trace of the run into the file `OUT.trace`, the capture of the
/// frames that were delivered into `OUT.delivered.pcap` and that of the packets of the underlay into `OUT.underlay.pcap`, and then puts
/// the report into the sink. The first failure in that order is answered, and no file is written before all four texts stand.
///
/// Each packet of the plan has exactly one fate in the history that the trace spells, for its reason, and by decisions no older
/// than what was installed when it was taken: that is what [`Ok`] and the faults of the writes say, of the contents of files and of
/// the sink where those are told.
///
/// Where both files are told, within their limits and accepted, and no read can have failed, it answers `Ok`, or that memory ran
/// out or that a write failed. Where the scenario is refused it answers that, by the first check that fails, or that memory ran out;
/// and so, after it, the capture.
pub fn replay<F: Files, O: Sink>(
    alloc: Global,
    job: &Job,
    files: &mut F,
    out: &mut O,
) -> Result<(), Fault>
    ensures leaves { Leaves (names_in job.now) (F.disk files.old) (F.disk files.new) }
    ensures answer { Answers (names_in job.now) (F.disk files.old) (F.disk files.new)
        (O.stream out.old) (O.stream out.new) result }
    ensures complete { CanComplete (names_in job.now) (F.disk files.old) (F.disk files.new) → IfErr result IsLate }
    ensures scenario { MustRefuseScenario (names_in job.now) (F.disk files.old) (F.disk files.new) → RefusesScenario result }
    ensures capture { MustRefuseCapture (names_in job.now) (F.disk files.old) (F.disk files.new) → RefusesCapture result }
{
    work(alloc, job, files, out)
}
