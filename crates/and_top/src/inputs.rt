//! Reading the two files of a job.
ghost use Rattle.std.specs.Prelude.{◌≡◌, IfOk, IfErr};
ghost use Rattle.and_top.specs.Outside.{Calls, Stays};
ghost use Rattle.and_top.specs.Inputs.{fault_of_read, fault_of_scenario, fault_of_capture, ScenarioAt, CaptureAt, ScenarioFails, CaptureFails};

use crate::answers::{Fault, Which};
use crate::{MAX_CAPTURE_LEN, MAX_SCENARIO_LEN};
use and_capture::{Capture, CaptureFault, read_capture};
use and_events::Scenario;
use and_outside::{Files, ReadAnswer};
use and_script::{ScenarioFault, read_scenario};
use std::alloc::Global;

/// The fault of a read that did not succeed.
fn read_fault(which: Which, answer: ReadAnswer) -> Fault
    ensures { result ≡ fault_of_read which answer }
{
    match answer {
        ReadAnswer::Failed => Fault::Read(which),
        ReadAnswer::TooLong => Fault::TooLong(which),
        ReadAnswer::NoMemory => Fault::NoMemory,
    }
}

/// The fault of a refused scenario. Want of memory stays want of memory.
fn scenario_fault(fault: ScenarioFault) -> Fault
    ensures { result ≡ fault_of_scenario fault }
{
    match fault {
        ScenarioFault::NoMemory => Fault::NoMemory,
        fault => Fault::Scenario(fault),
    }
}

/// The fault of a refused capture. Want of memory stays want of memory.
fn capture_fault(fault: CaptureFault) -> Fault
    ensures { result ≡ fault_of_capture fault }
{
    match fault {
        CaptureFault::NoMemory => Fault::NoMemory,
        fault => Fault::Capture(fault),
    }
}

/// The scenario of the file of this name.
pub(crate) fn scenario_in<F: Files>(
    alloc: Global,
    name: &str,
    files: &mut F,
) -> Result<Scenario, Fault>
    ensures stays { Stays (F.disk files.old) (F.disk files.new) }
    ensures call { Calls 1 (F.disk files.old) (F.disk files.new) }
    ensures found { IfOk result (λ s. ScenarioAt (F.disk files.old) name.now s) }
    ensures refused { IfErr result (λ e. ScenarioFails 1 (F.disk files.old) (F.disk files.new) name.now e) }
{
    let bytes = match files.read(alloc, name, MAX_SCENARIO_LEN) {
        Ok(bytes) => bytes,
        Err(answer) => return Err(read_fault(Which::Scenario, answer)),
    };
    match read_scenario(alloc, &bytes) {
        Ok(scenario) => Ok(scenario),
        Err(fault) => Err(scenario_fault(fault)),
    }
}

/// The capture of the file of this name.
pub(crate) fn capture_in<F: Files>(
    alloc: Global,
    name: &str,
    files: &mut F,
) -> Result<Capture, Fault>
    ensures stays { Stays (F.disk files.old) (F.disk files.new) }
    ensures call { Calls 1 (F.disk files.old) (F.disk files.new) }
    ensures found { IfOk result (λ c. CaptureAt (F.disk files.old) name.now c) }
    ensures refused { IfErr result (λ e. CaptureFails 1 (F.disk files.old) (F.disk files.new) name.now e) }
{
    let bytes = match files.read(alloc, name, MAX_CAPTURE_LEN) {
        Ok(bytes) => bytes,
        Err(answer) => return Err(read_fault(Which::Capture, answer)),
    };
    match read_capture(alloc, &bytes) {
        Ok(capture) => Ok(capture),
        Err(fault) => Err(capture_fault(fault)),
    }
}
