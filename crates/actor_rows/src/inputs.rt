//! What is planned: five entries, and one packet.
ghost use Rattle.std.specs.Prelude.{◌≤◌, length, IfOk};
ghost use Rattle.and_events.specs.Sound.{IsSound};
ghost use Rattle.and_planner.specs.Scenarios.{IsScenario};

use and_capture::{Bytes, Capture, Frames, Taken};
use and_events::{Plan, Scenario};
use and_planner::plan;
use and_policy::NoMemory;
use and_script::read_scenario;
use std::alloc::Global;

/// Two VMs of one network at one host, of which `b` takes TCP to port 80, and then takes TCP to port 81 too; a frame is sent.
const SCENARIO: &str = r#"{"hosts":1,"gateways":1,"script":[{"do":"add_net","net":7},
{"do":"add_vm","vm":"a","net":7,"mac":"02:00:00:00:00:01","ip":"10.0.0.1","host":0},
{"do":"add_vm","vm":"b","net":7,"mac":"02:00:00:00:00:02","ip":"10.0.0.2","host":0},
{"do":"add_rule","net":7,"number":1,"priority":100,"side":"ingress","action":"allow",
"protocol":"tcp","destination_ports":[80,80]},
{"do":"add_rule","net":7,"number":2,"priority":100,"side":"ingress","action":"allow",
"protocol":"tcp","destination_ports":[81,81]},{"do":"send"}]}"#;

/// A TCP frame of `a` from 10.0.0.1 port 4096 to 10.0.0.2 port 80.
const FRAME: [u8; 54] = [
    0x02, 0x00, 0x00, 0x00, 0x00, 0x02, 0x02, 0x00, 0x00, 0x00, 0x00, 0x01, 0x08, 0x00, 0x45, 0x00,
    0x00, 0x28, 0x00, 0x00, 0x40, 0x00, 0x40, 0x06, 0x26, 0xce, 0x0a, 0x00, 0x00, 0x01, 0x0a, 0x00,
    0x00, 0x02, 0x10, 0x00, 0x00, 0x50, 0x00, 0x00, 0x00, 0x01, 0x00, 0x00, 0x00, 0x00, 0x50, 0x02,
    0x20, 0x00, 0x00, 0x00, 0x00, 0x00,
];

/// Why there is no row.
pub(crate) enum Fault {
    /// The scenario is none that the system can run so far.
    Scenario,
    /// Memory ran out.
    NoMemory,
}

// The frame, as it was captured.
fn taken(alloc: Global) -> Result<Taken, NoMemory> {
    let frame = Bytes::make(alloc, &FRAME).map_err(|_| NoMemory)?;
    Ok(Taken {
        seconds: 1,
        fraction: 2,
        original: 54,
        frame,
    })
}

// A capture of the frame.
fn capture(alloc: Global) -> Result<Capture, NoMemory>
    ensures { IfOk result (λ c. length c.frames ≤ 100000) }
{
    let mut frames = Frames::new(alloc);
    frames.push(taken(alloc)?).map_err(|_| NoMemory)?;
    Ok(Capture {
        nanos: false,
        frames,
    })
}

// The scenario.
fn scenario(alloc: Global) -> Result<Scenario, Fault>
    ensures { IfOk result (λ s. IsScenario s) }
{
    match read_scenario(alloc, SCENARIO.as_bytes()) {
        Ok(scenario) => Ok(scenario),
        Err(_) => Err(Fault::Scenario),
    }
}

/// The plan of both.
pub(crate) fn planned(alloc: Global) -> Result<Plan, Fault>
    ensures { IfOk result (λ p. IsSound p) }
{
    let scenario = scenario(alloc)?;
    let Ok(capture) = capture(alloc) else {
        return Err(Fault::NoMemory);
    };
    match plan(alloc, scenario, capture) {
        Ok(plan) => Ok(plan),
        Err(_) => Err(Fault::NoMemory),
    }
}
