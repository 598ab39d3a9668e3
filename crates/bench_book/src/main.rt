//! A program to time runs by: it plans FRAMES copies of one frame that is delivered over two hosts and a gateway, runs the plan to its end, and
//! does so ROUNDS times; it writes how many lines the books of these runs had together.
//!
//! It promises nothing of that number, which the stored run shows. It stands on `and_script`, `and_planner` and `and_replay`.
#![tactic(auto)]

ghost use Rattle.std.specs.Prelude.{◌≤◌, length, IfOk};
ghost use Rattle.and_planner.specs.Plans.{CanPlan};
ghost use Rattle.and_planner.specs.Scenarios.{IsScenario};

use and_capture::{Bytes, Capture, Frames, Taken};
use and_events::Scenario;
use and_planner::plan;
use and_policy::NoMemory;
use and_replay::{Turns, replay_run};
use and_script::read_scenario;
use std::alloc::Global;
use std::process::ExitCode;
use std::{env, io};

const USAGE: &str = "usage: bench_book FRAMES ROUNDS, with at most 100000 frames";

/// The most frames of a plan.
const MOST_FRAMES: u32 = 100_000;

/// Two VMs on two hosts, of which `b` takes TCP to port 80, and all frames sent.
const SCENARIO: &str = r#"{"hosts":2,"gateways":1,"script":[{"do":"add_net","net":7},
{"do":"add_vm","vm":"a","net":7,"mac":"02:00:00:00:00:01","ip":"10.0.0.1","host":0},
{"do":"add_vm","vm":"b","net":7,"mac":"02:00:00:00:00:02","ip":"10.0.0.2","host":1},
{"do":"add_rule","net":7,"number":1,"priority":100,"side":"ingress","action":"allow",
"protocol":"tcp","destination_ports":[80,80]},{"do":"wait"},{"do":"send"}]}"#;

/// A TCP frame of `a` from 10.0.0.1 port 4096 to 10.0.0.2 port 80.
const FRAME: [u8; 54] = [
    0x02, 0x00, 0x00, 0x00, 0x00, 0x02, 0x02, 0x00, 0x00, 0x00, 0x00, 0x01, 0x08, 0x00, 0x45, 0x00,
    0x00, 0x28, 0x00, 0x00, 0x40, 0x00, 0x40, 0x06, 0x26, 0xce, 0x0a, 0x00, 0x00, 0x01, 0x0a, 0x00,
    0x00, 0x02, 0x10, 0x00, 0x00, 0x50, 0x00, 0x00, 0x00, 0x01, 0x00, 0x00, 0x00, 0x00, 0x50, 0x02,
    0x20, 0x00, 0x00, 0x00, 0x00, 0x00,
];

/// Why there is no run.
enum Fault {
    /// The scenario is none that the system can run so far.
    Scenario,
    /// Memory ran out.
    NoMemory,
}

/// The frame, as it was captured.
fn taken(alloc: Global) -> Result<Taken, NoMemory> {
    let frame = Bytes::make(alloc, &FRAME).map_err(|_| NoMemory)?;
    Ok(Taken {
        seconds: 1,
        fraction: 2,
        original: 54,
        frame,
    })
}

/// A capture of so many copies of the frame.
fn copies(alloc: Global, count: u32) -> Result<Capture, NoMemory>
    requires { count ≤ 100000 }
    ensures { IfOk result (λ c. length c.frames ≤ 100000) }
{
    let mut frames = Frames::new(alloc);
    for _ in 0..count {
        frames.push(taken(alloc)?).map_err(|_| NoMemory)?;
    }
    Ok(Capture {
        nanos: false,
        frames,
    })
}

/// The scenario.
fn scenario(alloc: Global) -> Result<Scenario, Fault>
    ensures { IfOk result (λ s. IsScenario s) }
{
    match read_scenario(alloc, SCENARIO.as_bytes()) {
        Ok(scenario) => Ok(scenario),
        Err(_) => Err(Fault::Scenario),
    }
}

/// Plans the scenario and the capture, and runs the plan; says how many lines the book has.
fn lines_of(alloc: Global, scenario: Scenario, capture: Capture) -> Result<u64, NoMemory>
    requires { CanPlan scenario capture }
{
    let plan = plan(alloc, scenario, capture)?;
    let book = replay_run(alloc, plan, Turns::Plain)?;
    Ok(book.lines().len() as u64)
}

/// One run with so many frames; says how many lines its book has.
fn run(alloc: Global, frames: u32) -> Result<u64, Fault>
    requires { frames ≤ 100000 }
{
    let scenario = scenario(alloc)?;
    let Ok(capture) = copies(alloc, frames) else {
        return Err(Fault::NoMemory);
    };
    match lines_of(alloc, scenario, capture) {
        Ok(lines) => Ok(lines),
        Err(_) => Err(Fault::NoMemory),
    }
}

/// So many runs; says how many lines their books have together.
fn runs(alloc: Global, frames: u32, rounds: u32) -> Result<u64, Fault>
    requires { frames ≤ 100000 }
{
    let mut sum: u64 = 0;
    for _ in 0..rounds {
        sum = sum.wrapping_add(run(alloc, frames)?);
    }
    Ok(sum)
}

/// The two numbers of the command line, after the program's name.
fn numbers(words: &[String]) -> Option<(u32, u32)> {
    match words {
        [_, frames, rounds] => Some((frames.parse().ok()?, rounds.parse().ok()?)),
        _ => None,
    }
}

fn main(rt: HostRuntime) -> io::Result<ExitCode> {
    let words: Vec<String> = env::args(&rt)?.collect(rt.alloc())?;
    let Some((frames, rounds)) = numbers(words.as_slice()) else {
        println!(rt; "{USAGE}")?;
        return Ok(ExitCode::from(1));
    };
    if MOST_FRAMES < frames {
        println!(rt; "{USAGE}")?;
        return Ok(ExitCode::from(1));
    }
    match runs(rt.alloc(), frames, rounds) {
        Ok(lines) => {
            println!(rt; "{lines}")?;
            Ok(ExitCode::from(0))
        }
        Err(Fault::Scenario) => Ok(ExitCode::from(2)),
        Err(Fault::NoMemory) => Ok(ExitCode::from(6)),
    }
}
