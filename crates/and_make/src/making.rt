//! The input of a drill.
ghost use Rattle.std.specs.Prelude.{◌≡◌, ◌≤◌, length, IfOk};
ghost use Rattle.and_planner.specs.Scenarios.{IsScenario};
ghost use Rattle.and_make.specs.Frames as frames_spec;
ghost use Rattle.and_make.specs.Script as script_spec;

use crate::frames::frames;
use crate::script::{SETTINGS, names, script};
use and_capture::Capture;
use and_events::Scenario;
use and_policy::NoMemory;
use std::alloc::Global;

/// The input of a drill of n packets: a scenario, and a capture of n frames. A plan can be made of them.
///
/// The frames are those of the first 3·n words of `Pcg32::new(n, 1)`, three a frame in the order in which they are drawn.
///
/// # Errors
///
/// Where memory is wanting, alone.
pub fn make(alloc: Global, n: u32) -> Result<(Scenario, Capture), NoMemory>
    requires { (1 ≤ n) × (n ≤ 50000) }
    ensures scenario { IfOk result (λ p. p.0 ≡ script_spec.scenario n) }
    ensures capture { IfOk result (λ p. p.1 ≡ frames_spec.capture (frames_spec.words n)) }
    ensures count { IfOk result (λ p. length p.1.frames ≡ n) }
    ensures ranges { IfOk result (λ p. IsScenario p.0 × length p.1.frames ≤ 100000) }
{
    let names = names(alloc)?;
    let items = script(alloc, n)?;
    let frames = frames(alloc, n)?;
    let scenario = Scenario {
        settings: SETTINGS,
        names,
        items,
    };
    let capture = Capture {
        nanos: false,
        frames,
    };
    Ok((scenario, capture))
}
