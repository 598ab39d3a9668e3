//! The program's command line: words, a status and a line for the user.
ghost use Rattle.std.specs.Prelude.{◌≡◌, ◌↔◌, ◌⊎◌, ◌++◌, ◌∷◌, [], map, Some, None, IfOk, IfErr, string_bytes};
ghost use Rattle.and_top.specs.Telling.{Tells};
ghost use Rattle.and_top.specs.Pieces.{text_of};
ghost use Rattle.and_top.specs.Words.{Named, command_of};
ghost use Rattle.and_top.specs.Names.{named};
ghost use Rattle.and_top.specs.Answers.{Answers, Leaves, names_in};
ghost use Rattle.and_top.specs.Statuses.{Replayed, CanComplete, IsLate, MustRefuseScenario, MustRefuseCapture, RefusesScenario, RefusesCapture, fault_status, fault_line, scenario_line, capture_line, capture_text, place_in, file_name, usage_text};

use crate::answers::{Fault, Job, Which};
use crate::line::{Line, tell};
use crate::replaying::replay;
use crate::words::{Names, names_of};
use and_capture::{Bytes, CaptureFault};
use and_outside::{Files, Sink};
use and_replay::Turns;
use and_script::ScenarioFault;
use itoa::Buffer;
use std::alloc::{AllocError, Global};

/// The status of words that are no command.
const USAGE: u8 = 1;

/// The job of these names.
fn job_of(alloc: Global, names: &Names<'_>) -> Result<Job, AllocError>
    ensures { IfOk result (λ job. names_in job ≡ named names.now) }
{
    Ok(Job {
        scenario: String::from_str(alloc, names.scenario)?,
        capture: String::from_str(alloc, names.capture)?,
        out: String::from_str(alloc, names.out)?,
        turns: Turns::Plain,
    })
}

/// The replay of these names.
fn run<F: Files, O: Sink>(
    alloc: Global,
    names: &Names<'_>,
    files: &mut F,
    out: &mut O,
) -> Result<(), Fault>
    ensures leaves { Leaves (named names.now) (F.disk files.old) (F.disk files.new) }
    ensures answer { Answers (named names.now) (F.disk files.old) (F.disk files.new)
        (O.stream out.old) (O.stream out.new) result }
    ensures complete { CanComplete (named names.now) (F.disk files.old) (F.disk files.new) → IfErr result IsLate }
    ensures scenario { MustRefuseScenario (named names.now) (F.disk files.old) (F.disk files.new) → RefusesScenario result }
    ensures capture { MustRefuseCapture (named names.now) (F.disk files.old) (F.disk files.new) → RefusesCapture result }
{
    match job_of(alloc, names) {
        Ok(job) => replay(alloc, &job, files, out),
        Err(_) => Err(Fault::NoMemory),
    }
}

/// The status of a fault.
fn status_of(fault: &Fault) -> u8
    ensures { result ≡ fault_status fault.now }
{
    match fault {
        Fault::Scenario(_) => 2,
        Fault::Capture(_) => 3,
        Fault::Read(_) => 4,
        Fault::Write(_) => 5,
        Fault::NoMemory => 6,
        Fault::TooLong(_) => 7,
    }
}

/// A line about a file, which begins with these words.
fn file_line<'a>(head: &'a str, names: &Names<'a>, which: Which) -> Line<'a>
    ensures { text_of result ≡ head.now ++ (file_name (named names.now) which ++ 10 ∷ []) }
{
    let (name, tail) = match which {
        Which::Scenario => (names.scenario, "\n"),
        Which::Capture => (names.capture, "\n"),
        Which::Trace => (names.out, ".trace\n"),
        Which::Delivered => (names.out, ".delivered.pcap\n"),
        Which::Underlay => (names.out, ".underlay.pcap\n"),
        Which::Report => ("output", "\n"),
    };
    Line {
        head,
        name: name.as_bytes(),
        tail,
    }
}

/// A line that names nothing.
fn plain_line<'a>(text: &'a str) -> Line<'a>
    ensures { text_of result ≡ text.now ++ 10 ∷ [] }
{
    Line {
        head: text,
        name: b"",
        tail: "\n",
    }
}

/// A line about a path.
fn path_line<'a>(head: &'a str, path: &'a Bytes) -> Line<'a>
    ensures { text_of result ≡ head.now ++ (path.now ++ 10 ∷ []) }
{
    Line {
        head,
        name: path.as_bytes(),
        tail: "\n",
    }
}

/// What the user is told of a refused scenario.
fn line_of_scenario<'a>(fault: &'a ScenarioFault) -> Line<'a>
    ensures { text_of result ≡ scenario_line fault.now }
{
    match fault {
        ScenarioFault::NotJson => plain_line("scenario: NotJson"),
        ScenarioFault::Field { path } => path_line("scenario: Field ", path),
        ScenarioFault::Unknown { path } => path_line("scenario: Unknown ", path),
        ScenarioFault::Range { path } => path_line("scenario: Range ", path),
        ScenarioFault::Limit { path } => path_line("scenario: Limit ", path),
        ScenarioFault::NoMemory => plain_line("no memory"),
    }
}

/// What the user is told of a refused capture, whose place has these digits.
fn line_of_capture<'a>(fault: CaptureFault, place: &'a str) -> Line<'a>
    ensures { text_of result ≡ capture_text fault place.now }
{
    match fault {
        CaptureFault::CutHeader => plain_line("capture: CutHeader"),
        CaptureFault::Magic => plain_line("capture: Magic"),
        CaptureFault::Major => plain_line("capture: Major"),
        CaptureFault::LinkType => plain_line("capture: LinkType"),
        CaptureFault::CutRecord { .. } => place_line("capture: CutRecord ", place),
        CaptureFault::LongRecord { .. } => place_line("capture: LongRecord ", place),
        CaptureFault::TooMany => plain_line("capture: TooMany"),
        CaptureFault::NoMemory => plain_line("no memory"),
    }
}

/// A line about a place.
fn place_line<'a>(head: &'a str, place: &'a str) -> Line<'a>
    ensures { text_of result ≡ head.now ++ (place.now ++ 10 ∷ []) }
{
    Line {
        head,
        name: place.as_bytes(),
        tail: "\n",
    }
}

/// How many bytes stand before the record that was refused.
fn place_in(fault: CaptureFault) -> u64
    ensures { result ≡ place_in fault }
{
    match fault {
        CaptureFault::CutRecord { at } | CaptureFault::LongRecord { at } => at,
        _ => 0,
    }
}

/// Tells the user of a refused capture.
fn tell_capture<E: Sink>(err: &mut E, fault: CaptureFault)
    ensures { Tells 3 (capture_line fault) (E.stream err.old) (E.stream err.new) }
{
    let mut digits = Buffer::new();
    let place = digits.format(place_in(fault));
    tell(err, &line_of_capture(fault, place));
}

/// Tells the user of a fault.
fn tell_fault<E: Sink>(err: &mut E, names: &Names<'_>, fault: &Fault)
    ensures { Tells 3 (fault_line (named names.now) fault.now) (E.stream err.old) (E.stream err.new) }
{
    match fault {
        Fault::Scenario(fault) => tell(err, &line_of_scenario(fault)),
        Fault::Capture(fault) => tell_capture(err, *fault),
        Fault::Read(which) => tell(err, &file_line("read failed: ", names, *which)),
        Fault::Write(which) => tell(err, &file_line("write failed: ", names, *which)),
        Fault::TooLong(which) => tell(err, &file_line("too long: ", names, *which)),
        Fault::NoMemory => tell(err, &plain_line("no memory")),
    }
}

/// Does what the words say, without the program's name, and answers the status of the program. Each
/// status but 0 has a line, which is put into `err`; a failure of `err` changes no status.
pub fn andromeda<F: Files, O: Sink, E: Sink>(
    alloc: Global,
    words: &[String],
    files: &mut F,
    out: &mut O,
    err: &mut E,
) -> u8
    ensures leaves { (names : Named) → command_of (map string_bytes words.now) ≡ Some names
        → Leaves names (F.disk files.old) (F.disk files.new) }
    ensures usage { (result ≡ 1) ↔ (command_of (map string_bytes words.now) ≡ None) }
    ensures no_command { command_of (map string_bytes words.now) ≡ None → (files.new ≡ files.old) × (out.new ≡ out.old)
        × Tells 3 usage_text (E.stream err.old) (E.stream err.new) }
    ensures replayed { (names : Named) → command_of (map string_bytes words.now) ≡ Some names
        → Replayed names (F.disk files.old) (F.disk files.new)
        (O.stream out.old) (O.stream out.new) (E.stream err.old) (E.stream err.new) result }
    ensures complete { (names : Named) → command_of (map string_bytes words.now) ≡ Some names
        → CanComplete names (F.disk files.old) (F.disk files.new)
        → (result ≡ 0) ⊎ ((result ≡ 5) ⊎ (result ≡ 6)) }
    ensures scenario { (names : Named) → command_of (map string_bytes words.now) ≡ Some names
        → MustRefuseScenario names (F.disk files.old) (F.disk files.new) → (result ≡ 2) ⊎ (result ≡ 6) }
    ensures capture { (names : Named) → command_of (map string_bytes words.now) ≡ Some names
        → MustRefuseCapture names (F.disk files.old) (F.disk files.new) → (result ≡ 3) ⊎ (result ≡ 6) }
{
    let Some(names) = names_of(words) else {
        tell(
            err,
            &plain_line("usage: andromeda replay SCENARIO CAPTURE OUT"),
        );
        return USAGE;
    };
    match run(alloc, &names, files, out) {
        Ok(()) => 0,
        Err(fault) => {
            tell_fault(err, &names, &fault);
            status_of(&fault)
        }
    }
}
