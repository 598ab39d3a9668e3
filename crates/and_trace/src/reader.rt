//! A trace, read back.
ghost use Rattle.std.specs.Prelude.{◌≡◌, ◌≢◌, ◌<◌, ◌^◌, ◌++◌, List, ℕ, None, length, IfOk, IfErr, IfSome, MatchResult};
ghost use Rattle.and_events.specs.declared.event.Event.{Event};
ghost use Rattle.and_trace.specs.Spelling.{line_of, said, title};
ghost use Rattle.and_trace.specs.Grammar.{IsWritten, Spells, IsFirstBad};

use crate::naming::event_of;
use crate::printing::put_event;
use crate::words::{are_same, find};
use and_events::Event;
use and_policy::NoMemory;
use std::alloc::Global;

/// The first line of a trace.
const TITLE: &str = "andromeda trace 1\n";

/// What ends a line.
const LINE_FEED: u8 = b'\n';

/// The first line of a text that is not in the format of a trace.
#[derive(Debug, Clone, Copy, PartialEq, Eq)]
pub struct TraceFault {
    /// The number of the line, from 1.
    pub line: u32,
}

/// Why a text was not read as a trace.
#[derive(Debug, Clone, Copy, PartialEq, Eq)]
pub enum TraceAnswer {
    /// A line is not in the format.
    Bad(TraceFault),
    /// Memory ran out.
    NoMemory,
}

/// The event of a line, which is given without its line feed; nothing where it is the line of no event. The event that the line seems to
/// name is written out again, in `scratch`: the line is its line where both are the same.
fn read_line(line: &[u8], scratch: &mut Vec<u8>) -> Result<Option<Event>, NoMemory>
    ensures found { IfOk result (λ found. IfSome found (λ e. IsWritten e × (line.now ≡ said e))) }
    ensures refused { IfOk result (λ found. found ≡ None → (e : Event) → IsWritten e → line.now ≡ said e → ⊥) }
{
    let event = event_of(line);
    scratch.clear();
    put_event(&event, scratch)?;
    if are_same(line, scratch.as_slice()) {
        Ok(Some(event))
    } else {
        Ok(None)
    }
}

/// The event of the first line of a text, and what stands behind that line; nothing where the text does not begin with the line of an event.
fn next_event<'a>(
    text: &'a [u8],
    scratch: &mut Vec<u8>,
) -> Result<Option<(Event, &'a [u8])>, NoMemory>
    ensures found { IfOk result (λ found. IfSome found (λ p. IsWritten p.0 × (text.now ≡ line_of p.0 ++ p.1.now))) }
    ensures refused { IfOk result (λ found. found ≡ None → (e : Event) → IsWritten e → (more : List ℕ) → text.now ≢ line_of e ++ more) }
{
    let Some(at) = find(text, LINE_FEED) else {
        return Ok(None);
    };
    match read_line(&text[..at], scratch)? {
        Some(event) => Ok(Some((event, &text[at + 1..]))),
        None => Ok(None),
    }
}

/// What stands behind the first line of a trace; nothing where the text does not begin with that line.
fn behind_title(text: &[u8]) -> Option<&[u8]>
    ensures found { IfSome result (λ rest. text.now ≡ title ++ rest.now) }
    ensures refused { result ≡ None → (more : List ℕ) → text.now ≢ title ++ more }
{
    let title = TITLE.as_bytes();
    if text.len() < title.len() {
        return None;
    }
    let (head, rest) = text.split_at(title.len());
    if are_same(head, title) {
        Some(rest)
    } else {
        None
    }
}

/// The events of a trace, oldest first. It takes exactly the texts that a trace is written as, with numbers of 32 bits; of any other text it
/// names the first line that is not in the format: line 1 where the text does not begin with the first line of a trace, and the last line
/// where its line feed is missing. Want of memory is the only other error.
pub fn read_trace(alloc: Global, bytes: &[u8]) -> Result<Vec<Event>, TraceAnswer>
    requires { length bytes.now < 4294967295 }
    ensures read { IfOk result (λ es. Spells bytes.now es.items) }
    ensures whole { (es : List Event) → Spells bytes.now es → MatchResult result (λ v. v.items ≡ es) (λ a. a ≡ TraceAnswer.NoMemory) }
    ensures bad { IfErr result (λ a. (f : TraceFault) → a ≡ TraceAnswer.Bad f → IsFirstBad bytes.now f.line) }
{
    let Some(mut rest) = behind_title(bytes) else {
        return Err(TraceAnswer::Bad(TraceFault { line: 1 }));
    };
    let mut events = Vec::new(alloc);
    let mut scratch = Vec::new(alloc);
    let mut line = 1;
    while !rest.is_empty() {
        line += 1;
        let Ok(found) = next_event(rest, &mut scratch) else {
            return Err(TraceAnswer::NoMemory);
        };
        let Some((event, more)) = found else {
            return Err(TraceAnswer::Bad(TraceFault { line }));
        };
        if events.push(event).is_err() {
            return Err(TraceAnswer::NoMemory);
        }
        rest = more;
    }
    Ok(events)
}
