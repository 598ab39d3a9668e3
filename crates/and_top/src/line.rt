//! A line for the user, in pieces.
ghost use Rattle.std.specs.Prelude.{◌≤◌};
ghost use Rattle.std.specs.Bool.{OnTrue, OnFalse};
ghost use Rattle.and_top.specs.Telling.{Tells, Wrote, WrotePart};
ghost use Rattle.and_top.specs.Pieces.{text_of};

use and_outside::Sink;

/// A text in three pieces, so that none of it has to be copied.
#[derive(Debug, Clone, Copy)]
pub struct Line<'a> {
    pub head: &'a str,
    pub name: &'a [u8],
    pub tail: &'a str,
}

/// Puts one text, and says whether that was done.
pub fn put<E: Sink>(err: &mut E, text: &[u8]) -> bool
    ensures done { OnTrue result (Wrote 1 text.now (E.stream err.old) (E.stream err.new)) }
    ensures part { OnFalse result (WrotePart 1 text.now (E.stream err.old) (E.stream err.new)) }
    ensures counts { (E.stream err.old).faults ≤ (E.stream err.new).faults }
{
    err.put(text).is_ok()
}

/// Puts a text, and says whether that was done.
fn put_text<E: Sink>(err: &mut E, text: &str) -> bool
    ensures done { OnTrue result (Wrote 1 text.now (E.stream err.old) (E.stream err.new)) }
    ensures part { OnFalse result (WrotePart 1 text.now (E.stream err.old) (E.stream err.new)) }
    ensures counts { (E.stream err.old).faults ≤ (E.stream err.new).faults }
{
    put(err, text.as_bytes())
}

/// Puts the text, by three puts. Where one of them fails, it is the last, and a prefix of the text was put.
pub fn tell<E: Sink>(err: &mut E, line: &Line<'_>)
    ensures { Tells 3 (text_of line.now) (E.stream err.old) (E.stream err.new) }
{
    if !put_text(err, line.head) {
        return;
    }
    if !put(err, line.name) {
        return;
    }
    put_text(err, line.tail);
}
