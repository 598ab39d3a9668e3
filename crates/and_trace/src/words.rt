//! Words of a line, read one by one from its front, and what each names.
ghost use Rattle.std.specs.Prelude.{◌≡◌, ◌==◌, true, drop, bytes_eq, position};
ghost use Rattle.and_trace.specs.Fields.{upto, past, starts, digit_after, number_in, place_in, node_in, actor_at, actor_in, queue_in, end_in, way_in};

use and_events::{Actor, End, Node, Queue};
use and_policy::Way;

/// Where the first such byte is.
pub(crate) fn find(text: &[u8], mark: u8) -> Option<usize>
    ensures { result ≡ position (λ c. c == mark) text.now }
{
    text.iter().position(|byte| *byte == mark)
}

/// What stands before the first such byte, and what stands behind it. Where there is none, nothing stands behind.
pub(crate) fn cut(text: &[u8], mark: u8) -> (&[u8], &[u8])
    ensures word { result.0.now ≡ upto mark text.now }
    ensures rest { result.1.now ≡ past mark text.now }
{
    match find(text, mark) {
        Some(at) => (&text[..at], &text[at + 1..]),
        None => (text, &[]),
    }
}

/// Whether the word is this one.
pub(crate) fn is(word: &[u8], text: &str) -> bool
    ensures { result ≡ bytes_eq word.now text.now }
{
    word == text.as_bytes()
}

/// Whether two texts are the same.
pub(crate) fn are_same(text: &[u8], other: &[u8]) -> bool
    ensures same { result ≡ true → text.now ≡ other.now }
    ensures found { text.now ≡ other.now → result ≡ true }
{
    text == other
}

/// Whether the word begins with this letter.
fn begins_with(word: &[u8], letter: u8) -> bool
    ensures { result ≡ starts letter word.now }
{
    match word.first() {
        Some(first) => *first == letter,
        None => false,
    }
}

/// The number with one digit more behind it.
fn with_digit(number: u32, digit: u8) -> u32
    ensures { result ≡ digit_after number digit }
{
    number
        .wrapping_mul(10)
        .wrapping_add(u32::from(digit.saturating_sub(b'0')))
}

/// The number that decimal digits write, where they write one of 32 bits.
#[tactic(auto, unfolding(crate::specs::Fields::number_in))]
pub(crate) fn number_of(word: &[u8]) -> u32
    ensures { result ≡ number_in word.now }
{
    word.iter()
        .fold(0, |number, digit| with_digit(number, *digit))
}

/// The word without its first letter.
fn behind_letter(word: &[u8]) -> &[u8]
    ensures { result.now ≡ drop 1 word.now }
{
    match word.split_first() {
        Some((_, rest)) => rest,
        None => &[],
    }
}

/// The number behind the letter of a host, a gateway or a worker.
pub(crate) fn place_of(word: &[u8]) -> u32
    ensures { result ≡ place_in word.now }
{
    number_of(behind_letter(word))
}

pub(crate) fn node_of(word: &[u8]) -> Node
    ensures { result ≡ node_in word.now }
{
    let number = place_of(word);
    if begins_with(word, b'g') {
        Node::Gate(number)
    } else {
        Node::Host(number)
    }
}

/// Who takes packets, by where it stands and what it is there.
fn actor_at(place: &[u8], role: &[u8]) -> Actor
    ensures { result ≡ actor_at place.now role.now }
{
    let number = place_of(place);
    let index = place_of(role);
    if begins_with(place, b'g') {
        Actor::Gateway(number)
    } else if begins_with(role, b'c') {
        Actor::Coproc(number)
    } else {
        Actor::Worker {
            host: number,
            index,
        }
    }
}

pub(crate) fn actor_of(word: &[u8]) -> Actor
    ensures { result ≡ actor_in word.now }
{
    let (place, role) = cut(word, b'.');
    actor_at(place, role)
}

pub(crate) fn queue_of(word: &[u8]) -> Queue
    ensures { result ≡ queue_in word.now }
{
    if is(word, "out") {
        Queue::Out
    } else if is(word, "wire") {
        Queue::Wire
    } else {
        Queue::Seal
    }
}

pub(crate) fn end_of(word: &[u8]) -> End
    ensures { result ≡ end_in word.now }
{
    if is(word, "queued") {
        End::Queued
    } else if is(word, "full") {
        End::Full
    } else {
        End::Hops
    }
}

pub(crate) fn way_of(word: &[u8]) -> Way
    ensures { result ≡ way_in word.now }
{
    if is(word, "fast") {
        Way::Fast
    } else {
        Way::Slow
    }
}
