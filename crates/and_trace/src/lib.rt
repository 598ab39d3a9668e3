//! The trace: one line of words for each event of a run, oldest first, under a first line that names the format.
//!
//! It promises that `print_trace` writes the text that the definition `trace` gives, and that `read_trace` takes exactly such
//! texts and gives the events again, or names the first line that is in no such text; so the two are each other's inverse on
//! all events whose numbers have 32 bits. Two different histories whose events have a spelling never have the same trace. Of
//! what a spelling asks it promises that the actors of a run have a word, and that the numbers of printed lines fit. It stands
//! on `and_events`, `and_policy` and `itoa`.
#![tactic(auto)]

mod laws;
mod naming;
mod printing;
mod put;
mod reader;
mod word;
mod words;

pub use laws::{runs_have_spellings, trace_names_one_history};
pub use printing::print_trace;
pub use reader::{TraceAnswer, TraceFault, read_trace};
