//! Tests of the texts of a run: what no clause says of `and_trace`, that each kind of line has the text that the format gives it, and that a
//! trace can be written and read with ample memory; and of `and_report` the report of every kind of fate, also of those that no run of a row has.
//! It stands on `and_trace`, `and_report`, `and_events`, `and_policy` and `and_capture`.
#![tactic(auto)]

#[cfg(test)]
mod reports;
#[cfg(test)]
mod tests;
