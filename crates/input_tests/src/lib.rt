//! Tests of the system's files and of writers that take little: what no clause says. Files and sinks in memory have clauses for all that they do, and
//! runs over them, with calls that fail, are rows of `rows`; captures are rows of `input_rows`.
#![tactic(auto)]

#[cfg(test)]
mod tests;
