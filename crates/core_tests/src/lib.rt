//! Tests of the turn lock: what no clause says, with and without threads, over notes and over a book. What a run does is shown by the rows.
#![tactic(auto)]

#[cfg(test)]
mod book;
#[cfg(test)]
mod turn;
