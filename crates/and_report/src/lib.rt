//! The report of a run: how many packets came, arrived, were dropped or were lost, and by which rule, route or
//! queue; what hosts and gateways did; and what each VM sent and received.
//!
//! It promises that [`report_text`] gives exactly the text that the definition `report` has for the plan and the
//! history of the lines, where the plan is sound and the lines are a run of it; and that [`report_of_lines`] gives that text for any
//! plan and any lines, legal or not. Of a run that has ended the first counts the orders from the lines, by the laws of runs of
//! `and_laws`; the second takes them from the state after the lines, by the plain program of `and_plain`. It stands on the definitions
//! of `and_events` too, and on `and_policy` and `and_capture`.
#![tactic(auto)]

mod carried;
mod counts;
mod drops;
mod fate;
mod fates;
mod items;
mod keyed;
mod laws;
mod orders;
mod report;
mod rows;
mod run_orders;
mod skips;
mod totals;
mod vm_nets;
mod vms;

pub use laws::{fates_are_counted_once, frames_add_up, packets_add_up};
pub use report::{report_of_lines, report_text};
