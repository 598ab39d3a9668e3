//! Scenarios: the JSON text of a topology and a script, read exactly.
//!
//! [`read_scenario`] takes exactly the texts that the tables of items and fields (`specs/Tables.antt`) give, by one order of checks for an
//! object and one for a field (`specs/Grammar.antt`); of any other text it tells the first check that fails, and where. VM names are
//! numbered in the order in which they first stand in the script. The plan of what was read is [`plan`]. It stands on `and_planner` for the plan and on `serde_json`'s meaning of the bytes.
#![tactic(auto)]

pub use and_events::{Item, Scenario};
pub use and_planner::plan;
pub use fault::ScenarioFault;
pub use scenario::{read_scenario, read_value, scenario_of};

mod fault;
mod fields;
mod forms;
mod items;
mod names;
mod refusal;
mod scenario;
mod script;
mod tables;
mod words;
