//! What the system is: its plans, its states, which events are legal in them, and what a run says of each packet.
#![tactic(auto)]

mod event;
mod items;
mod places;
mod plan;

pub use event::{
    Actor, Arrival, Carried, Departure, End, Endpoint, Event, Given, Held, Line, Node, Passage,
    Queue, Return,
};
pub use items::Items;
pub use places::{
    actor_at, actor_count, hand_place, host_of, is_actor, node_at, node_of, node_place, queue_place,
};
pub use plan::{Item, ItemFault, Packet, Plan, Scenario, Settings, SkipReason, Step, What};
