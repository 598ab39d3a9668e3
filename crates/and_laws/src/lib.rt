//! Laws of every legal run: what holds after any list of legal events of a plan, in whatever order the actors act.
//!
//! Each law is the contract of a function that does nothing. The statement of a law stands in `specs/`, for every plan and every
//! history with the newest event first. Since what comes before an event of a run is a run, a law holds at each moment.
//! A sound plan is a premise only where a law speaks of what the plan's steps ask for. The laws stand on the definitions
//! of `and_events` alone; no code of a runtime is named here.
//!
//! **How they are proved.** A state is a record of components, and an event changes each component by one of its few
//! moves. A law about a component is proved once over the moves, and then for runs by induction on the history. The kinds of event
//! are met only in tables with a line a kind, whose last line covers those that change nothing there:
//!
//! - `Moves::balance`: a fate is where the move takes a packet out, an injection where it brings one in or loses it;
//! - `LegalMoves::legal_moves`: a legal event makes a move that is possible; `Programmed::legal_words` is the same for programmes;
//! - `Losses::due_loss`: what a loss has behind it;
//! - `Injected::injected`, `Following::follows`: what the event of a step does to the plain state of the script;
//! - `Paying::event_pays`: what pays for an event, so that a run ends; `Short::grows`: what pays for the operations of a programme;
//! - `Leaving::orderly`, `Needs::no_grab`, `Leads::event_goes`: what kind of move an event makes;
//! - `Staged::stages_so_far`: what an event does to the decisions behind each packet's place; `Justified::just_by`: why a fate came.
//!
//! Where a packet is says which decisions led it there (`specs/Stages.antt`): from that a fate's reason is read off the actor's hand.
//! That a live order leads where the route leads (`LiveOrders::live_leads`) rests on `Apart::routed_kept`: entries of other networks
//! change no route, as no VM number is given twice (`Numbers`).
//!
//! **A new event** brings a line in `legal_moves`, one in `balance` for each of its ends where it can be a fate, one in
//! `due_loss` where it can lose a packet, one each in `event_pays` and `grows`, as a step one each in `injected`, `follows`,
//! `next_within` and `step_goes`, and one in each of the other tables where it moves a packet. `Hold` and `Free`, for
//! example, move no packet (`tt` in `legal_moves`), are no fates, say no word to a programme (the last lines of the other tables), inject
//! nothing (`same_sent`), and leave log, VMs and ports alone (`by_quiet`). The component that they do change, the holds of the
//! nodes, has one lemma for its one kind of write, `Sizes::hold_set`, and `Unstuck::nothing_held` for the plans that hold
//! nothing. Taken out for a trial they were missed at just these places, which a check of a quarter of a minute named; they are 26
//! lines in seven files.
//!
//! **A new component** brings its moves, its start and its line of `after` in `and_events`, a lemma on its size over the moves in
//! `Sizes`, and its own laws. The laws of the other components stay as they are, because a state's other fields compute.
#![tactic(auto)]

mod choices;
mod ends;
mod fresh;
mod just;
mod length;
mod limits;
mod packets;
mod ports;
mod programmes;
mod progress;
mod targets;

pub use choices::{choices_tell_events, enabled_actors_have_events, plain_runs_are_one};
pub use ends::{all_done_at_the_end, one_fate_at_the_end};
pub use fresh::decisions_are_fresh;
pub use just::{fates_are_just, offloads_lead_right, places_follow_decisions};
pub use length::{programmes_are_short, runs_are_bounded};
pub use limits::{hops_add_up, losses_are_due, queues_are_within_capacity};
pub use packets::{
    all_accounted, first_packets_are_injected, no_decision_after_fate, one_fate_or_place,
};
pub use ports::{live_vms_run_once, ports_follow_the_steps};
pub use programmes::programmes_follow_the_log;
pub use progress::runs_go_on;
pub use targets::packets_go_to_nodes;
