//! The actors that have one job each: the packet worker of a gateway (hoverboard) and the coprocessor of a host.
//!
//! A gateway's worker takes a packet from the underlay, decides of it by the gateway's tables, and settles it. Packets for the route address are
//! routed, those for the redirect address go to the place of their destination's owner. A coprocessor takes a packet that is to be sealed, and sends
//! it sealed to where its egress was decided to lead; it has no tables and decides nothing.
//!
//! They promise that each call adds the one event that it names or none, and that a packet is settled by the actor that took it; a gateway's worker
//! also that it settles a packet only by a decision on operations that the book has announced and no fewer than were installed at the take, and
//! otherwise says what is the matter. They stand on the book (`and_book`), on what gateways decide (`and_decide`), and on the comparison of tables
//! with the book (`and_agree`).
#![tactic(auto)]

mod coproc;
mod hover;
mod taking;

pub use and_agree::Settled;
pub use and_decide::Behind;
pub use coproc::Coproc;
pub use hover::Hover;
