//! Parcels: frames in the bytes that hosts and gateways hand to each other, and the queues that hold them.
//!
//! An outer packet is a VXLAN packet (RFC 7348) over UDP (RFC 768) and IPv4 (RFC 791): 36 bytes before the frame.
//! A [`Parcel`] keeps the room for them before its frame, so [`Parcel::wrap`], [`Parcel::unwrap`] and [`Parcel::wire`]
//! neither copy the frame nor take memory. [`read_outer`] tells the first check that bytes fail as an outer packet. A
//! [`ParcelQueue`] takes all its memory when it is made.
//!
//! It stands on `and_policy`, whose definitions of frames and outer packets it computes, on `and_lanes` for the sums, and on
//! `byteorder`.
#![tactic(auto)]

mod header;
mod outer;
mod parcel;
mod port;
mod queue;

pub use and_policy::NoMemory;
pub use outer::{Outer, WrapFault, outer_packets_read_back, read_outer};
pub use parcel::Parcel;
pub use port::entropy_port;
pub use queue::ParcelQueue;

/// The bytes before the frame: 20 of IPv4, 8 of UDP and 8 of VXLAN.
pub const OUTER_LEN: usize = 36;

/// The bytes of an IPv4 header without options.
const IP_LEN: usize = 20;

/// The UDP destination port of VXLAN.
const VXLAN_PORT: u16 = 4789;

/// The IPv4 protocol number of UDP.
const UDP: u8 = 17;
