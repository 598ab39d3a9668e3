//! Scripts and plans: what is to happen.

use crate::event::Node;
use crate::items::Items;
use and_capture::{Bytes, Taken};
use and_policy::{Entry, EntryFault, Skip, Tuple};

/// What may be held at a node.
#[derive(Clone, Copy, PartialEq, Eq)]
pub enum What {
    /// Its installer announces nothing.
    Install,
    /// Its workers and its coprocessor take nothing.
    Forward,
}

/// A step of a plan.
#[derive(Clone, Copy, PartialEq, Eq)]
pub enum Step {
    /// An entry is appended to the log.
    Append(Entry),
    /// The usage is reviewed.
    Review,
    /// Something is held at a node.
    Hold { node: Node, what: What },
    /// It is no longer held.
    Free { node: Node, what: What },
    /// Until the system has come to rest.
    Wait,
    /// A packet is injected.
    Inject { packet: u32 },
    /// A VM is paused and on its way to a host.
    Blackout { vm: u32, host: u32 },
    /// It runs there.
    Resume { vm: u32 },
    /// The end.
    Finish,
}

/// Why an item of a script does not fit, and is left out.
#[derive(Clone, Copy, PartialEq, Eq)]
pub enum ItemFault {
    /// Its entry does not fit the log.
    Entry(EntryFault),
    /// Installs are held at the host that the item names: the new VM's host, or the target of a blackout.
    Held,
    /// The VM is in a blackout.
    Paused,
    /// The VM is in no blackout.
    NotPaused,
    /// The VM is at that host.
    SameHost,
    /// There is no such node.
    NoNode,
    /// That is held already.
    HoldTaken,
    /// That is not held.
    NoHold,
}

/// Why a frame of the capture is no packet of the run.
#[derive(Clone, Copy, PartialEq, Eq)]
pub enum SkipReason {
    /// The frame is none that the switch takes.
    Frame(Skip),
    /// No live VM has its source Ethernet address.
    NoSource,
    /// The VM is in a blackout.
    PausedSource,
}

/// The topology and its limits.
#[derive(Clone, Copy, PartialEq, Eq)]
pub struct Settings {
    /// How many hosts there are: 1 to 64.
    pub hosts: u32,
    /// How many gateways: 1 to 8.
    pub gateways: u32,
    /// How many workers each host has: 1 to 4.
    pub workers: u32,
    /// How often a packet may be sent: 1 to 32.
    pub hop_limit: u32,
    /// How many packets an `out` queue holds: 1 to 4,096.
    pub out_queue: u32,
    /// How many packets a `wire` queue holds: 1 to 4,096.
    pub wire_queue: u32,
    /// How many packets a `seal` queue holds: 1 to 4,096.
    pub seal_queue: u32,
    /// From how many bytes on a destination is offloaded: 1 to 1,000,000,000.
    pub threshold: u64,
    /// How many ticks an offload order lives: 1 to 10,000.
    pub life: u32,
}

/// A packet of a run: its source VM, the tuple of its frame, and the frame as it was captured.
#[derive(Drop)]
pub struct Packet {
    /// The source VM.
    pub vm: u32,
    /// What the switch reads of the frame.
    pub tuple: Tuple,
    /// The frame.
    pub taken: Taken,
}

/// What a run does, and what became of the rest of script and capture.
#[derive(Drop)]
pub struct Plan {
    /// The topology and its limits.
    pub settings: Settings,
    /// The steps, in order.
    pub steps: Items<Step>,
    /// The whole log that the steps give.
    pub log: Items<Entry>,
    /// The packets, in the order of their injection.
    pub packets: Items<Packet>,
    /// The items that were refused: the item's number from 0, and why.
    pub refused: Items<(u32, ItemFault)>,
    /// The frames that were skipped: the frame's number from 0, and why.
    pub skipped: Items<(u32, SkipReason)>,
    /// How many frames the capture has.
    pub frames: u32,
    /// How many frames no item reached.
    pub unsent: u32,
    /// Whether the capture's fractions are nanoseconds.
    pub nanos: bool,
    /// The names of the VMs, by number.
    pub names: Items<Bytes>,
}

/// An item of a script.
#[derive(Clone, Copy, PartialEq, Eq)]
pub enum Item {
    /// An entry for the log.
    Entry(Entry),
    /// Until the system has come to rest.
    Wait,
    /// So many of the next frames are sent; all that are left where there is no number.
    Send { frames: Option<u32> },
    /// A VM is paused and on its way to a host.
    Blackout { vm: u32, host: u32 },
    /// It runs there.
    Resume { vm: u32 },
    /// Something is held at a node.
    Hold { node: Node, what: What },
    /// It is no longer held.
    Free { node: Node, what: What },
}

/// A scenario: a topology, the names of its VMs by number, and a script.
#[derive(Drop)]
pub struct Scenario {
    /// The topology and its limits.
    pub settings: Settings,
    /// The names of the VMs, by number: each number is given by the first place of the name in the script.
    pub names: Items<Bytes>,
    /// The script.
    pub items: Items<Item>,
}
