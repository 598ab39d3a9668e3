//! What happens in a run.

use and_policy::{Dest, Name, Order, Way};

/// A host (hypervisor) or a gateway (hoverboard).
#[derive(Clone, Copy, PartialEq, Eq)]
pub enum Node {
    /// The host of this number.
    Host(u32),
    /// The gateway of this number.
    Gate(u32),
}

/// Whoever makes an event happen.
#[derive(Clone, Copy, PartialEq, Eq)]
pub enum Actor {
    /// Programmes a host.
    HostInstall(u32),
    /// Programmes a gateway.
    GateInstall(u32),
    /// A packet worker of a host, counted from 0 there.
    Worker { host: u32, index: u32 },
    /// The coprocessor of a host, which seals packets.
    Coproc(u32),
    /// The packet worker of a gateway.
    Gateway(u32),
    /// Takes away hairpins that every node can do without.
    Controller,
    /// Does the steps of the plan.
    Driver,
}

/// A bounded queue of a node.
#[derive(Clone, Copy, PartialEq, Eq)]
pub enum Queue {
    /// From the VMs of a host.
    Out,
    /// From the underlay; gateways have it too.
    Wire,
    /// For the coprocessor of a host.
    Seal,
}

/// How a try to put a packet into a queue ends.
#[derive(Clone, Copy, PartialEq, Eq)]
pub enum End {
    /// It entered the queue.
    Queued,
    /// The queue was full; the packet is lost.
    Full,
    /// No hop was left; the packet is lost.
    Hops,
}

/// What became of a packet that came to a host for a VM.
#[derive(Clone, Copy, PartialEq, Eq)]
pub enum Arrival {
    /// No live VM has the address.
    NoOwner,
    /// The VM runs here, and its rules pass or drop the packet.
    Running { vm: u32, by: Name, pass: bool },
    /// The VM is paused here or not yet running; the packet is lost.
    Blackout { vm: u32 },
    /// The VM has moved to `host`, and the packet follows it.
    Hairpin { vm: u32, host: u32, end: End },
    /// The VM is not here; the packet goes to the gateway's redirect address.
    Absent { vm: u32, gateway: u32, end: End },
}

/// What became of a packet that left a VM.
#[derive(Clone, Copy, PartialEq, Eq)]
pub enum Departure {
    /// The VM is not live.
    NoVm,
    /// The source address is not the VM's.
    Spoofed,
    /// A rule denies it.
    Denied {
        number: u32,
    },
    /// It may leave for `dest`.
    Allowed {
        by: Name,
        sealed: bool,
        dest: Dest,
        end: End,
    },
}

/// What became of a packet that a gateway routed. In `by`, `Rule(n)` is route n.
#[derive(Clone, Copy, PartialEq, Eq)]
pub enum Passage {
    /// The route drops it.
    Dropped {
        by: Name,
    },
    /// No live VM of the routed network has the address.
    NoOwner {
        by: Name,
    },
    /// It goes to a host with this network as VNI.
    Send {
        by: Name,
        net: u32,
        host: u32,
        end: End,
    },
    /// It was due to go, and no hop was left.
    Hops {
        by: Name,
    },
}

/// What became of a packet that a gateway redirected.
#[derive(Clone, Copy, PartialEq, Eq)]
pub enum Return {
    /// No live VM of the network has the address.
    NoOwner,
    /// It goes to a host with the VNI that it had.
    Send { host: u32, end: End },
    /// It was due to go, and no hop was left.
    Hops,
}

/// One event of a run. Steps and packets count from 0, operations are numbers of a node's programme.
#[derive(Clone, Copy, PartialEq, Eq)]
pub enum Event {
    /// The log and every programme get the step's entry.
    Append {
        step: u32,
    },
    /// Offload orders are given by the usage since the last review, and the usage starts anew.
    Review {
        step: u32,
    },
    /// A node's installs or its forwarding are held.
    Hold {
        step: u32,
    },
    /// They are no longer held.
    Free {
        step: u32,
    },
    /// The system has come to rest.
    Wait {
        step: u32,
    },
    /// A packet enters the `out` queue of its VM's host, or is lost there.
    Inject {
        step: u32,
        packet: u32,
        full: bool,
    },
    /// A VM is paused and on its way to another host.
    Blackout {
        step: u32,
    },
    /// It runs at the other host.
    Resume {
        step: u32,
    },
    /// The end.
    Finish {
        step: u32,
    },
    /// An installer announces how long the programme is that it will install.
    Announce {
        node: Node,
        upto: u32,
    },
    /// It has installed the programme up to there.
    Installed {
        node: Node,
        upto: u32,
    },
    /// An actor takes a packet from a queue of its node.
    Take {
        actor: Actor,
        queue: Queue,
        packet: u32,
    },
    /// A host worker decides, by `at` operations, of a packet that leaves a VM.
    Egress {
        actor: Actor,
        packet: u32,
        at: u32,
        way: Way,
        departure: Departure,
    },
    /// A coprocessor sends a packet that it has sealed.
    Sealed {
        actor: Actor,
        packet: u32,
        end: End,
    },
    /// A gateway routes a packet.
    Route {
        actor: Actor,
        packet: u32,
        at: u32,
        passage: Passage,
    },
    /// A gateway redirects a packet.
    Redirect {
        actor: Actor,
        packet: u32,
        at: u32,
        back: Return,
    },
    /// A host worker decides of a packet that has come for a VM.
    Ingress {
        actor: Actor,
        packet: u32,
        at: u32,
        way: Way,
        arrival: Arrival,
    },
    /// A hairpin is taken away.
    Unpin {
        host: u32,
        vm: u32,
    },
}

/// A line of a book: an event, and the seat of the thread that wrote it.
#[derive(Clone, Copy, PartialEq, Eq)]
pub struct Line {
    /// The seat of its actor's thread; 0 in a run without threads.
    pub seat: u32,
    /// The event.
    pub event: Event,
}

/// A packet in an actor's hand.
#[derive(Clone, Copy, PartialEq, Eq)]
pub struct Held {
    /// The packet.
    pub packet: u32,
    /// What the actor's node had installed at the take; the decision needs at least that.
    pub need: u32,
    /// The queue from which the packet was taken.
    pub queue: Queue,
}

/// An offload order, and the host whose programme gets it.
#[derive(Clone, Copy, PartialEq, Eq)]
pub struct Given {
    /// The host.
    pub host: u32,
    /// The order.
    pub order: Order,
}

/// What an outer destination address stands for (a VTEP).
#[derive(Clone, Copy, PartialEq, Eq)]
pub enum Endpoint {
    /// A host.
    Host(u32),
    /// A gateway, to route the packet.
    Route(u32),
    /// A gateway, to redirect the packet to the VM's present host.
    Redirect(u32),
}

/// What is known of a packet on its way.
#[derive(Clone, Copy, PartialEq, Eq)]
pub struct Carried {
    /// How many sends it still has.
    pub hops: u32,
    /// Whether it goes sealed.
    pub sealed: bool,
    /// The VNI of its last send, or while it waits to be sealed of the send that was decided; 0 before its Egress.
    pub net: u32,
    /// Where that send goes; host 0 before its Egress.
    pub target: Endpoint,
}
