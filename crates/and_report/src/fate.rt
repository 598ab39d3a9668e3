//! What became of packets.

/// What became of a packet.
#[derive(Clone, Copy)]
pub enum Fate {
    /// It came to this VM.
    Delivered { vm: u32 },
    /// Its source address is not its VM's.
    Spoofed,
    /// Its VM is not live.
    NoVm,
    /// No live VM of its network has its destination address.
    NoOwner,
    /// An egress rule denies it: the network, and the rule's number.
    EgressDenied { net: u32, number: u32 },
    /// The ingress rules deny it: the network, and the rule's number, or 0 for the implied verdict; rules
    /// count from 1.
    IngressDenied { net: u32, number: u32 },
    /// A route drops it: the network, and the route's number.
    RouteDropped { net: u32, number: u32 },
    /// It is lost in a blackout.
    InBlackout,
    /// It is lost at a full queue.
    AtFullQueue,
    /// It is lost, since no hop was left.
    OutOfHops,
}

/// A network and the number of a rule or route.
#[derive(Clone, Copy)]
pub struct Key {
    pub net: u32,
    pub number: u32,
}

/// Where a packet is dropped by a rule or a route.
#[derive(Clone, Copy)]
pub enum Stage {
    /// As it leaves its VM.
    Egress,
    /// As it comes to a VM.
    Ingress,
    /// At a gateway.
    Route,
}
