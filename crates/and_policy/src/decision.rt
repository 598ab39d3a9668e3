//! What the policy says of a packet.

/// What decided: a rule or a route by its number, or the verdict that holds where none matches.
#[derive(Debug, Clone, Copy, PartialEq, Eq)]
pub enum Name {
    /// No rule or route matched.
    Implied,
    /// The rule or the route of this number.
    Rule(u32),
}

/// What the rules of one side say.
#[derive(Debug, Clone, Copy, PartialEq, Eq)]
pub struct Verdict {
    /// The rule that decided.
    pub by: Name,
    /// Whether the packet may pass.
    pub allow: bool,
    /// Whether it is sealed first.
    pub sealed: bool,
}

/// What the egress rules say of a packet of a VM, before it is known where it goes.
#[derive(Debug, Clone, Copy, PartialEq, Eq)]
pub enum Exit {
    /// The VM is not live.
    NoVm,
    /// The source address is not the VM's (anti-spoofing).
    Spoofed,
    /// A rule denies it.
    Denied { number: u32 },
    /// It may leave.
    Allowed { by: Name, sealed: bool },
}

/// Where a packet goes that leaves its host.
#[derive(Debug, Clone, Copy, PartialEq, Eq)]
pub enum Dest {
    /// Straight to a host, by a live offload order, with this network as VNI.
    Offload { host: u32, net: u32 },
    /// To a gateway (hoverboard), with its own network as VNI.
    Hover { gateway: u32 },
}

/// What a host decides of a packet that leaves a VM.
#[derive(Debug, Clone, Copy, PartialEq, Eq)]
pub enum Leaving {
    /// The VM is not live.
    NoVm,
    /// The source address is not the VM's.
    Spoofed,
    /// A rule denies it.
    Denied { number: u32 },
    /// It leaves for `dest`, sealed or plain.
    Allowed { by: Name, sealed: bool, dest: Dest },
}

/// What a host decides of a packet that has come for a VM.
#[derive(Debug, Clone, Copy, PartialEq, Eq)]
pub enum Landing {
    /// No live VM of the network has the destination address.
    NoOwner,
    /// The owner of the address, and what its network's ingress rules say.
    Owned { vm: u32, by: Name, pass: bool },
}

/// What the routes of a network say of a destination. In `by`, `Rule(n)` is route n.
#[derive(Debug, Clone, Copy, PartialEq, Eq)]
pub enum Routing {
    /// The packet is dropped.
    Dropped { by: Name },
    /// The packet goes into this network.
    Into { by: Name, net: u32 },
}

/// What a gateway decides by route and owner. In `by`, `Rule(n)` is route n.
#[derive(Debug, Clone, Copy, PartialEq, Eq)]
pub enum Routed {
    /// The route drops the packet.
    Dropped { by: Name },
    /// No live VM of the routed network has the address.
    NoOwner { by: Name },
    /// The packet goes to the owner's host with the routed network as VNI.
    To { by: Name, net: u32, host: u32 },
}

/// Where the owner of an address is.
#[derive(Debug, Clone, Copy, PartialEq, Eq)]
pub enum Located {
    /// No live VM of the network has the address.
    NoOwner,
    /// The owner's host.
    To { host: u32 },
}

/// What a flow cache keeps of a decision.
#[derive(Debug, Clone, Copy, PartialEq, Eq)]
pub enum Outcome {
    /// A packet leaves a VM.
    Leaving(Leaving),
    /// A packet has come for a VM.
    Landing(Landing),
}

/// How a decision was found.
#[derive(Debug, Clone, Copy, PartialEq, Eq)]
pub enum Way {
    /// By the flow cache; no rule was looked at.
    Fast,
    /// By the tables.
    Slow,
}

/// A host's decision by the first `at` operations of its programme.
#[derive(Debug, Clone, Copy, PartialEq, Eq)]
pub struct Decision {
    /// How many operations of the programme are behind it.
    pub at: u32,
    /// How it was found.
    pub way: Way,
    /// What it says.
    pub outcome: Outcome,
}

/// A gateway's decision by the first `at` operations of its programme.
#[derive(Debug, Clone, Copy, PartialEq, Eq)]
pub enum GateDecision {
    /// Of a packet for the route address.
    Routed { at: u32, routed: Routed },
    /// Of a packet for the redirect address.
    Located { at: u32, located: Located },
}
