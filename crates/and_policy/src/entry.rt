//! What tenants and the controller write into the log, and what hosts and gateways are programmed with.

use crate::packet::Tuple;

/// An IPv4 prefix. One of length 0 holds all addresses; a length above 32 holds none.
#[derive(Debug, Clone, Copy, PartialEq, Eq)]
pub struct Prefix {
    /// The address, the number whose highest byte is the first on the wire; bits past the length do not count.
    pub address: u32,
    /// How many of the highest bits count.
    pub length: u8,
}

/// The side of a virtual network's firewall that a rule is on.
#[derive(Debug, Clone, Copy, PartialEq, Eq)]
pub enum Side {
    /// Where a packet leaves its VM.
    Egress,
    /// Where a packet enters a VM.
    Ingress,
}

/// A firewall rule (ACL) of a virtual network. **The smaller priority number wins.**
#[derive(Debug, Clone, Copy, PartialEq, Eq)]
pub struct Rule {
    /// The rule's number, unique among the live rules of its network. It breaks ties of priority.
    pub number: u32,
    /// Rules are tried by priority, the smallest first.
    pub priority: u16,
    /// The side that it is on.
    pub side: Side,
    /// Whether a packet that matches may pass.
    pub allow: bool,
    /// Whether an allowed packet goes through the coprocessor of its host first.
    pub sealed: bool,
    /// The IPv4 protocol that it matches; none matches any.
    pub protocol: Option<u8>,
    /// The prefix of the source address.
    pub source: Prefix,
    /// The prefix of the destination address.
    pub destination: Prefix,
    /// The lowest source port that it matches. Ports are compared whatever the protocol is.
    pub source_low: u16,
    /// The highest source port that it matches.
    pub source_high: u16,
    /// The lowest destination port that it matches.
    pub destination_low: u16,
    /// The highest destination port that it matches.
    pub destination_high: u16,
}

/// Where a route leads.
#[derive(Debug, Clone, Copy, PartialEq, Eq)]
pub enum Target {
    /// Into the route's own network.
    Local,
    /// Into the peer network with this VNI (VPC peering).
    Peer(u32),
    /// Nowhere: the packet is dropped.
    Drop,
}

/// A route of a virtual network. The longest prefix wins, then the smaller number.
#[derive(Debug, Clone, Copy, PartialEq, Eq)]
pub struct Route {
    /// The route's number, unique among the live routes of its network.
    pub number: u32,
    /// The destinations that it is for.
    pub prefix: Prefix,
    /// Where it leads.
    pub target: Target,
}

/// One entry of the log. A network is named by its VNI (RFC 7348), a VM by its number.
#[derive(Debug, Clone, Copy, PartialEq, Eq)]
pub enum Entry {
    /// A virtual network comes to be.
    AddNet {
        net: u32,
    },
    /// A VM with its Ethernet address, its IPv4 address and its host is added to a network. Each address is the number whose
    /// highest byte is the first on the wire.
    AddVm {
        vm: u32,
        net: u32,
        mac: u64,
        ip: u32,
        host: u32,
    },
    /// A VM is taken away.
    RemoveVm {
        vm: u32,
    },
    /// A VM has moved to a host (live migration).
    Place {
        vm: u32,
        host: u32,
    },
    /// A network gets a rule.
    AddRule {
        net: u32,
        rule: Rule,
    },
    /// A network loses the rule of this number.
    DelRule {
        net: u32,
        number: u32,
    },
    /// A network gets a route.
    AddRoute {
        net: u32,
        route: Route,
    },
    /// A network loses the route of this number.
    DelRoute {
        net: u32,
        number: u32,
    },
    /// The controller's clock goes on by one.
    Tick,
}

/// Why an entry does not fit a log. The first check that fails is answered.
#[derive(Debug, Clone, Copy, PartialEq, Eq)]
pub enum EntryFault {
    /// There is no such network.
    NoNet,
    /// There is a network of this VNI.
    NetTaken,
    /// There is no such live VM.
    NoVm,
    /// An earlier entry added this VM, also where it was removed since.
    VmTaken,
    /// A live VM of some network has this Ethernet address.
    MacTaken,
    /// A live VM of this network has this IPv4 address.
    AddressTaken,
    /// There is no such host.
    NoHost,
    /// The network has no live rule of this number.
    NoRule,
    /// The network has a live rule of this number.
    RuleTaken,
    /// The network has no live route of this number.
    NoRoute,
    /// The network has a live route of this number.
    RouteTaken,
    /// The limit of networks, VMs, rules or routes is reached.
    TooMany,
}

/// An offload order: packets of network `net` to address `ip` go straight to host `to_host` in network `to_net`.
#[derive(Debug, Clone, Copy, PartialEq, Eq)]
pub struct Order {
    /// The source network.
    pub net: u32,
    /// The destination address, the number whose highest byte is the first on the wire.
    pub ip: u32,
    /// The destination network.
    pub to_net: u32,
    /// The destination host.
    pub to_host: u32,
    /// The order is over once this many ticks are in the log.
    pub until: u32,
}

/// One operation of a node's programme.
#[derive(Debug, Clone, Copy, PartialEq, Eq)]
pub enum Op {
    /// An entry of the log; every node gets each.
    Entry(Entry),
    /// An offload order; its own host alone gets it.
    Offload(Order),
}

/// What an entry in a flow cache is found by.
#[derive(Debug, Clone, Copy, PartialEq, Eq)]
pub struct FlowKey {
    /// The side of the decision.
    pub side: Side,
    /// The source VM for egress, the destination network for ingress.
    pub scope: u32,
    /// The packet's tuple.
    pub tuple: Tuple,
}
