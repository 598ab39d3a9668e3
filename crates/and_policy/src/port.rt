//! Ports of VMs at hosts, and what usage is counted by.

/// The port of a VM at a host.
#[derive(Clone, Copy, PartialEq, Eq)]
pub enum Port {
    /// The VM has no port here.
    Absent,
    /// The VM runs here.
    Running,
    /// The VM is on its way from here (live migration, blackout).
    Paused,
    /// The VM is on its way to here.
    Arriving,
    /// The VM has moved to `host`; the log entry of this number, from 1, says so.
    Hairpin { host: u32, entry: u32 },
}

/// What usage is counted by. Keys are ordered by host, then network, then address.
#[derive(Clone, Copy, PartialEq, Eq)]
pub struct UsageKey {
    /// The host whose worker let the packets leave.
    pub host: u32,
    /// The source network.
    pub net: u32,
    /// The destination address, the number whose highest byte is the first on the wire.
    pub ip: u32,
}
