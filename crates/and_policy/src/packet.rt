//! What the switch reads of a packet.

/// The five numbers of an IPv4 packet by which rules and routes decide.
/// The ports are 0 for fragments and for protocols other than TCP and UDP.
/// Addresses are 32-bit numbers whose highest byte is the first on the wire (RFC 791, section 3.1).
#[derive(Debug, Clone, Copy, PartialEq, Eq)]
pub struct Tuple {
    /// The IPv4 protocol number: 6 is TCP, 17 is UDP.
    pub protocol: u8,
    /// The IPv4 source address.
    pub source: u32,
    /// The IPv4 destination address.
    pub destination: u32,
    /// The TCP or UDP source port.
    pub source_port: u16,
    /// The TCP or UDP destination port.
    pub destination_port: u16,
}

/// Why a frame is no packet for this switch, in the order in which the checks are made.
#[derive(Debug, Clone, Copy, PartialEq, Eq)]
pub enum Skip {
    /// The frame has more than 65,499 bytes, so it fits no outer packet.
    TooLong,
    /// The frame has no whole Ethernet II header of 14 bytes.
    Short,
    /// The Ethernet type is not 0x0800.
    NotIp4,
    /// Fewer bytes are there than the IPv4 header or its total length asks for.
    Cut,
    /// The IP version is not 4, or the header length or the total length is too small.
    BadIp4,
    /// A TCP or UDP packet that is no fragment has no room for its ports.
    ShortPorts,
}

/// What is read of a frame.
#[derive(Debug, Clone, Copy, PartialEq, Eq)]
pub struct Fields {
    /// The Ethernet source address, a 48-bit number whose highest byte is the first on the wire.
    pub source_mac: u64,
    /// The tuple of the IPv4 packet in the frame.
    pub tuple: Tuple,
}
