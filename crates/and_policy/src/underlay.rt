//! The underlay: addresses of hosts and gateways, and the flow hash.
ghost use Rattle.std.specs.Prelude.{◌≡◌, ◌<◌};
ghost use Rattle.std.specs.List.{fold};
ghost use Rattle.and_policy.specs.FlowHash as spec;
ghost use Rattle.and_policy.specs.Numbers.{bytes_of};
ghost use Rattle.and_policy.specs.Outer as outer;

use crate::packet::Tuple;

/// The underlay address of a host: 172.16.h.1 of host h, as a number whose highest byte is the first on the wire.
pub fn host_address(host: u32) -> u32
    requires { host < 65536 }
    ensures { result ≡ outer.host_address host }
{
    0xac10_0001 + 256 * host
}

/// The underlay address of a gateway for packets to be routed, which is the source of all its sends too: 172.17.g.1 of
/// gateway g, as a number whose highest byte is the first on the wire.
pub fn route_address(gateway: u32) -> u32
    requires { gateway < 65536 }
    ensures { result ≡ outer.route_address gateway }
{
    0xac11_0001 + 256 * gateway
}

/// The underlay address of a gateway for packets to be redirected: 172.17.g.2 of gateway g, as a number whose highest byte
/// is the first on the wire.
pub fn redirect_address(gateway: u32) -> u32
    requires { gateway < 65536 }
    ensures { result ≡ outer.redirect_address gateway }
{
    0xac11_0002 + 256 * gateway
}

// The hash after one byte more.
fn step(hash: u16, byte: u8) -> u16
    ensures { result ≡ spec.hash_step hash byte }
{
    ((31 * u32::from(hash) + u32::from(byte)) % 65536) as u16
}

// The hash after these bytes more.
fn mixed(hash: u16, bytes: &[u8]) -> u16
    ensures { result ≡ fold spec.hash_step hash bytes.now }
{
    let mut hash = hash;
    for byte in bytes {
        hash = step(hash, *byte);
    }
    hash
}

// The hash after the protocol alone.
fn of_protocol(protocol: u8) -> u16
    ensures { result ≡ fold spec.hash_step 0 (bytes_of 1 protocol) }
{
    step(0, protocol)
}

/// The flow hash (entropy hash) of a packet. The source port of its outer UDP header (RFC 7348, section 5), its gateway
/// and its group in a flow cache are taken from it.
///
/// It starts at 0, and for each byte of protocol, source address, destination address, source port and destination port,
/// the highest byte first, it becomes `(31 * hash + byte) % 65536`.
pub fn flow_hash(tuple: &Tuple) -> u16
    ensures { result ≡ spec.flow_hash tuple.now }
{
    let hash = of_protocol(tuple.protocol);
    let hash = mixed(hash, &tuple.source.to_be_bytes());
    let hash = mixed(hash, &tuple.destination.to_be_bytes());
    let hash = mixed(hash, &tuple.source_port.to_be_bytes());
    mixed(hash, &tuple.destination_port.to_be_bytes())
}
