//! The outer headers of sends.
ghost use Rattle.std.specs.Prelude.{◌≡◌, ◌<◌, ◌^◌};
ghost use Rattle.and_events.specs.OuterPackets as packets;
ghost use Rattle.and_events.specs.State.{node_at};
ghost use Rattle.and_kept.specs.Outers.{HasAddress, wrapped};

use and_events::{Carried, Endpoint, Node};
use and_parcel::{Outer, Parcel, entropy_port};
use and_policy::{Tuple, flow_hash, host_address, redirect_address, route_address};

// The underlay address from which a node sends.
fn source_address(node: Node) -> u32
    requires { HasAddress node }
    ensures { result ≡ packets.source_address node }
{
    match node {
        Node::Host(host) => host_address(host),
        Node::Gate(gateway) => route_address(gateway),
    }
}

// The underlay address of an endpoint.
fn endpoint_address(target: Endpoint) -> u32
    requires { HasAddress (node_at target) }
    ensures { result ≡ packets.endpoint_address target }
{
    match target {
        Endpoint::Host(host) => host_address(host),
        Endpoint::Route(gateway) => route_address(gateway),
        Endpoint::Redirect(gateway) => redirect_address(gateway),
    }
}

/// Writes the outer headers of a send into the parcel, with what is known of its packet before the send: the TTL is the
/// hops left, and the UDP checksum is computed where the packet is sealed.
pub(crate) fn wrap_to(
    node: Node,
    tuple: &Tuple,
    carried: Carried,
    parcel: &mut Parcel,
    net: u32,
    target: Endpoint,
)
    requires node { HasAddress node }
    requires target { HasAddress (node_at target) }
    requires hops { carried.hops < 2 ^ 8 }
    requires net { net < 2 ^ 24 }
    ensures { parcel.new ≡ wrapped node tuple.now carried parcel.old net target }
{
    parcel.wrap(&Outer {
        source: source_address(node),
        destination: endpoint_address(target),
        ttl: carried.hops as u8,
        vni: net,
        source_port: entropy_port(flow_hash(tuple)),
        sealed: carried.sealed,
    });
}
