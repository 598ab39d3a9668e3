//! The source port of a flow.
ghost use Rattle.std.specs.Prelude.{◌≡◌};
ghost use Rattle.and_policy.specs.Outer as outer;

/// The outer UDP source port of a flow, by its flow hash: 49152 to 65535 (RFC 7348, section 5).
pub fn entropy_port(hash: u16) -> u16
    ensures { result ≡ outer.entropy_port hash }
{
    49_152 + hash % 16_384
}
