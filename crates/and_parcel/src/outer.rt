//! Outer packets: what their headers say, and reading them.
ghost use Rattle.std.specs.Prelude.{◌≡◌, ◌+◌, ◌≤◌, ◌==◌, length, slice_index, IsTrue, take, drop};
ghost use Rattle.and_policy.specs.Numbers.{number_from};
ghost use Rattle.and_parcel.specs.Reading.{reading, covered, said};
ghost use Rattle.and_parcel.specs.Parcels.{ReadsBack};
ghost use Rattle.and_policy.specs.Outer as sums;

use crate::{IP_LEN, OUTER_LEN, UDP, VXLAN_PORT};
use and_lanes::{folded, ones_sum, words_sum};
use byteorder::{BigEndian, ByteOrder};

/// What the headers of an outer packet say. Addresses are 32-bit numbers whose highest byte is the first on the wire.
#[derive(Debug, Clone, Copy, PartialEq, Eq)]
pub struct Outer {
    /// The IPv4 source address.
    pub source: u32,
    /// The IPv4 destination address.
    pub destination: u32,
    /// The IPv4 time to live.
    pub ttl: u8,
    /// The VXLAN network identifier, a 24-bit number.
    pub vni: u32,
    /// The UDP source port.
    pub source_port: u16,
    /// Whether there is a UDP checksum.
    pub sealed: bool,
}

/// Why bytes are no outer packet, by the first check that fails.
#[derive(Debug, Clone, Copy, PartialEq, Eq)]
pub enum WrapFault {
    /// The first byte is not that of IPv4 with a header of 20 bytes.
    Version,
    /// The IPv4 header checksum is wrong (RFC 791, section 3.1).
    Header,
    /// The protocol is not UDP.
    Protocol,
    /// The destination port is not that of VXLAN, 4789.
    Port,
    /// The I flag of VXLAN is not set (RFC 7348, section 5).
    Flag,
    /// There are fewer than 36 bytes, or a length field is not that of the bytes.
    Length,
    /// There is a UDP checksum, and it is wrong (RFC 768).
    Checksum,
}

// The 16-bit number at this byte.
fn number16(bytes: &[u8], at: usize) -> u16
    requires { at + 2 ≤ length bytes.now }
    ensures { result ≡ number_from at 2 bytes.now }
{
    BigEndian::read_u16(&bytes[at..])
}

// The 32-bit number at this byte.
fn number32(bytes: &[u8], at: usize) -> u32
    requires { at + 4 ≤ length bytes.now }
    ensures { result ≡ number_from at 4 bytes.now }
{
    BigEndian::read_u32(&bytes[at..])
}

// The VNI: the 24-bit number at byte 32.
fn vni(bytes: &[u8]) -> u32
    requires { OUTER_LEN ≤ length bytes.now }
    ensures { result ≡ number_from 32 3 bytes.now }
{
    BigEndian::read_u24(&bytes[32..])
}

/// The one's complement sum of what the UDP checksum covers.
pub(crate) fn covered_sum(bytes: &[u8]) -> u16
    requires whole { OUTER_LEN ≤ length bytes.now }
    requires short { length bytes.now ≤ 65_535 }
    ensures { result ≡ sums.ones_sum (covered bytes.now) }
{
    let addresses = words_sum(&bytes[12..IP_LEN]);
    let len = u128::from(number16(bytes, 24));
    folded(addresses + (u128::from(UDP) + (len + words_sum(&bytes[IP_LEN..]))))
}

// What the headers say, whatever they are.
fn outer_of(bytes: &[u8]) -> Outer
    requires { OUTER_LEN ≤ length bytes.now }
    ensures { result ≡ said bytes.now }
{
    Outer {
        source: number32(bytes, 12),
        destination: number32(bytes, 16),
        ttl: bytes[8],
        vni: vni(bytes),
        source_port: number16(bytes, 20),
        sealed: number16(bytes, 26) != 0,
    }
}

/// What the headers of an outer packet say, or the first check that the bytes fail.
///
/// The bytes are IPv4 without options (RFC 791, section 3.1), UDP (RFC 768), VXLAN (RFC 7348, section 5) and a frame.
/// A UDP checksum of 0 says that there is none. Type of service, identification, fragmentation, and all VXLAN bits but
/// the I flag and the VNI are not looked at.
#[tactic(auto, unfolding(crate::specs::Reading::reading))]
pub fn read_outer(bytes: &[u8]) -> Result<Outer, WrapFault>
    ensures { result ≡ reading bytes.now }
{
    if bytes.len() < OUTER_LEN {
        return Err(WrapFault::Length);
    }
    if bytes[0] != 0x45 {
        return Err(WrapFault::Version);
    }
    if ones_sum(&bytes[..IP_LEN]) != 0xffff {
        return Err(WrapFault::Header);
    }
    if usize::from(number16(bytes, 2)) != bytes.len()
        || usize::from(number16(bytes, 24)) != bytes.len() - IP_LEN
    {
        return Err(WrapFault::Length);
    }
    if bytes[9] != UDP {
        return Err(WrapFault::Protocol);
    }
    if number16(bytes, 22) != VXLAN_PORT {
        return Err(WrapFault::Port);
    }
    if number16(bytes, 26) != 0 && covered_sum(bytes) != 0xffff {
        return Err(WrapFault::Checksum);
    }
    if bytes[28] / 8 % 2 == 0 {
        return Err(WrapFault::Flag);
    }
    Ok(outer_of(bytes))
}

/// Law: what the headers of an outer packet say is read of it, sealed or not, for every frame that fits.
/// Whoever gets a packet that was sent so reads what was sent.
pub fn outer_packets_read_back()
    ensures { ReadsBack }
{}
