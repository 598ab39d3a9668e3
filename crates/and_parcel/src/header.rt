//! The 36 bytes before a frame.
ghost use Rattle.std.specs.Prelude.{◌≡◌, ◌==◌, ◌<◌, ◌≤◌, ◌^◌, ◌++◌, if◌then◌else◌, length, drop, Ok};
ghost use Rattle.and_policy.specs.Outer as outers;
ghost use Rattle.and_parcel.specs.Parcels.{IsInRange, envelope};
ghost use Rattle.and_parcel.specs.Sealing.{open_packet, checksummed, with_sum};
ghost use Rattle.and_parcel.specs.Reading.{reading};

use crate::outer::{Outer, covered_sum};
use crate::{IP_LEN, OUTER_LEN, UDP, VXLAN_PORT};
use and_lanes::ones_sum;
use byteorder::{BigEndian, ByteOrder};

// The IPv4 header before a frame of this length, with this checksum.
fn ip_header(outer: Outer, frame_len: u16, checksum: u16) -> [u8; IP_LEN]
    requires { frame_len ≤ 65_499 }
    ensures header { result ≡ outers.ip_header (envelope outer) frame_len checksum }
    ensures fits { (outer.source < 2 ^ 32) × (outer.destination < 2 ^ 32) × (outer.ttl < 2 ^ 8) }
{
    let mut bytes = [0; IP_LEN];
    bytes[0] = 0x45;
    BigEndian::write_u16(&mut bytes[2..], 36 + frame_len);
    bytes[6] = 0x40;
    bytes[8] = outer.ttl;
    bytes[9] = UDP;
    BigEndian::write_u16(&mut bytes[10..], checksum);
    BigEndian::write_u32(&mut bytes[12..], outer.source);
    BigEndian::write_u32(&mut bytes[16..], outer.destination);
    bytes
}

// The UDP header before a frame of this length, without a checksum.
fn udp_header(outer: Outer, frame_len: u16) -> [u8; 8]
    requires { frame_len ≤ 65_499 }
    ensures header { result ≡ outers.udp_header (envelope outer) frame_len 0 }
    ensures fits { outer.source_port < 2 ^ 16 }
{
    let mut bytes = [0; 8];
    BigEndian::write_u16(&mut bytes, outer.source_port);
    BigEndian::write_u16(&mut bytes[2..], VXLAN_PORT);
    BigEndian::write_u16(&mut bytes[4..], 16 + frame_len);
    bytes
}

// The VXLAN header.
fn vxlan_header(outer: Outer) -> [u8; 8]
    requires { outer.vni < 2 ^ 24 }
    ensures { result ≡ outers.vxlan_header (envelope outer) }
{
    let mut bytes = [0; 8];
    bytes[0] = 8;
    BigEndian::write_u24(&mut bytes[4..], outer.vni);
    bytes
}

// Writes the IPv4 header at the front.
fn put_ip(out: &mut [u8], outer: Outer, frame_len: u16, checksum: u16)
    requires room { IP_LEN ≤ length out.old }
    requires short { frame_len ≤ 65_499 }
    ensures { out.new ≡ outers.ip_header (envelope outer) frame_len checksum ++ drop IP_LEN out.old }
{
    let header = ip_header(outer, frame_len, checksum);
    out[..IP_LEN].copy_from_slice(&header);
}

// Writes the UDP header at the front.
fn put_udp(out: &mut [u8], outer: Outer, frame_len: u16)
    requires room { 8 ≤ length out.old }
    requires short { frame_len ≤ 65_499 }
    ensures header { out.new ≡ outers.udp_header (envelope outer) frame_len 0 ++ drop 8 out.old }
    ensures fits { outer.source_port < 2 ^ 16 }
{
    let header = udp_header(outer, frame_len);
    out[..8].copy_from_slice(&header);
}

// Writes the VXLAN header at the front.
fn put_vxlan(out: &mut [u8], outer: Outer)
    requires room { 8 ≤ length out.old }
    requires vni { outer.vni < 2 ^ 24 }
    ensures { out.new ≡ outers.vxlan_header (envelope outer) ++ drop 8 out.old }
{
    let header = vxlan_header(outer);
    out[..8].copy_from_slice(&header);
}

// Writes the 36 bytes before the frame, without a UDP checksum.
fn write_open(bytes: &mut [u8], outer: Outer)
    requires whole { OUTER_LEN ≤ length bytes.old }
    requires short { length bytes.old ≤ 65_535 }
    requires vni { outer.vni < 2 ^ 24 }
    ensures packet { bytes.new ≡ open_packet (envelope outer) (drop OUTER_LEN bytes.old) }
    ensures range { IsInRange outer }
{
    let frame_len = (bytes.len() - OUTER_LEN) as u16;
    let checksum = 0xffff - ones_sum(&ip_header(outer, frame_len, 0));
    put_ip(bytes, outer, frame_len, checksum);
    put_udp(&mut bytes[IP_LEN..], outer, frame_len);
    put_vxlan(&mut bytes[28..], outer);
}

// Writes the UDP checksum field.
fn put_sum(bytes: &mut [u8], sum: u16)
    requires { OUTER_LEN ≤ length bytes.old }
    ensures { bytes.new ≡ with_sum sum bytes.old }
{
    BigEndian::write_u16(&mut bytes[26..], sum);
}

// A computed checksum as it is sent: 0 would say that there is none.
fn sent(sum: u16) -> u16
    ensures { result ≡ (if sum == 0 then 65535 else sum) }
{
    if sum == 0 { 0xffff } else { sum }
}

/// Writes the UDP checksum of an outer packet (RFC 768), whatever its field had.
pub(crate) fn put_checksum(bytes: &mut [u8])
    requires whole { OUTER_LEN ≤ length bytes.old }
    requires short { length bytes.old ≤ 65_535 }
    ensures { bytes.new ≡ checksummed bytes.old }
{
    put_sum(bytes, 0);
    let sum = sent(0xffff - covered_sum(bytes));
    put_sum(bytes, sum);
}

/// Writes the 36 bytes before the frame, with a UDP checksum where it is sealed.
pub(crate) fn write_header(bytes: &mut [u8], outer: Outer)
    requires whole { OUTER_LEN ≤ length bytes.old }
    requires short { length bytes.old ≤ 65_535 }
    requires vni { outer.vni < 2 ^ 24 }
    ensures packet { bytes.new ≡ outers.outer_packet (envelope outer) (drop OUTER_LEN bytes.old) }
    ensures reads { reading bytes.new ≡ Ok outer }
    ensures range { IsInRange outer }
{
    write_open(bytes, outer);
    if outer.sealed {
        put_checksum(bytes);
    }
}
