//! Frames that VMs send, read in place.
//!
//! [`read_frame`] finds the Ethernet source address and the IPv4 tuple of a frame, or the first check that the frame
//! fails. It stands on `byteorder` for numbers in network byte order, and takes no memory.
#![tactic(auto)]

ghost use Rattle.std.specs.Prelude.{◌≡◌, ◌+◌, ◌*◌, ◌≤◌, IsTrue, length};
ghost use Rattle.and_policy.specs.Frames as frames;
ghost use Rattle.and_policy.specs.Numbers.{number_from};

use and_policy::Tuple;
pub use and_policy::{Fields, Skip};
use byteorder::{BigEndian, ByteOrder};

/// The longest frame that fits an outer packet: 65,535 bytes less 36 of outer headers.
const LONGEST: usize = 65_499;

/// The bytes of an Ethernet II header.
const ETHERNET: usize = 14;

/// The EtherType of IPv4.
const IP4: u16 = 0x0800;

// The 16-bit number at this byte.
fn number16(frame: &[u8], at: usize) -> u16
    requires { at + 2 ≤ length frame.now }
    ensures { result ≡ number_from at 2 frame.now }
{
    BigEndian::read_u16(&frame[at..])
}

// The 32-bit number at this byte.
fn number32(frame: &[u8], at: usize) -> u32
    requires { at + 4 ≤ length frame.now }
    ensures { result ≡ number_from at 4 frame.now }
{
    BigEndian::read_u32(&frame[at..])
}

// The 48-bit number at this byte.
fn number48(frame: &[u8], at: usize) -> u64
    requires { at + 6 ≤ length frame.now }
    ensures { result ≡ number_from at 6 frame.now }
{
    BigEndian::read_u48(&frame[at..])
}

// The length of the IPv4 header in words of four bytes.
fn header_words(frame: &[u8]) -> usize
    requires { 15 ≤ length frame.now }
    ensures { result ≡ frames.header_words frame.now }
{
    usize::from(frame[ETHERNET] % 16)
}

// The total length; where the field is 0, the bytes that are there.
fn total_length(frame: &[u8]) -> usize
    requires { 34 ≤ length frame.now }
    ensures { result ≡ frames.total_length frame.now }
{
    match number16(frame, 16) {
        0 => frame.len() - ETHERNET,
        field => usize::from(field),
    }
}

// Whether MF is set or the fragment offset is not 0.
fn is_fragment(frame: &[u8]) -> bool
    requires { 34 ≤ length frame.now }
    ensures { result ≡ frames.is_fragment frame.now }
{
    let flags = number16(frame, 20);
    flags / 0x2000 % 2 == 1 || flags % 0x2000 > 0
}

// Whether the packet is TCP or UDP and no fragment.
fn has_ports(frame: &[u8]) -> bool
    requires { 34 ≤ length frame.now }
    ensures { result ≡ frames.has_ports frame.now }
{
    !is_fragment(frame) && (frame[23] == 6 || frame[23] == 17)
}

// The 16-bit number at this byte behind the IPv4 header, where the packet has ports; otherwise 0.
fn port_at(at: usize, frame: &[u8]) -> u16
    requires there { 34 ≤ length frame.now }
    requires near { at ≤ 2 }
    requires room { IsTrue (frames.has_ports frame.now) → 18 + 4 * frames.header_words frame.now ≤ length frame.now }
    ensures { result ≡ frames.port_at at frame.now }
{
    if has_ports(frame) {
        number16(frame, ETHERNET + 4 * header_words(frame) + at)
    } else {
        0
    }
}

/// The Ethernet source address and the tuple of a frame, or the first check that it fails.
///
/// The frame is Ethernet II with an IPv4 packet (RFC 791, section 3.1). Ports are those of TCP and UDP (RFC 9293,
/// section 3.1, and RFC 768) where the packet is no fragment, and 0 otherwise. A total length of 0 stands for what is
/// there. Bytes past the total length are padding, and checksums inside the frame are not looked at.
pub fn read_frame(frame: &[u8]) -> Result<Fields, Skip>
    ensures { result ≡ frames.fields frame.now }
{
    if frame.len() > LONGEST {
        return Err(Skip::TooLong);
    }
    if frame.len() < ETHERNET {
        return Err(Skip::Short);
    }
    if number16(frame, 12) != IP4 {
        return Err(Skip::NotIp4);
    }
    let packet_length = frame.len() - ETHERNET;
    if packet_length < 20 {
        return Err(Skip::Cut);
    }
    let header_length = 4 * header_words(frame);
    let total_length = total_length(frame);
    if frame[ETHERNET] / 16 != 4 || header_length < 20 || total_length < header_length {
        return Err(Skip::BadIp4);
    }
    if packet_length < total_length {
        return Err(Skip::Cut);
    }
    if has_ports(frame) && total_length < header_length + 4 {
        return Err(Skip::ShortPorts);
    }
    Ok(Fields {
        source_mac: number48(frame, 6),
        tuple: Tuple {
            protocol: frame[23],
            source: number32(frame, 26),
            destination: number32(frame, 30),
            source_port: port_at(0, frame),
            destination_port: port_at(2, frame),
        },
    })
}

#[cfg(test)]
mod tests {
    use super::*;

    // TCP from 10.0.0.1 port 4096 to 10.0.0.2 port 80.
    const F1: [u8; 54] = [
        0x02, 0x00, 0x00, 0x00, 0x00, 0x02, 0x02, 0x00, 0x00, 0x00, 0x00, 0x01, 0x08, 0x00, 0x45,
        0x00, 0x00, 0x28, 0x00, 0x00, 0x40, 0x00, 0x40, 0x06, 0x26, 0xce, 0x0a, 0x00, 0x00, 0x01,
        0x0a, 0x00, 0x00, 0x02, 0x10, 0x00, 0x00, 0x50, 0x00, 0x00, 0x00, 0x01, 0x00, 0x00, 0x00,
        0x00, 0x50, 0x02, 0x20, 0x00, 0x00, 0x00, 0x00, 0x00,
    ];

    // What `read_frame` answers of F1's ports with this type, first byte of the IPv4 header, total length and flags.
    #[derive(Debug, Clone, Copy)]
    struct Case {
        kind: u16,
        version: u8,
        total: u16,
        flags: u16,
        answer: Result<(u16, u16), Skip>,
    }

    const fn row(
        kind: u16,
        version: u8,
        total: u16,
        flags: u16,
        answer: Result<(u16, u16), Skip>,
    ) -> Case {
        Case {
            kind,
            version,
            total,
            flags,
            answer,
        }
    }

    fn ports(frame: &[u8]) -> Result<(u16, u16), Skip> {
        let fields = read_frame(frame)?;
        Ok((fields.tuple.source_port, fields.tuple.destination_port))
    }

    #[test]
    fn fields_of_a_frame(rt: HostRuntime) {
        let tuple = Tuple {
            protocol: 6,
            source: 0x0a00_0001,
            destination: 0x0a00_0002,
            source_port: 4096,
            destination_port: 80,
        };
        assert_eq!(rt;
            read_frame(&F1),
            Ok(Fields {
                source_mac: 0x0200_0000_0001,
                tuple
            })
        );
    }

    #[test]
    fn hostile_frames(rt: HostRuntime) {
        assert_eq!(rt; read_frame(&F1[..13]), Err(Skip::Short));
        assert_eq!(rt; read_frame(&F1[..14]), Err(Skip::Cut));
        assert_eq!(rt; read_frame(&[0; 65_499]), Err(Skip::NotIp4));
        assert_eq!(rt; read_frame(&[0; 65_500]), Err(Skip::TooLong));
        let cases = [
            row(0x0806, 0x45, 0x28, 0x4000, Err(Skip::NotIp4)),
            row(0x0800, 0x44, 0x28, 0x4000, Err(Skip::BadIp4)),
            row(0x0800, 0x65, 0x28, 0x4000, Err(Skip::BadIp4)),
            row(0x0800, 0x45, 0x13, 0x4000, Err(Skip::BadIp4)),
            row(0x0800, 0x45, 0x17, 0x4000, Err(Skip::ShortPorts)),
            row(0x0800, 0x45, 0x29, 0x4000, Err(Skip::Cut)),
            row(0x0800, 0x45, 0x00, 0x4000, Ok((4096, 80))),
            row(0x0800, 0x45, 0x14, 0x2001, Ok((0, 0))),
            row(0x0800, 0x45, 0x28, 0x2000, Ok((0, 0))),
            row(0x0800, 0x45, 0x28, 0x0001, Ok((0, 0))),
        ];
        for case in &cases {
            let mut frame = F1;
            BigEndian::write_u16(&mut frame[12..], case.kind);
            frame[14] = case.version;
            BigEndian::write_u16(&mut frame[16..], case.total);
            BigEndian::write_u16(&mut frame[20..], case.flags);
            assert_eq!(rt; ports(&frame), case.answer);
        }
    }
}
