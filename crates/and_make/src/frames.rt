//! The frames of a drill.
ghost use Rattle.std.specs.Prelude.{◌≡◌, ◌<◌, ◌≤◌, ◌++◌, ◌∷◌, [], replicate, IfOk, OnOk};
ghost use Rattle.rand_pcg.specs.Pcg.{pcg32};
ghost use Rattle.and_make.specs.Frames as spec;

use crate::{FIRST_ADDRESS, FIRST_MAC, MAX_PACKETS, NETWORKS, TCP, VMS};
use and_capture::{Bytes, Frames, Taken};
use and_policy::NoMemory;
use byteorder::{BigEndian, ByteOrder};
use rand_core::utils::NextWord;
use rand_pcg::Pcg32;
use std::alloc::Global;

/// The bytes of an Ethernet header.
const ETHERNET_LEN: usize = 14;

/// The bytes of an IPv4 header without options.
const IP_LEN: usize = 20;

/// The bytes of a TCP header without options.
const TCP_LEN: usize = 20;

/// The EtherType of IPv4.
const IP4: u16 = 0x0800;

/// The stream of the generator.
const STREAM: u64 = 1;

// The Ethernet header of a frame between two VMs.
fn ethernet_header(from: u32, to: u32) -> [u8; ETHERNET_LEN]
    requires { (from < VMS) × (to < VMS) }
    ensures { result ≡ spec.ethernet_header from to }
{
    let mut bytes = [0; ETHERNET_LEN];
    BigEndian::write_u48(&mut bytes, FIRST_MAC + u64::from(to));
    BigEndian::write_u48(&mut bytes[6..], FIRST_MAC + u64::from(from));
    BigEndian::write_u16(&mut bytes[12..], IP4);
    bytes
}

// The IPv4 header of a packet between two VMs, without a checksum.
fn ip_header(from: u32, to: u32, payload: u16) -> [u8; IP_LEN]
    requires vms { (from < VMS) × (to < VMS) }
    requires payload { payload < 400 }
    ensures { result ≡ spec.ip_header from to payload }
{
    let mut bytes = [0; IP_LEN];
    bytes[0] = 0x45;
    BigEndian::write_u16(&mut bytes[2..], 40 + payload);
    bytes[8] = 64;
    bytes[9] = TCP;
    BigEndian::write_u32(&mut bytes[12..], FIRST_ADDRESS + from);
    BigEndian::write_u32(&mut bytes[16..], FIRST_ADDRESS + to);
    bytes
}

// The TCP header, which says its ports and its length.
fn tcp_header(from: u16, to: u16) -> [u8; TCP_LEN]
    ensures { result ≡ spec.tcp_header from to }
{
    let mut bytes = [0; TCP_LEN];
    BigEndian::write_u16(&mut bytes, from);
    BigEndian::write_u16(&mut bytes[2..], to);
    bytes[12] = 0x50;
    bytes
}

// Puts the bytes.
fn put(part: &[u8], bytes: &mut Vec<u8>) -> Result<(), NoMemory>
    ensures { OnOk result (bytes.new.items ≡ bytes.old.items ++ part.now) }
{
    bytes.extend_from_slice(part).map_err(|_| NoMemory)
}

// So many zero bytes.
fn zeros(alloc: Global, count: u16) -> Result<Vec<u8>, NoMemory>
    ensures { IfOk result (λ zeros. zeros.items ≡ replicate count 0) }
{
    match vec![in alloc; 0; usize::from(count)] {
        Ok(zeros) => Ok(zeros),
        Err(_) => Err(NoMemory),
    }
}

// The frame that three words give.
#[tactic(auto, unfolding(crate::specs::Frames::frame))]
fn frame(alloc: Global, x: u32, y: u32, z: u32) -> Result<Bytes, NoMemory>
    ensures { IfOk result (λ bytes. bytes ≡ spec.frame x y z) }
{
    let source = x % VMS;
    let destination = source % NETWORKS + NETWORKS * (x / 64 % 10);
    let payload = (y / 16 % 400) as u16;
    let source_port = (1024 + z % 4) as u16;
    let destination_port = (80 + y % 12) as u16;
    let mut bytes = Vec::new(alloc);
    put(&ethernet_header(source, destination), &mut bytes)?;
    put(&ip_header(source, destination, payload), &mut bytes)?;
    put(&tcp_header(source_port, destination_port), &mut bytes)?;
    put(zeros(alloc, payload)?.as_slice(), &mut bytes)?;
    Bytes::make(alloc, bytes.as_slice()).map_err(|_| NoMemory)
}

// Frame i, of the next three words.
#[tactic(auto, using(crate::proofs::Taken::frame_length))]
fn next_taken(alloc: Global, i: u32, rng: &mut Pcg32) -> Result<Taken, NoMemory>
    ensures taken { let x = pcg32 rng.old in let y = pcg32 x.1 in let z = pcg32 y.1 in IfOk result (λ t. t ≡ spec.taken i x.0 y.0 z.0) }
    ensures drawn { rng.new ≡ (pcg32 (pcg32 (pcg32 rng.old).1).1).1 }
{
    let x = rng.next_word();
    let y = rng.next_word();
    let z = rng.next_word();
    let frame = frame(alloc, x, y, z)?;
    let original = frame.as_bytes().len() as u32;
    Ok(Taken {
        seconds: i,
        fraction: 0,
        original,
        frame,
    })
}

// Puts a frame at the end.
fn add(frame: Taken, frames: &mut Frames) -> Result<(), NoMemory>
    ensures { OnOk result (frames.new ≡ frames.old ++ frame ∷ []) }
{
    frames.push(frame).map_err(|_| NoMemory)
}

/// The frames of n packets.
pub(crate) fn frames(alloc: Global, n: u32) -> Result<Frames, NoMemory>
    requires { n ≤ MAX_PACKETS }
    ensures { IfOk result (λ frames. frames ≡ spec.frames_from 0 (spec.words n)) }
{
    let mut rng = Pcg32::new(u64::from(n), STREAM);
    let mut frames = Frames::new(alloc);
    for i in 0..n {
        let taken = next_taken(alloc, i, &mut rng)?;
        add(taken, &mut frames)?;
    }
    Ok(frames)
}
