//! Parcels: a frame with room for the outer headers before it.
ghost use Rattle.std.specs.Prelude.{◌≡◌, ◌<◌, ◌^◌, IsOk, IfOk, Ok, replicate};
ghost use Rattle.and_policy.specs.Frames.{fields};
ghost use Rattle.and_policy.specs.Outer.{outer_header, outer_packet};
ghost use Rattle.and_parcel.specs.Parcels.{envelope, wire_of};
ghost use Rattle.and_parcel.specs.Sealing.{IsWrapped, IsWrapping, sealed};
ghost use Rattle.and_parcel.specs.declared.outer.Outer.{Outer};
ghost use Rattle.and_parcel.specs.Reading.{reading};

use crate::OUTER_LEN;
use crate::header::{put_checksum, write_header};
use crate::outer::{Outer, WrapFault, read_outer};
use and_policy::NoMemory;
use std::alloc::Global;
use std::marker::Model;

/// A frame on its way, with the number of its packet and the VM that sent it. Contracts see it as its 36 bytes of
/// outer headers, its frame and these two.
#[derive(Debug, Drop)]
pub struct Parcel {
    bytes: Vec<u8>,
    packet: u32,
    vm: u32,
}

impl Model for Parcel {
    ghost use Rattle.std.specs.Prelude.{◌≤◌, length, take, drop};
    ghost use Rattle.and_parcel.specs.Parcels.{ParcelView};

    ghost Value = { ParcelView };

    ghost view = { λ p. record { header = take 36 p.bytes.items; frame = drop 36 p.bytes.items; packet = p.packet; vm = p.vm } };

    ghost invariant = { λ p. (36 ≤ length p.bytes.items) × (length p.bytes.items ≤ 65535) };
}

impl Parcel {
    /// A parcel of a frame that is a packet for the switch. Its outer headers are zero bytes. Want of memory is the only
    /// error.
    pub fn make(alloc: Global, frame: &[u8], packet: u32, vm: u32) -> Result<Parcel, NoMemory>
        requires { IsOk (fields frame.now) }
        ensures { IfOk result (λ parcel. parcel ≡ record { header = replicate 36 0; frame = frame.now; packet = packet; vm = vm }) }
    {
        let Ok(mut bytes) = Vec::with_capacity(alloc, OUTER_LEN + frame.len()) else {
            return Err(NoMemory);
        };
        if bytes.extend_from_slice(&[0; OUTER_LEN]).is_err() {
            return Err(NoMemory);
        }
        if bytes.extend_from_slice(frame).is_err() {
            return Err(NoMemory);
        }
        Ok(Parcel { bytes, packet, vm })
    }

    /// The frame.
    pub fn frame(&self) -> &[u8]
        ensures { result.now ≡ self.now.frame }
    {
        let (_, frame) = self.bytes.as_slice().split_at(OUTER_LEN);
        frame
    }

    /// The number of the packet.
    pub fn packet(&self) -> u32
        ensures { result ≡ self.now.packet }
    {
        self.packet
    }

    /// The number of the VM that sent the packet.
    pub fn vm(&self) -> u32
        ensures { result ≡ self.now.vm }
    {
        self.vm
    }

    /// Writes the outer headers, with a UDP checksum (RFC 768) where they are sealed. Takes no memory, and neither moves nor copies the
    /// frame.
    pub fn wrap(&mut self, outer: &Outer)
        requires { outer.now.vni < 2 ^ 24 }
        ensures header { self.new ≡ record self.old { header = outer_header (envelope outer.now) self.old.frame } }
        ensures wrapped { IsWrapping outer.now self.new }
        // What was written is read again.
        ensures unwraps { reading (wire_of self.new) ≡ Ok outer.now }
    {
        write_header(&mut self.bytes, *outer);
    }

    /// Writes the UDP checksum of a wrapped parcel (RFC 768). Takes no memory, and neither moves nor copies the frame.
    pub fn seal(&mut self)
        requires { IsWrapped self.old }
        // What was wrapped stands there sealed, and is read so.
        ensures sealed { (o : Outer) → IsWrapping o self.old → wire_of self.new ≡ outer_packet (envelope (sealed o)) self.old.frame }
        ensures unwraps { (o : Outer) → reading (wire_of self.old) ≡ Ok o → reading (wire_of self.new) ≡ Ok (sealed o) }
        ensures kept { (self.new.frame ≡ self.old.frame) × (self.new.packet ≡ self.old.packet) × (self.new.vm ≡ self.old.vm) }
    {
        put_checksum(&mut self.bytes);
    }

    /// What the outer headers say, or the first check that they fail: [`read_outer`] of [`Parcel::wire`].
    pub fn unwrap(&self) -> Result<Outer, WrapFault>
        ensures { result ≡ reading (wire_of self.now) }
    {
        read_outer(self.bytes.as_slice())
    }

    /// The outer packet: 36 bytes of outer headers, and the frame.
    pub fn wire(&self) -> &[u8]
        ensures { result.now ≡ wire_of self.now }
    {
        self.bytes.as_slice()
    }
}
