//! Outer packets, read and written.
use crate::words::{bytes_of, next_word, number, tell_bytes};
use and_parcel::{Outer, Parcel, WrapFault, entropy_port, read_outer};
use and_policy::{flow_hash, host_address, redirect_address, route_address};
use and_wire::read_frame;
use anyhow::{Result, bail};
use std::alloc::Global;

/// The largest identifier of a network.
const MOST_VNI: u32 = 0xff_ffff;

fn fault_name(fault: WrapFault) -> &'static str {
    match fault {
        WrapFault::Version => "Version",
        WrapFault::Header => "Header",
        WrapFault::Protocol => "Protocol",
        WrapFault::Port => "Port",
        WrapFault::Flag => "Flag",
        WrapFault::Length => "Length",
        WrapFault::Checksum => "Checksum",
    }
}

fn tell_said(rt: &HostRuntime, outer: &Outer) -> Result<()> {
    let (source, destination, ttl) = (outer.source, outer.destination, outer.ttl);
    let (vni, port) = (outer.vni, outer.source_port);
    let how = if outer.sealed { "sealed" } else { "open" };
    println!(rt; "{source} {destination} {ttl} {vni} {port} {how}")?;
    Ok(())
}

/// What the headers of an outer packet say.
pub fn tell_outer(rt: &HostRuntime, digits: &str) -> Result<()> {
    let bytes = bytes_of(rt.alloc(), digits)?;
    match read_outer(bytes.as_slice()) {
        Ok(outer) => tell_said(rt, &outer),
        Err(fault) => {
            let name = fault_name(fault);
            println!(rt; "{name}")?;
            Ok(())
        }
    }
}

/// The underlay address of the node.
fn address_of(word: &str) -> u32 {
    let (kind, number) = word.split_at_checked(1).unwrap_or(("", ""));
    let number = u32::from(number.parse::<u16>().unwrap_or(0));
    if kind == "h" {
        host_address(number)
    } else if kind == "g" {
        route_address(number)
    } else {
        redirect_address(number)
    }
}

/// The parcel of a frame; its number is 3, and its VM's 1.
pub fn parcel_of(alloc: Global, frame: &[u8], packet: u32) -> Result<Parcel> {
    if read_frame(frame).is_err() {
        bail!("no frame");
    }
    match Parcel::make(alloc, frame, packet, 1) {
        Ok(parcel) => Ok(parcel),
        Err(_) => bail!("no memory"),
    }
}

/// Wraps the parcel so, and seals it later where that is asked for.
fn wrap(parcel: &mut Parcel, outer: &Outer, later: bool) -> Result<()> {
    if MOST_VNI < outer.vni {
        bail!("no network");
    }
    parcel.wrap(outer);
    if later {
        parcel.seal();
    }
    Ok(())
}

/// The outer headers that the words ask for, and the frame's digits.
fn asked<'a>(how: &str, words: &'a str) -> (Outer, &'a str) {
    let (source, words) = next_word(words);
    let (destination, words) = next_word(words);
    let (ttl, words) = next_word(words);
    let (vni, digits) = next_word(words);
    let outer = Outer {
        source: address_of(source),
        destination: address_of(destination),
        ttl: (number(ttl) % 256) as u8,
        vni: number(vni),
        source_port: 0,
        sealed: how == "sealed",
    };
    (outer, digits)
}

/// The source port of the frame's outer packets.
fn port_of(frame: &[u8]) -> u16 {
    match read_frame(frame) {
        Ok(fields) => entropy_port(flow_hash(&fields.tuple)),
        Err(_) => 0,
    }
}

/// The outer packet that the words ask for, and what is read of it.
pub fn tell_wrapped(rt: &HostRuntime, words: &str) -> Result<()> {
    let (how, words) = next_word(words);
    let (mut outer, digits) = asked(how, words);
    let frame = bytes_of(rt.alloc(), digits)?;
    outer.source_port = port_of(frame.as_slice());
    let mut parcel = parcel_of(rt.alloc(), frame.as_slice(), 3)?;
    wrap(&mut parcel, &outer, how == "later")?;
    tell_bytes(rt, parcel.wire())?;
    let same = parcel.frame() == frame.as_slice();
    let (packet, vm) = (parcel.packet(), parcel.vm());
    print!(rt; " {packet} {vm} {same} ")?;
    match parcel.unwrap() {
        Ok(outer) => tell_said(rt, &outer),
        Err(_) => bail!("it does not read back"),
    }
}
