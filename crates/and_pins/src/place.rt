//! Where a hairpin stands, and how it is put there and taken away.
ghost use Rattle.std.specs.Prelude.{◌≡◌, ◌<◌, ◌≤◌, ◌+◌, ◌==◌, not, length, slice_index_or, true, false, Some, None};
ghost use Rattle.std.specs.List.{filter};
ghost use Rattle.std.specs.Vec.{vec_len, vec_capacity};
ghost use Rattle.and_policy.specs.Sorting.{Ascends};
ghost use Rattle.and_pins.specs.Pinned.{ChangesAt, IsFirstPlace, IsPlace, is_of, pin_before, place_before};

use crate::pin::Pin;

// Whether the hairpin comes before that of the VM at the host: by host, then by VM.
fn is_before(pin: &Pin, host: u32, vm: u32) -> bool
    ensures { result ≡ place_before pin.now.host pin.now.vm host vm }
{
    pin.host < host || (pin.host == host && pin.vm < vm)
}

// The place of the first hairpin that does not come before that of the VM at the host.
fn place_of(pins: &[Pin], host: u32, vm: u32) -> usize
    requires { Ascends pin_before pins.now }
    ensures { IsPlace host vm pins.now result }
{
    pins.partition_point(|pin| is_before(pin, host, vm))
}

// Whether the hairpin of the VM at the host stands at the place.
fn stands(pins: &[Pin], at: usize, host: u32, vm: u32) -> bool
    ensures there { result ≡ true → (at < length pins.now) × ((d : Pin) → is_of host vm (slice_index_or pins.now at d) ≡ true) }
    ensures absent { result ≡ false → at < length pins.now → (d : Pin) → is_of host vm (slice_index_or pins.now at d) ≡ false }
{
    at < pins.len() && pins[at].host == host && pins[at].vm == vm
}

/// Puts the hairpin at its place, in place of one that stands there. There is room for one more.
pub(crate) fn put_in(pins: &mut Vec<Pin>, pin: Pin)
    requires room { vec_len pins.old < vec_capacity pins.old }
    requires ordered { Ascends pin_before pins.old.items }
    ensures changes { ChangesAt pins.old.items pins.new.items pin.host pin.vm (Some pin.entry) }
    ensures more { length pins.new.items ≤ length pins.old.items + 1 }
    ensures capacity { vec_capacity pins.old ≤ vec_capacity pins.new }
{
    let at = place_of(pins, pin.host, pin.vm);
    if stands(pins, at, pin.host, pin.vm) {
        pins[at] = pin;
    } else {
        match pins.insert(at, pin) {
            Ok(()) => {}
            Err(_) => unreachable!(),
        }
    }
}

/// Takes the hairpin of the VM at the host away, and says whether there was one.
pub(crate) fn take_out(pins: &mut Vec<Pin>, host: u32, vm: u32) -> bool
    requires { Ascends pin_before pins.old.items }
    ensures none { result ≡ false → pins.new.items ≡ pins.old.items }
    ensures changes { ChangesAt pins.old.items pins.new.items host vm None }
    ensures fewer { length pins.new.items ≤ length pins.old.items }
    ensures capacity { vec_capacity pins.new ≡ vec_capacity pins.old }
{
    let at = place_of(pins, host, vm);
    if stands(pins, at, host, vm) {
        let _ = pins.remove(at);
        true
    } else {
        false
    }
}

/// Takes the hairpins of the VM away, at whichever hosts.
pub(crate) fn take_out_all(pins: &mut Vec<Pin>, vm: u32)
    ensures pins { pins.new.items ≡ filter (λ pin. not (pin.vm == vm)) pins.old.items }
    ensures fewer { length pins.new.items ≤ length pins.old.items }
    ensures capacity { vec_capacity pins.new ≡ vec_capacity pins.old }
{
    pins.retain(|pin| pin.vm != vm);
}

/// The place of the first hairpin whose entry is at most this one; past the last where there is none.
pub(crate) fn first_place(pins: &[Pin], least: u32) -> usize
    ensures { IsFirstPlace pins.now least result }
{
    for at in 0..pins.len() {
        if pins[at].entry <= least {
            return at;
        }
    }
    pins.len()
}
