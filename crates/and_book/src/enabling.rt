//! Who may act.
ghost use Rattle.std.specs.Prelude.{◌≡◌, ◌↔◌, ◌<◌, ◌≤◌, true, length, Some, IsTrue};
ghost use Rattle.and_events.specs.Places as places;
ghost use Rattle.and_events.specs.Places.{node_count, IsActor};
ghost use Rattle.and_kept.specs.Numbers.{count_below};
ghost use Rattle.and_book.specs.Enabling.{IsStill, IsKnownAt, MayHold, HasRipe, AreParts, CanDoBy, CanActBy, ActsBy, IsThereBy, acts_by, home_of, vm_in};

use and_events::{Actor, Items, Packet, Step, What, actor_count, is_actor, node_place};
use and_kept::{Progress, Traffic, count_nodes};
use and_pins::Pins;

/// What says who may act, beside the step that is due.
#[derive(Clone, Copy)]
pub(crate) struct Parts<'a> {
    pub(crate) packets: &'a Items<Packet>,
    pub(crate) progress: &'a Progress,
    pub(crate) pins: &'a Pins,
    pub(crate) traffic: &'a Traffic,
}

// Whether no installer may act and no hand has work.
fn is_still(progress: &Progress, traffic: &Traffic) -> bool
    ensures { IsTrue result ↔ IsStill traffic.now.settings progress.now.programmes (record { install = progress.now.held; forward = traffic.now.held }) traffic.now.flow }
{
    progress.ready_count() + traffic.busy_count() == 0
}

// Whether forwarding or installs may be held at the node of this place.
fn may_hold(progress: &Progress, place: usize, what: What) -> bool
    requires { place < length progress.now.programmes.ops }
    ensures { IsTrue result ↔ MayHold progress.now.programmes place what }
{
    match what {
        What::Forward => true,
        What::Install => {
            let count = progress.programme(place).len();
            progress.announced(place) as usize == count
                && progress.installed(place) as usize == count
        }
    }
}

// Whether the host has installed the entry that added the VM.
fn is_known_at(progress: &Progress, hosts: u32, host: u32, vm: u32) -> bool
    requires { hosts ≤ length progress.now.programmes.ops }
    ensures { IsTrue result ↔ IsKnownAt progress.now.programmes hosts host vm }
{
    match progress.added(vm) {
        Some(number) => host < hosts && progress.has_installed(host as usize, number),
        None => false,
    }
}

// The host where the VM is.
fn home_of(progress: &Progress, vm: u32) -> u32
    ensures { result ≡ home_of progress.now.programmes vm }
{
    progress.place(vm).unwrap_or(0)
}

// Whether there is a hairpin whose entry every node has installed.
fn has_ripe(progress: &Progress, pins: &Pins) -> bool
    requires least { pins.now.least ≡ progress.now.least }
    requires nodes { 0 < length progress.now.programmes.ops }
    ensures { IsTrue result ↔ HasRipe progress.now.programmes pins.now.pins }
{
    // The hairpins go by this number, and its clause says what every node has installed.
    let _ = progress.least();
    pins.first().is_some()
}

// The source VM of a packet of the plan.
fn vm_of(packets: &Items<Packet>, packet: u32) -> u32
    requires { packet < length packets.now }
    ensures { result ≡ vm_in packets.now packet }
{
    match packets.get(packet as usize) {
        Some(found) => found.vm,
        None => unreachable!(),
    }
}

// Whether the packet's VM is known at the host where it is.
fn may_inject(parts: &Parts<'_>, packet: u32) -> bool
    requires parts { AreParts parts.now }
    requires packet { packet < length parts.now.packets.now }
    ensures { IsTrue result ↔ CanDoBy parts.now (Some (Step.Inject packet)) }
{
    let vm = vm_of(parts.packets, packet);
    let home = home_of(parts.progress, vm);
    is_known_at(parts.progress, parts.traffic.settings().hosts, home, vm)
}

/// Whether the condition of the step that is due holds.
pub(crate) fn can_do(parts: &Parts<'_>, due: Option<Step>) -> bool
    requires parts { AreParts parts.now }
    requires there { IsThereBy parts.now due }
    ensures { IsTrue result ↔ CanDoBy parts.now due }
{
    let progress = parts.progress;
    let settings = parts.traffic.settings();
    match due {
        Some(Step::Append(_)) => true,
        Some(Step::Review) => true,
        Some(Step::Hold { node, what }) => may_hold(progress, node_place(settings, node), what),
        Some(Step::Free { .. }) => true,
        Some(Step::Inject { packet }) => may_inject(parts, packet),
        Some(Step::Blackout { vm, host }) => is_known_at(progress, settings.hosts, host, vm),
        Some(Step::Resume { .. }) => true,
        Some(Step::Wait) => is_still(progress, parts.traffic),
        Some(Step::Finish) => is_still(progress, parts.traffic) && parts.pins.is_empty(),
        None => false,
    }
}

// Whether an actor that is there may act.
fn acts(parts: &Parts<'_>, due: Option<Step>, actor: Actor) -> bool
    requires parts { AreParts parts.now }
    requires there { IsThereBy parts.now due }
    requires actor { IsActor parts.now.traffic.now.settings actor }
    ensures { IsTrue result ↔ ActsBy parts.now due actor }
{
    let progress = parts.progress;
    let traffic = parts.traffic;
    match actor {
        Actor::HostInstall(host) => progress.is_ready(host),
        Actor::GateInstall(gateway) => progress.is_ready(traffic.settings().hosts + gateway),
        Actor::Controller => has_ripe(progress, parts.pins),
        Actor::Driver => can_do(parts, due),
        Actor::Worker { .. } => traffic.is_busy(actor),
        Actor::Coproc(_) => traffic.is_busy(actor),
        Actor::Gateway(_) => traffic.is_busy(actor),
    }
}

/// Whether the actor may act, by what is kept.
pub(crate) fn can_act(parts: &Parts<'_>, due: Option<Step>, actor: Actor) -> bool
    requires parts { AreParts parts.now }
    requires there { IsThereBy parts.now due }
    ensures { IsTrue result ↔ CanActBy parts.now due actor }
{
    is_actor(parts.traffic.settings(), actor) && acts(parts, due, actor)
}

/// How many actors may act, where controller and driver do or do not.
pub(crate) fn count_acting(
    progress: &Progress,
    traffic: &Traffic,
    controller: bool,
    driver: bool,
) -> u32
    requires nodes { length progress.now.programmes.ops ≡ node_count traffic.now.settings }
    ensures { result ≡ count_below (acts_by progress.now traffic.now controller driver) (places.actor_count traffic.now.settings) }
{
    let others = progress.ready_count() + traffic.busy_count();
    others + u32::from(controller) + u32::from(driver)
}

/// The number of the actor that may act, before which `k` actors may, where controller and driver do or do not.
pub(crate) fn nth_acting(
    progress: &Progress,
    traffic: &Traffic,
    controller: bool,
    driver: bool,
    k: u32,
) -> u32
    requires nodes { length progress.now.programmes.ops ≡ node_count traffic.now.settings }
    requires few { k < count_below (acts_by progress.now traffic.now controller driver) (places.actor_count traffic.now.settings) }
    ensures within { result < places.actor_count traffic.now.settings }
    ensures acts { acts_by progress.now traffic.now controller driver result ≡ true }
    ensures rank { count_below (acts_by progress.now traffic.now controller driver) result ≡ k }
{
    let ready = progress.ready_count();
    if k < ready {
        return progress.nth_ready(k);
    }
    let settings = traffic.settings();
    if k - ready < traffic.busy_count() {
        return count_nodes(settings) + traffic.nth_busy(k - ready);
    }
    let others = ready + traffic.busy_count();
    if k < others + u32::from(controller) {
        return actor_count(settings) - 2;
    }
    actor_count(settings) - 1
}
