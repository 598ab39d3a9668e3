//! Counts of fates and of events.
ghost use Rattle.std.specs.Prelude.{◌≡◌, ◌+◌, IfOk};
ghost use Rattle.and_report.specs.Counts as counts;
ghost use Rattle.and_report.specs.Report as report;
ghost use Rattle.and_report.specs.Tally as tallies;

use crate::fate::Fate;
use and_events::{Arrival, Departure, End, Event, Passage, Return};
use and_policy::{Dest, NoMemory, Way};

/// How many fates there are of each kind.
#[derive(Clone, Copy)]
pub(crate) struct Endings {
    pub(crate) delivered: u64,
    pub(crate) dropped: u64,
    pub(crate) spoofed: u64,
    pub(crate) novm: u64,
    pub(crate) noowner: u64,
    pub(crate) in_blackout: u64,
    pub(crate) at_full_queue: u64,
    pub(crate) out_of_hops: u64,
}

/// How many events there are of each kind that the report counts.
#[derive(Clone, Copy)]
pub(crate) struct Traffic {
    pub(crate) sends: u64,
    pub(crate) offload: u64,
    pub(crate) hover: u64,
    pub(crate) hairpin: u64,
    pub(crate) redirect: u64,
    pub(crate) fast: u64,
    pub(crate) slow: u64,
}

/// No fates.
pub(crate) const NO_ENDINGS: Endings = Endings {
    delivered: 0,
    dropped: 0,
    spoofed: 0,
    novm: 0,
    noowner: 0,
    in_blackout: 0,
    at_full_queue: 0,
    out_of_hops: 0,
};

/// No events.
pub(crate) const NO_TRAFFIC: Traffic = Traffic {
    sends: 0,
    offload: 0,
    hover: 0,
    hairpin: 0,
    redirect: 0,
    fast: 0,
    slow: 0,
};

/// One more where the test holds. More than the type holds is more than memory holds.
pub(crate) fn plus(count: u64, test: bool) -> Result<u64, NoMemory>
    ensures { IfOk result (λ sum. sum ≡ count + counts.one test) }
{
    if !test {
        return Ok(count);
    }
    match count.checked_add(1) {
        Some(sum) => Ok(sum),
        None => Err(NoMemory),
    }
}

fn is_delivered(fate: Fate) -> bool
    ensures { result ≡ report.is_delivered fate }
{
    matches!(fate, Fate::Delivered { .. })
}

fn is_dropped(fate: Fate) -> bool
    ensures { result ≡ report.is_dropped fate }
{
    match fate {
        Fate::Spoofed | Fate::NoVm | Fate::NoOwner => true,
        Fate::EgressDenied { .. } | Fate::IngressDenied { .. } | Fate::RouteDropped { .. } => true,
        Fate::Delivered { .. } => false,
        Fate::InBlackout | Fate::AtFullQueue | Fate::OutOfHops => false,
    }
}

fn is_spoofed(fate: Fate) -> bool
    ensures { result ≡ report.is_spoofed fate }
{
    matches!(fate, Fate::Spoofed)
}

fn is_novm(fate: Fate) -> bool
    ensures { result ≡ report.is_novm fate }
{
    matches!(fate, Fate::NoVm)
}

fn is_noowner(fate: Fate) -> bool
    ensures { result ≡ report.is_noowner fate }
{
    matches!(fate, Fate::NoOwner)
}

fn is_in_blackout(fate: Fate) -> bool
    ensures { result ≡ report.is_in_blackout fate }
{
    matches!(fate, Fate::InBlackout)
}

fn is_at_full_queue(fate: Fate) -> bool
    ensures { result ≡ report.is_at_full_queue fate }
{
    matches!(fate, Fate::AtFullQueue)
}

fn is_out_of_hops(fate: Fate) -> bool
    ensures { result ≡ report.is_out_of_hops fate }
{
    matches!(fate, Fate::OutOfHops)
}

/// The counts with one fate more.
pub(crate) fn with_fate(c: Endings, fate: Fate) -> Result<Endings, NoMemory>
    ensures { IfOk result (λ more. more ≡ counts.with_fate c fate) }
{
    Ok(Endings {
        delivered: plus(c.delivered, is_delivered(fate))?,
        dropped: plus(c.dropped, is_dropped(fate))?,
        spoofed: plus(c.spoofed, is_spoofed(fate))?,
        novm: plus(c.novm, is_novm(fate))?,
        noowner: plus(c.noowner, is_noowner(fate))?,
        in_blackout: plus(c.in_blackout, is_in_blackout(fate))?,
        at_full_queue: plus(c.at_full_queue, is_at_full_queue(fate))?,
        out_of_hops: plus(c.out_of_hops, is_out_of_hops(fate))?,
    })
}

fn is_queued(end: End) -> bool
    ensures { result ≡ counts.is_queued end }
{
    matches!(end, End::Queued)
}

/// Whether the event is a send: its packet enters a `wire` queue.
fn is_send(event: &Event) -> bool
    ensures { result ≡ counts.is_send event.now }
{
    match *event {
        Event::Egress {
            departure: Departure::Allowed {
                sealed: false,
                end,
                ..
            },
            ..
        } => is_queued(end),
        Event::Sealed { end, .. } => is_queued(end),
        Event::Route {
            passage: Passage::Send { end, .. },
            ..
        } => is_queued(end),
        Event::Redirect {
            back: Return::Send { end, .. },
            ..
        } => is_queued(end),
        Event::Ingress {
            arrival: Arrival::Hairpin { end, .. },
            ..
        } => is_queued(end),
        Event::Ingress {
            arrival: Arrival::Absent { end, .. },
            ..
        } => is_queued(end),
        _ => false,
    }
}

fn is_offload(event: &Event) -> bool
    ensures { result ≡ tallies.is_offload event.now }
{
    matches!(
        *event,
        Event::Egress {
            departure: Departure::Allowed {
                dest: Dest::Offload { .. },
                ..
            },
            ..
        }
    )
}

fn is_hover(event: &Event) -> bool
    ensures { result ≡ tallies.is_hover event.now }
{
    matches!(
        *event,
        Event::Egress {
            departure: Departure::Allowed {
                dest: Dest::Hover { .. },
                ..
            },
            ..
        }
    )
}

fn is_hairpin(event: &Event) -> bool
    ensures { result ≡ tallies.is_hairpin event.now }
{
    matches!(
        *event,
        Event::Ingress {
            arrival: Arrival::Hairpin { .. },
            ..
        }
    )
}

fn is_absent(event: &Event) -> bool
    ensures { result ≡ tallies.is_absent event.now }
{
    matches!(
        *event,
        Event::Ingress {
            arrival: Arrival::Absent { .. },
            ..
        }
    )
}

fn is_fast(event: &Event) -> bool
    ensures { result ≡ tallies.is_fast event.now }
{
    match *event {
        Event::Egress { way: Way::Fast, .. } => true,
        Event::Ingress { way: Way::Fast, .. } => true,
        _ => false,
    }
}

fn is_slow(event: &Event) -> bool
    ensures { result ≡ tallies.is_slow event.now }
{
    match *event {
        Event::Egress { way: Way::Slow, .. } => true,
        Event::Ingress { way: Way::Slow, .. } => true,
        _ => false,
    }
}

/// The counts with one event more.
pub(crate) fn with_event(c: Traffic, event: &Event) -> Result<Traffic, NoMemory>
    ensures { IfOk result (λ more. more ≡ counts.with_event c event.now) }
{
    Ok(Traffic {
        sends: plus(c.sends, is_send(event))?,
        offload: plus(c.offload, is_offload(event))?,
        hover: plus(c.hover, is_hover(event))?,
        hairpin: plus(c.hairpin, is_hairpin(event))?,
        redirect: plus(c.redirect, is_absent(event))?,
        fast: plus(c.fast, is_fast(event))?,
        slow: plus(c.slow, is_slow(event))?,
    })
}
