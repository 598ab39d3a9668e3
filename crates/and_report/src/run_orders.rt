//! How many offload orders a run gave. After its end its lines alone tell: every node has installed its whole programme then, and
//! a programme is the log with the node's orders.
ghost use Rattle.std.specs.Prelude.{◌≡◌, ◌≤◌, ◌^◌, true, length, IfOk};
ghost use Rattle.std.specs.List.{sum};
ghost use Rattle.and_events.specs.Places as places;
ghost use Rattle.and_events.specs.Run.{Run, past};
ghost use Rattle.and_events.specs.Sound.{IsSound};
ghost use Rattle.and_events.specs.State as states;
ghost use Rattle.and_report.specs.Installed as spec;
ghost use Rattle.and_report.specs.Tally as tallies;

use crate::orders::orders;
use and_events::{Event, Line, Plan, Settings, node_place};
use and_plain::node_count;
use and_policy::NoMemory;
use std::alloc::Global;

fn is_end(event: &Event) -> bool
    ensures { result ≡ spec.is_end event.now }
{
    matches!(*event, Event::Finish { .. })
}

// Whether the newest event is the end.
#[tactic(auto, using(crate::proofs::RunOrders::last_ends, crate::proofs::RunOrders::none_ends))]
fn has_ended(lines: &[Line]) -> bool
    ensures { result ≡ spec.has_ended (past lines.now) }
{
    match lines.last() {
        Some(line) => is_end(&line.event),
        None => false,
    }
}

// Notes how much of its programme a node has installed.
fn note_installed(settings: Settings, installed: &mut Vec<u32>, event: &Event)
    requires small { places.IsSmall settings }
    requires node { spec.NamesNode settings event.now }
    requires len { length installed.old.items ≡ places.node_count settings }
    ensures { installed.new.items ≡ spec.installed_by settings installed.old.items event.now }
{
    if let Event::Installed { node, upto } = *event {
        installed[node_place(settings, node)] = upto;
    }
}

// How much of its programme each node has installed after the lines, by place.
fn installed_after(alloc: Global, plan: &Plan, lines: &[Line]) -> Result<Vec<u32>, NoMemory>
    requires sound { IsSound plan.now }
    requires run { Run plan.now (past lines.now) }
    ensures { IfOk result (λ installed. installed.items ≡ (states.state plan.now (past lines.now)).programmes.installed) }
{
    let settings = plan.settings;
    let mut installed = vec![in alloc; 0u32; node_count(&settings)].map_err(|_| NoMemory)?;
    for line in lines {
        note_installed(settings, &mut installed, &line.event);
    }
    Ok(installed)
}

// The sum of so few numbers that it fits.
fn sum_of(numbers: &[u32]) -> u64
    requires { length numbers.now ≤ 2 ^ 32 }
    ensures { result ≡ sum numbers.now }
{
    let mut sum = 0u64;
    for number in numbers {
        sum += *number as u64;
    }
    sum
}

// The orders of all programmes after a run that has ended.
fn orders_at_the_end(alloc: Global, plan: &Plan, lines: &[Line]) -> Result<u64, NoMemory>
    requires sound { IsSound plan.now }
    requires run { Run plan.now (past lines.now) }
    requires ended { spec.has_ended (past lines.now) ≡ true }
    ensures { IfOk result (λ orders. orders ≡ tallies.orders_among (states.state plan.now (past lines.now)).programmes.ops) }
{
    let installed = installed_after(alloc, plan, lines)?;
    let operations = sum_of(&installed);
    let entries = node_count(&plan.settings) as u64 * plan.log.len() as u64;
    Ok(operations - entries)
}

/// How many offload orders the programmes have after a run. Where it has ended, its lines alone tell.
pub(crate) fn orders_of_run(alloc: Global, plan: &Plan, lines: &[Line]) -> Result<u64, NoMemory>
    requires sound { IsSound plan.now }
    requires run { Run plan.now (past lines.now) }
    ensures { IfOk result (λ orders. orders ≡ tallies.orders_among (states.state plan.now (past lines.now)).programmes.ops) }
{
    if has_ended(lines) {
        orders_at_the_end(alloc, plan, lines)
    } else {
        orders(alloc, plan, lines)
    }
}
