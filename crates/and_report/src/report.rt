//! The report of a run.
ghost use Rattle.std.specs.Prelude.{◌≡◌, ◌++◌, map, IfOk, OnOk};
ghost use Rattle.and_events.specs.Run.{Run, past};
ghost use Rattle.and_events.specs.Sound.{IsSound};
ghost use Rattle.and_events.specs.State as states;
ghost use Rattle.and_report.specs.Counts.{endings_of};
ghost use Rattle.and_report.specs.Report as report;
ghost use Rattle.and_report.specs.Rows.{row_view};
ghost use Rattle.and_report.specs.Tally as tallies;
ghost use Rattle.and_report.specs.Tally.{Tally};
ghost use Rattle.and_report.specs.Totals as spec;

use crate::counts::{Endings, Traffic};
use crate::drops::put_stage;
use crate::fate::Stage;
use crate::items::put_items;
use crate::orders::orders;
use crate::rows::{Row, count_row, put, put_rows, put_some_rows};
use crate::run_orders::orders_of_run;
use crate::skips;
use crate::totals::{FateTotals, totals_of};
use crate::vm_nets::vm_nets;
use crate::vms::put_vms;
use and_events::{Line, Plan, SkipReason};
use and_policy::NoMemory;
use std::alloc::Global;

/// The rows that are always there.
#[tactic(auto, unfolding(crate::specs::Report::head_rows))]
fn head_rows(plan: &Plan, c: Endings, traffic: Traffic, orders: u64) -> [Row; 18]
    ensures { (t : Tally) → c ≡ endings_of t.fates → spec.IsTraffic t traffic → orders ≡ t.orders → map row_view result ≡ report.head_rows plan.now t }
{
    [
        count_row("frames", plan.frames as u64),
        count_row("skipped", plan.skipped.len() as u64),
        count_row("unsent", plan.unsent as u64),
        count_row("injected", plan.packets.len() as u64),
        count_row("delivered", c.delivered),
        count_row("dropped", c.dropped),
        count_row("lost blackout", c.in_blackout),
        count_row("lost queue", c.at_full_queue),
        count_row("lost hops", c.out_of_hops),
        count_row("sends", traffic.sends),
        count_row("offload", traffic.offload),
        count_row("hover", traffic.hover),
        count_row("hairpin", traffic.hairpin),
        count_row("redirect", traffic.redirect),
        count_row("fast", traffic.fast),
        count_row("slow", traffic.slow),
        count_row("orders", orders),
        count_row("refused", plan.refused.len() as u64),
    ]
}

/// The rows of the frames that were skipped.
#[tactic(auto, unfolding(crate::specs::Report::skip_rows))]
fn skip_rows(skipped: &[(u32, SkipReason)]) -> [Row; 8]
    ensures { map row_view result ≡ report.skip_rows skipped.now }
{
    [
        count_row("skip TooLong", skips::too_long(skipped) as u64),
        count_row("skip Short", skips::short(skipped) as u64),
        count_row("skip NotIp4", skips::not_ip4(skipped) as u64),
        count_row("skip Cut", skips::cut(skipped) as u64),
        count_row("skip BadIp4", skips::bad_ip4(skipped) as u64),
        count_row("skip ShortPorts", skips::short_ports(skipped) as u64),
        count_row("skip NoSource", skips::no_source(skipped) as u64),
        count_row("skip PausedSource", skips::paused_source(skipped) as u64),
    ]
}

/// The rows of the packets that were dropped without a rule or a route.
#[tactic(auto, unfolding(crate::specs::Report::drop_rows))]
fn drop_rows(c: Endings) -> [Row; 3]
    ensures { (t : Tally) → c ≡ endings_of t.fates → map row_view result ≡ report.drop_rows t }
{
    [
        count_row("drop spoofed", c.spoofed),
        count_row("drop novm", c.novm),
        count_row("drop noowner", c.noowner),
    ]
}

/// Puts the lines of the packets that were dropped.
fn put_drops(alloc: Global, totals: &FateTotals, text: &mut Vec<u8>) -> Result<(), NoMemory>
    ensures { OnOk result ((t : Tally) → spec.AreFateTotals t.fates totals.now → text.new.items ≡ text.old.items ++ report.drop_lines t) }
{
    put_some_rows(alloc, &drop_rows(totals.endings), text)?;
    put_stage(alloc, text, Stage::Egress, &totals.egress)?;
    put_stage(alloc, text, Stage::Ingress, &totals.ingress)?;
    put_stage(alloc, text, Stage::Route, &totals.route)?;
    Ok(())
}

// The text of the report, of the plan and of the lines of its book, the oldest first, after which the programmes have so many orders.
#[tactic(auto, unfolding(crate::specs::Report::text_of))]
fn text_with(alloc: Global, plan: &Plan, lines: &[Line], orders: u64) -> Result<Vec<u8>, NoMemory>
    requires { orders ≡ tallies.orders_among (states.state plan.now (past lines.now)).programmes.ops }
    ensures { IfOk result (λ text. text.items ≡ report.report plan.now (past lines.now)) }
{
    let vm_nets = vm_nets(alloc, plan)?;
    let totals = totals_of(alloc, plan, &vm_nets, lines)?;
    let rows = head_rows(plan, totals.fates.endings, totals.traffic, orders);
    let mut text = Vec::new(alloc);
    put(&mut text, b"andromeda report 1\n")?;
    put_rows(alloc, &rows, &mut text)?;
    put_some_rows(alloc, &skip_rows(plan.skipped.as_slice()), &mut text)?;
    put_drops(alloc, &totals.fates, &mut text)?;
    put_items(alloc, plan.refused.as_slice(), &mut text)?;
    put_vms(alloc, plan, &vm_nets, &totals.fates.received, &mut text)?;
    Ok(text)
}

/// The text of the report of a run: of the plan, and of the lines of its book, the oldest first. Where the run has ended, a few passes over
/// the lines give it; where it has not, the orders of a plan with a review are counted as [`report_of_lines`] counts them. Want of memory
/// is the one error.
pub fn report_text(alloc: Global, plan: &Plan, lines: &[Line]) -> Result<Vec<u8>, NoMemory>
    requires sound { IsSound plan.now }
    requires run { Run plan.now (past lines.now) }
    ensures text { IfOk result (λ text. text.items ≡ report.report plan.now (past lines.now)) }
{
    let orders = orders_of_run(alloc, plan, lines)?;
    text_with(alloc, plan, lines, orders)
}

/// The text of the report of any lines, also of those that are no run. It goes through the whole state where the plan has a review, in
/// a time that grows with the square of the log. Want of memory is the one error.
pub fn report_of_lines(alloc: Global, plan: &Plan, lines: &[Line]) -> Result<Vec<u8>, NoMemory>
    ensures text { IfOk result (λ text. text.items ≡ report.report plan.now (past lines.now)) }
{
    let orders = orders(alloc, plan, lines)?;
    text_with(alloc, plan, lines, orders)
}
