//! Counts and marks.
ghost use Rattle.std.specs.Prelude.{◌≡◌, false, if◌then◌else◌, replicate, IfOk};
ghost use Rattle.and_events.specs.Places.{node_count, queue_count, hand_count, IsSmall};

use and_events::Settings;
use and_policy::NoMemory;
use std::alloc::Global;

/// One where it holds, or else zero.
pub(crate) fn one_if(holds: bool) -> usize
    ensures { result ≡ (if holds then 1 else 0) }
{
    if holds { 1 } else { 0 }
}

/// How many nodes there are.
pub fn count_nodes(settings: Settings) -> u32
    requires { IsSmall settings }
    ensures { result ≡ node_count settings }
{
    settings.hosts + settings.gateways
}

/// How many queues there are.
pub(crate) fn count_queues(settings: Settings) -> u32
    requires { IsSmall settings }
    ensures { result ≡ queue_count settings }
{
    3 * settings.hosts + settings.gateways
}

/// How many hands there are.
pub fn count_hands(settings: Settings) -> u32
    requires { IsSmall settings }
    ensures { result ≡ hand_count settings }
{
    settings.hosts * settings.workers + settings.hosts + settings.gateways
}

/// So many marks, none of which is set. All memory is taken here.
pub(crate) fn no_marks(alloc: Global, count: usize) -> Result<Vec<bool>, NoMemory>
    ensures { IfOk result (λ marks. marks.items ≡ replicate count false) }
{
    vec![in alloc; false; count].map_err(|_| NoMemory)
}
