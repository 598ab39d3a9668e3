//! What every node has installed.
ghost use Rattle.std.specs.Prelude.{◌≡◌, ◌==◌, ◌<◌, ◌≤◌, ℕ, List, length, slice_index_or, slice_set, true};
ghost use Rattle.std.specs.List.{All, count_by, list_any};
ghost use Rattle.and_kept.specs.Nodes.{heights, IsFloor};

use crate::programme::Programme;

/// How many log entries every node has installed, and how many of the nodes have installed no more.
#[derive(Debug, Clone, Copy)]
pub(crate) struct Floor {
    pub(crate) least: u32,
    pub(crate) count: usize,
}

// The least of what the nodes have installed.
fn least_of(nodes: &[Programme]) -> u32
    requires { 0 < length nodes.now }
    ensures below { All (λ n. result ≤ n) (heights nodes.now) }
    ensures there { list_any (λ n. n == result) (heights nodes.now) ≡ true }
{
    let first = &nodes[0];
    let mut least = first.entries_installed();
    for node in nodes {
        let installed = node.entries_installed();
        if installed < least {
            least = installed;
        }
    }
    least
}

// How many nodes have installed just so many.
fn count_at(nodes: &[Programme], least: u32) -> usize
    ensures { result ≡ count_by (λ n. n == least) (heights nodes.now) }
{
    nodes
        .iter()
        .filter(|node| node.entries_installed() == least)
        .count()
}

/// The floor after a node has installed more. All nodes are looked at only where it was the last one at the floor.
pub(crate) fn risen(nodes: &[Programme], floor: Floor, before: u32, after: u32) -> Floor
    requires { 0 < length nodes.now }
    ensures { (old : List ℕ) (at : ℕ) → at < length old → before ≡ slice_index_or old at 0 → before ≤ after → heights nodes.now ≡ slice_set old at after → IsFloor old floor.least floor.count → IsFloor (heights nodes.now) result.least result.count }
{
    if before > floor.least || after == before {
        return floor;
    }
    if floor.count > 1 {
        return Floor {
            least: floor.least,
            count: floor.count - 1,
        };
    }
    let least = least_of(nodes);
    let count = count_at(nodes, least);
    Floor { least, count }
}
