ghost use Rattle.std.specs.Prelude.{◌≡◌, ℕ, ◌<◌, ◌≤◌, length, slice_index_or};
ghost use Rattle.open_cells.specs.Nodes.{rank, IsRising, listed_in};

use crate::node::Node;
use crate::rank::{rank_at, rank_in};
use machine_core::Cell;

/// Where the nodes of this place and later ones begin.
fn first_from(nodes: &[Node], at: u128) -> usize
    requires { IsRising nodes.now }
    ensures bound { result ≤ length nodes.now }
    ensures below { (k : ℕ) (d : Node) → k < result → rank (slice_index_or nodes.now k d) < at }
    ensures above { (k : ℕ) (d : Node) → result ≤ k → k < length nodes.now → at ≤ rank (slice_index_or nodes.now k d) }
{
    nodes.partition_point(|x| rank_in(*x) < at)
}

/// What stands for a lane and cell.
pub fn listed(nodes: &[Node], lane: u32, cell: Cell) -> Option<u64>
    requires { IsRising nodes.now }
    ensures { result ≡ listed_in nodes.now lane cell }
{
    let at = rank_at(lane, cell);
    let i = first_from(nodes, at);
    if i < nodes.len() && rank_in(nodes[i]) == at {
        Some(nodes[i].cost)
    } else {
        None
    }
}
