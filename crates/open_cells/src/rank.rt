ghost use Rattle.std.specs.Prelude.{◌≡◌, pos, negsuc, ◌≤ℤ◌};
ghost use Rattle.open_cells.specs.Nodes.{lift, rank_of, rank, Fits};

use crate::node::Node;
use machine_core::Cell;

/// A signed number as one that is not below 0, in the same order.
fn lifted(z: i32) -> u64
    ensures value { result ≡ lift z }
    ensures low { negsuc 2147483647 ≤ℤ z }
    ensures high { z ≤ℤ pos 2147483647 }
{
    (i64::from(z) + 2_147_483_648) as u64
}

/// The place of a lane and cell in the order.
#[tactic(auto, unfolding(crate::specs::Nodes::rank_of))]
pub fn rank_at(lane: u32, cell: Cell) -> u128
    ensures value { result ≡ rank_of lane cell }
    ensures fits { Fits lane cell }
{
    u128::from(lane) * 18_446_744_073_709_551_616
        + u128::from(lifted(cell.a)) * 4_294_967_296
        + u128::from(lifted(cell.b))
}

/// The place of a node in the order.
pub fn rank_in(x: Node) -> u128
    ensures value { result ≡ rank x }
    ensures fits { Fits x.lane x.cell }
{
    rank_at(x.lane, x.cell)
}
