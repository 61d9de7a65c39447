ghost use Rattle.std.specs.Prelude.{◌≤◌, ◌^◌};
ghost use Rattle.row_bound.specs.Searching.{HasRoom, AreFloors};

use crate::advice::Advice;
use crate::layer::Layer;
use crate::row::Row;
use crate::search::Effort;
use crate::suffix::searched_from;

/// A floor for each place of a block, from the last one down: no path from there on costs less, from whatever errors. Where
/// a search finds less than the next place's floor, that one is taken, since a path holds each of its ends.
pub(crate) fn table_of(
    layers: &[Layer],
    steps: &[i64],
    prefix: &mut [Row],
    trail: &mut [Advice],
    taps: usize,
    top: u64,
    effort: Effort,
) -> [u64; 29]
    requires room { HasRoom layers.now steps.now prefix.old trail.old }
    requires taps { taps ≤ 2 }
    requires top { top ≤ 2 ^ 48 }
    ensures { AreFloors layers.now steps.now result }
{
    let mut floors = [0u64; 29];
    for place in taps..layers.len() {
        let j = layers.len() - 1 - (place - taps);
        let low = floors[j - taps + 1];
        let aimed = Effort {
            nodes: effort.nodes,
            goal: low,
            ease: effort.ease,
        };
        let found = searched_from(layers, steps, &floors, prefix, trail, j, taps, top, aimed);
        floors[j - taps] = low.max(found);
    }
    floors
}
