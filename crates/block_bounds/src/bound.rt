ghost use Rattle.std.specs.Prelude.{◌≡◌, ◌≤◌, ◌+◌, ◌-◌, ◌*◌, ◌^◌, ℕ, ℤ, pos, ◌*ℤ◌, ◌-ℤ◌, List, length, drop, get_or};
ghost use Rattle.adpcm_nums.specs.Nums.{square_of};
ghost use Rattle.adpcm_nums.specs.Sample.{AreSamples};
ghost use Rattle.window_floor.specs.Numbers.{StandFor, windows_of};
ghost use Rattle.block_bounds.specs.Outputs.{Outputs, weight_of};
ghost use Rattle.block_bounds.specs.Covers.{LayersFor};

use crate::place::layer_at;
use crate::steps::steps_of;
use row_bound::{Layer, block_bound, is_ladder};
use window_floor::BlockWindows;

/// How often the error of a place is counted, with so many places of the block after it.
#[tactic(auto, unfolding(crate::specs::Outputs::weight_of))]
fn weight_at(leaving: bool, after: usize) -> u64
    ensures value { result ≡ weight_of leaving after }
    ensures low { 1 ≤ result }
    ensures high { result ≤ 2 }
{
    if leaving && after < 2 { 1 } else { 2 }
}

/// Fills the layers of a block. The targets begin with those of the two places before it.
fn fill(b: BlockWindows, targets: &[i32], leaving: bool, layers: &mut [Layer])
    requires count { length targets.now ≡ b.places + 2 }
    requires targets { AreSamples targets.now }
    requires layers { length layers.old ≡ b.places }
    ensures { (samples : List ℤ) → StandFor b samples → LayersFor (windows_of b samples) leaving (drop 2 targets.now) (get_or targets.now 0 (pos 0)) (get_or targets.now 1 (pos 0)) layers.new }
{
    let mut place = b.places;
    while place > 0 {
        let weight = weight_at(leaving, b.places - place);
        place -= 1;
        let layer = layer_at(
            b,
            targets[place],
            targets[place + 1],
            targets[place + 2],
            weight,
        );
        layers[place] = layer;
    }
}

/// The same bound, with room for the layers lent.
fn bound_in(
    b: BlockWindows,
    targets: &[i32],
    leaving: bool,
    layers: &mut [Layer],
    entering: u64,
    top: u64,
    nodes: u64,
) -> u64
    requires count { length targets.now ≡ b.places + 2 }
    requires few { b.places ≤ 28 }
    requires targets { AreSamples targets.now }
    requires layers { length layers.old ≡ b.places }
    requires entering { entering ≤ 2 }
    requires top { top ≤ 2 ^ 48 }
    ensures most { result ≤ top }
    ensures owes { (samples : List ℤ) (r o : ℤ) (c : ℕ) → StandFor b samples
        → Outputs (windows_of b samples) leaving (drop 2 targets.now) (get_or targets.now 0 (pos 0)) (get_or targets.now 1 (pos 0)) r o c
        → result ≤ entering * square_of (b.row.scale *ℤ r -ℤ get_or targets.now 0 (pos 0)) + entering * square_of (b.row.scale *ℤ o -ℤ get_or targets.now 1 (pos 0)) + c }
{
    let (list, count) = steps_of(b);
    let steps = &list[..count];
    if !is_ladder(steps) {
        return 0;
    }
    fill(b, targets, leaving, layers);
    block_bound(layers, steps, entering, top, nodes)
}

/// A bound, at most `top`, under what a block under a head costs against its targets, whatever its codes, roundings, wraps
/// and clamps and whatever the two outputs before it. The targets begin with those of the two places before the block, whose
/// errors are counted `entering` times; each place of the block is counted twice, but the last two once where the next block
/// counts them again (`leaving`). The search goes on with at most `nodes` rows from each place.
pub fn head_bound(
    b: BlockWindows,
    targets: &[i32],
    entering: u64,
    leaving: bool,
    top: u64,
    nodes: u64,
) -> u64
    requires count { length targets.now ≡ b.places + 2 }
    requires few { b.places ≤ 28 }
    requires targets { AreSamples targets.now }
    requires entering { entering ≤ 2 }
    requires top { top ≤ 2 ^ 48 }
    ensures most { result ≤ top }
    ensures owes { (samples : List ℤ) (r o : ℤ) (c : ℕ) → StandFor b samples
        → Outputs (windows_of b samples) leaving (drop 2 targets.now) (get_or targets.now 0 (pos 0)) (get_or targets.now 1 (pos 0)) r o c
        → result ≤ entering * square_of (b.row.scale *ℤ r -ℤ get_or targets.now 0 (pos 0)) + entering * square_of (b.row.scale *ℤ o -ℤ get_or targets.now 1 (pos 0)) + c }
{
    let blank = layer_at(b, 0, 0, 0, 1);
    let mut layers = [blank; 28];
    bound_in(
        b,
        targets,
        leaving,
        &mut layers[..b.places],
        entering,
        top,
        nodes,
    )
}
