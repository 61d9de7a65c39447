ghost use Rattle.std.specs.Prelude.{◌≡◌, ◌≤◌, ℕ, IsTrue};
ghost use Rattle.box_layers.specs.Cells.{value_of};
ghost use Rattle.box_layers.specs.Looking.{ended, look_over};
ghost use Rattle.machine_core.specs.Boxes.{low_corner, high_corner};
ghost use Rattle.machine_core.specs.Cells.{is_level};
ghost use Rattle.machine_core.specs.Floors.{top};
ghost use Rattle.cert_check.specs.Layers.{cells_here};

use block_steps::{LaneCells, Layers, Plan, Spot, rest_at};
use bound_cert::{Key, LayerView};
use box_layers::{Seen, see_box};
use machine_core::{Bx, Machine};

/// What is seen of the cells that a box meets, in a layer that may not be there.
fn see_ahead<M: Machine>(machine: &M, level: u32, layer: &Option<LayerView<'_>>, bx: Bx) -> Seen
    requires level { IsTrue (is_level level) }
    requires low { IsTrue ((M.rules machine.now).decoder.is_state (low_corner bx)) }
    requires high { IsTrue ((M.rules machine.now).decoder.is_state (high_corner bx)) }
    ensures { (r : ℕ) → r ≤ top → ended result r ≡ look_over (M.rules machine.now) level (value_of (cells_here layer.now)) r bx }
{
    match layer {
        Some(layer) => {
            layer.ascends();
            see_box(machine, level, layer, bx)
        }
        None => Seen {
            best: u64::MAX,
            all: false,
        },
    }
}

/// A layer of a certificate, where there is one.
#[derive(Drop)]
pub struct Found<'b> {
    layer: Option<LayerView<'b>>,
}

impl<'b> LaneCells for Found<'b> {
    ghost use Rattle.box_layers.specs.Cells.{value_of};
    ghost use Rattle.cert_check.specs.Layers.{cells_here};

    ghost listed = { λ s. value_of (cells_here s.layer) };

    fn look<M: Machine>(&self, machine: &M, plan: &Plan<'_>, at: Spot, lane: u32, bx: Bx) -> u64 {
        let seen = see_ahead(machine, plan.level, &self.layer, bx);
        if seen.all {
            seen.best
        } else {
            seen.best.min(rest_at(machine, plan, at, lane, bx))
        }
    }
}

/// The layers of a certificate after one.
#[derive(Drop)]
pub struct Behind<'a, 'b> {
    /// The layer.
    pub here: &'a LayerView<'b>,
}

impl<'a, 'b> Layers for Behind<'a, 'b> {
    ghost use Rattle.box_layers.specs.Cells.{value_of};
    ghost use Rattle.cert_check.specs.Layers.{cells_for};

    type Lane = Found<'b>;

    ghost listed = { λ s key. value_of (cells_for s.here.now.later key) };

    fn lane_cells(&self, key: Key) -> Found<'b> {
        Found {
            layer: self.here.later_layer(key),
        }
    }
}
