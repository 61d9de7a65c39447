ghost use Rattle.std.specs.Prelude.{◌≡◌, ◌<◌};
ghost use Rattle.box_layers.specs.Certificates.{value};
ghost use Rattle.box_layers.specs.Cells.{value_of};
ghost use Rattle.cert_check.specs.Layers.{cells_for};

use bound_cert::{Key, LayerView, SegmentView};
use box_layers::{is_key_same, listed_value};
use machine_core::Cell;

/// The value that a layer lists for a cell.
fn look_up(layer: &LayerView<'_>, cell: Cell) -> Option<u64>
    ensures { result ≡ value_of layer.now.layer.cells cell }
{
    layer.ascends();
    listed_value(layer, cell)
}

/// The value that is listed for a cell of the layer with a key, after a layer.
fn listed_later(first: &LayerView<'_>, key: Key, cell: Cell) -> Option<u64>
    ensures { result ≡ value_of (cells_for first.now.later key) cell }
{
    match first.later_layer(key) {
        Some(layer) => look_up(&layer, cell),
        None => None,
    }
}

/// The value that is listed for a cell of the layer with a key.
pub fn listed_for(segment: &SegmentView<'_>, key: Key, cell: Cell) -> Option<u64>
    ensures { result ≡ value_of (cells_for segment.now.layers key) cell }
{
    match segment.first_layer() {
        Some(first) => {
            if is_key_same(first.key(), key) {
                look_up(&first, cell)
            } else {
                listed_later(&first, key, cell)
            }
        }
        None => None,
    }
}
