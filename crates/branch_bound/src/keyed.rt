ghost use Rattle.std.specs.Prelude.{◌≡◌, ◌<◌, [], ◌∷◌, ◌++◌, ◌^◌, IfOk, OnOk, length};
ghost use Rattle.branch_bound.specs.Keyed.{cut, keyed, stored_as};

use crate::levels::LevelCert;
use adpcm_nums::NoMemory;
use bound_cert::{LayerCells, SegmentCert};
use box_layers::{CellValue, Key};
use open_cells::{Node, SampleCells};
use std::alloc::Global;

/// Adds a layer of cells.
fn put_layer(out: &mut Vec<LayerCells>, key: Key, cells: Vec<CellValue>) -> Result<(), NoMemory>
    ensures { OnOk result (out.new.items ≡ out.old.items ++ record { key = key; cells = cells.items } ∷ []) }
{
    match out.push(LayerCells::new(key, cells)) {
        Ok(_) => Ok(()),
        Err(_) => Err(NoMemory),
    }
}

/// Adds a layer for each lane of the cells before a sample.
fn put_layers(
    alloc: Global,
    block: u32,
    place: u32,
    nodes: &[Node],
    out: &mut Vec<LayerCells>,
) -> Result<(), NoMemory>
    ensures { OnOk result (out.new.items ≡ out.old.items ++ cut block place nodes.now) }
{
    if nodes.is_empty() {
        return Ok(());
    }
    let mut lane = nodes[0].lane;
    let mut cells = Vec::new(alloc);
    for x in nodes {
        if x.lane != lane {
            let key = Key { block, place, lane };
            match put_layer(out, key, cells) {
                Ok(_) => {}
                Err(e) => return Err(e),
            }
            cells = Vec::new(alloc);
            lane = x.lane;
        }
        let value = CellValue {
            cell: x.cell,
            value: x.cost,
        };
        match cells.push(value) {
            Ok(_) => {}
            Err(_) => return Err(NoMemory),
        }
    }
    put_layer(out, Key { block, place, lane }, cells)
}

/// The cells before each sample as the layers of a certificate, in the order of block, place and lane.
pub fn all_keyed(
    alloc: Global,
    samples: u32,
    layers: &SampleCells<'_>,
) -> Result<Vec<LayerCells>, NoMemory>
    requires samples { 0 < samples }
    requires few { length layers.now < 2 ^ 32 }
    ensures { IfOk result (λ v. v.items ≡ keyed samples 0 layers.now) }
{
    let mut out = Vec::new(alloc);
    for i in 0..layers.len() {
        let block = i as u32 / samples;
        let place = i as u32 % samples;
        let row = match layers.row(alloc, i) {
            Ok(v) => v,
            Err(e) => return Err(e),
        };
        match put_layers(alloc, block, place, row.as_slice(), &mut out) {
            Ok(_) => {}
            Err(e) => return Err(e),
        }
    }
    Ok(out)
}

/// What a search shows at a level, as it is stored.
pub fn stored(alloc: Global, samples: u32, cert: &LevelCert<'_>) -> Result<SegmentCert, NoMemory>
    requires samples { 0 < samples }
    requires few { length cert.now.layers < 2 ^ 32 }
    ensures { IfOk result (λ p. p ≡ stored_as samples cert.now) }
{
    match all_keyed(alloc, samples, &cert.layers) {
        Ok(layers) => Ok(SegmentCert::new(cert.blocks, cert.level, cert.bound, layers)),
        Err(e) => Err(e),
    }
}
