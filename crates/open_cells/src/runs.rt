ghost use Rattle.std.specs.Prelude.{◌≡◌, ◌<◌, ◌≤◌, ◌^◌, [], ◌∷◌, ◌++◌, length, true, OnOk, OnErr};
ghost use Rattle.box_layers.specs.Cells.{IsAscending};
ghost use Rattle.box_layers.specs.Pairs.{paired};
ghost use Rattle.open_cells.specs.Rows.{AreNumbered, Follows, Grows, IsRun, cells_of, costs_of, nodes_of};

use crate::node::Node;
use adpcm_nums::NoMemory;
use box_layers::{Key, Layers, is_before};
use bumpalo::Bump;
use machine_core::Cell;
use page_pool::Pool;

/// Whether a node may stand in a layer behind another.
fn follows(x: Node, y: Node) -> bool
    ensures { result ≡ true → Follows x y }
{
    x.lane == y.lane && is_before(x.cell, y.cell)
}

/// How many nodes at the front of a list may stand in one layer.
fn run_length(nodes: &[Node]) -> usize
    requires { 0 < length nodes.now }
    ensures some { 0 < result }
    ensures within { result ≤ length nodes.now }
    ensures run { IsRun nodes.now result }
{
    let mut n = 1;
    while n < nodes.len() && follows(nodes[n - 1], nodes[n]) {
        n += 1;
    }
    n
}

/// The cells and costs of nodes, in place of what was in the pools.
fn fill(cells: &mut Pool<Cell>, values: &mut Pool<u64>, run: &[Node]) -> Result<(), NoMemory>
    requires { length run.now < 2 ^ 32 }
    ensures cells { OnOk result (cells.new.items ≡ cells_of run.now) }
    ensures values { OnOk result (values.new.items ≡ costs_of run.now) }
{
    cells.truncate(0);
    values.truncate(0);
    for x in run {
        match cells.push(x.cell) {
            Ok(_) => {}
            Err(e) => return Err(e),
        }
        match values.push(x.cost) {
            Ok(_) => {}
            Err(e) => return Err(e),
        }
    }
    Ok(())
}

/// One more layer behind the others. Its key has its number as the block.
fn put_layer<'a>(
    arena: &'a Bump,
    layers: &mut Layers<'a>,
    lane: u32,
    cells: &Pool<Cell>,
    values: &Pool<u64>,
) -> Result<(), NoMemory>
    requires numbered { AreNumbered (length layers.old) layers.old }
    requires same_length { length values.now.items ≡ length cells.now.items }
    requires ascends { IsAscending (paired cells.now.items values.now.items) }
    ensures numbered { AreNumbered (length layers.new) layers.new }
    ensures ok { OnOk result (layers.new ≡ layers.old ++ record { key = record { block = length layers.old; place = 0; lane = lane }; cells = cells.now.items; values = values.now.items } ∷ []) }
    ensures err { OnErr result (layers.new ≡ layers.old) }
{
    let number = layers.len();
    if number > u32::MAX as usize {
        return Err(NoMemory);
    }
    let key = Key {
        block: number as u32,
        place: 0,
        lane,
    };
    layers.place(arena, key, cells, values)
}

/// One more layer behind the others, of nodes that may stand in one.
fn put_run<'a>(
    arena: &'a Bump,
    layers: &mut Layers<'a>,
    cells: &mut Pool<Cell>,
    values: &mut Pool<u64>,
    run: &[Node],
) -> Result<(), NoMemory>
    requires some { 0 < length run.now }
    requires numbered { AreNumbered (length layers.old) layers.old }
    requires run { IsRun run.now (length run.now) }
    ensures numbered { AreNumbered (length layers.new) layers.new }
    ensures grows { Grows layers.old layers.new }
    ensures nodes { OnOk result (nodes_of layers.new ≡ nodes_of layers.old ++ run.now) }
{
    if run.len() > u32::MAX as usize {
        return Err(NoMemory);
    }
    match fill(cells, values, run) {
        Ok(_) => {}
        Err(e) => return Err(e),
    }
    put_layer(arena, layers, run[0].lane, cells, values)
}

/// Layers behind the others that hold these nodes: a new one where the lane changes, or where cells do not ascend.
pub fn put_row<'a>(
    arena: &'a Bump,
    layers: &mut Layers<'a>,
    cells: &mut Pool<Cell>,
    values: &mut Pool<u64>,
    nodes: &[Node],
) -> Result<(), NoMemory>
    requires { AreNumbered (length layers.old) layers.old }
    ensures numbered { AreNumbered (length layers.new) layers.new }
    ensures grows { Grows layers.old layers.new }
    ensures nodes { OnOk result (nodes_of layers.new ≡ nodes_of layers.old ++ nodes.now) }
{
    let mut rest = nodes;
    while rest.len() > 0 {
        let (run, after) = rest.split_at(run_length(rest));
        match put_run(arena, layers, cells, values, run) {
            Ok(_) => {}
            Err(e) => return Err(e),
        }
        rest = after;
    }
    Ok(())
}
