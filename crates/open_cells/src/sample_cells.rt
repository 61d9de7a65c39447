ghost use Rattle.std.specs.Prelude.{◌≡◌, ◌≤◌, [], ◌∷◌, ◌++◌, length, reverse, IfOk, OnOk, OnErr};
ghost use Rattle.open_cells.specs.Counts.{nodes_at};
ghost use Rattle.open_cells.specs.Rows.{nodes_in, row_in};

use crate::node::Node;
use crate::row::Row;
use crate::runs::put_row;
use adpcm_nums::NoMemory;
use box_layers::{Layer, Layers};
use bumpalo::Bump;
use machine_core::Cell;
use page_pool::Pool;
use std::alloc::Global;
use std::marker::Model;

/// Rows of nodes, one for each sample in the order in which they are finished, which lie in an arena as layers.
#[derive(Drop)]
pub struct SampleCells<'a> {
    layers: Layers<'a>,
    rows: Vec<Row>,
    cells: Pool<Cell>,
    values: Pool<u64>,
}

impl<'a> Model for SampleCells<'a> {
    ghost use Rattle.std.specs.Prelude.{List, length, map};
    ghost use Rattle.open_cells.specs.declared.node.Node.{Node};
    ghost use Rattle.open_cells.specs.Rows.{AreNumbered, AreWithin, row_in};

    ghost Value = { List (List Node) };

    ghost view = { λ s. map (row_in s.layers) s.rows.items };

    ghost invariant = { λ s. AreNumbered (length s.layers) s.layers × AreWithin (length s.layers) s.rows.items };
}

/// Adds the nodes of a layer to a list.
fn add_layer(out: &mut Vec<Node>, layer: Layer<'_>) -> Result<(), NoMemory>
    ensures { OnOk result (out.new.items ≡ out.old.items ++ nodes_in layer.entry.key.lane layer.entry.cells.now layer.entry.values.now) }
{
    for k in 0..layer.cells.len() {
        let node = Node {
            lane: layer.key.lane,
            cell: layer.cells[k],
            cost: layer.values[k],
        };
        match out.push(node) {
            Ok(_) => {}
            Err(_) => return Err(NoMemory),
        }
    }
    Ok(())
}

/// The nodes of a row.
fn nodes_of_row(alloc: Global, layers: &Layers<'_>, row: Row) -> Result<Vec<Node>, NoMemory>
    requires order { row.from ≤ row.end }
    requires within { row.end ≤ length layers.now }
    ensures { IfOk result (λ v. v.items ≡ row_in layers.now row) }
{
    let mut nodes = Vec::new(alloc);
    for k in row.from..row.end {
        match add_layer(&mut nodes, layers.at(k)) {
            Ok(_) => {}
            Err(e) => return Err(e),
        }
    }
    Ok(nodes)
}

/// Rows in the other order.
fn turn_rows(rows: &mut Vec<Row>)
    ensures { rows.new.items ≡ reverse rows.old.items }
{
    rows.as_mut_slice().reverse();
}

impl<'a> SampleCells<'a> {
    /// No rows. They take no memory yet.
    pub fn new(alloc: Global) -> SampleCells<'a>
        ensures { result ≡ [] }
    {
        SampleCells {
            layers: Layers::new(alloc),
            rows: Vec::new(alloc),
            cells: Pool::new(alloc),
            values: Pool::new(alloc),
        }
    }

    /// The number of rows.
    pub fn len(&self) -> usize
        ensures { result ≡ length self.now }
    {
        self.rows.len()
    }

    /// One more row behind the others, copied into the arena. A refusal changes no row.
    ///
    /// # Errors
    /// Want of memory alone.
    pub fn push(&mut self, arena: &'a Bump, nodes: &[Node]) -> Result<(), NoMemory>
        ensures ok { OnOk result (self.new ≡ self.old ++ nodes.now ∷ []) }
        ensures err { OnErr result (self.new ≡ self.old) }
    {
        let from = self.layers.len();
        match put_row(
            arena,
            &mut self.layers,
            &mut self.cells,
            &mut self.values,
            nodes,
        ) {
            Ok(_) => {}
            Err(e) => return Err(e),
        }
        let end = self.layers.len();
        match self.rows.push(Row { from, end }) {
            Ok(_) => {}
            Err(_) => return Err(NoMemory),
        }
        Ok(())
    }

    /// Row i, from 0, or no nodes where there is no such row.
    ///
    /// # Errors
    /// Want of memory alone.
    pub fn row(&self, alloc: Global, i: usize) -> Result<Vec<Node>, NoMemory>
        ensures { IfOk result (λ v. v.items ≡ nodes_at self.now i) }
    {
        if i < self.rows.len() {
            nodes_of_row(alloc, &self.layers, self.rows[i])
        } else {
            Ok(Vec::new(alloc))
        }
    }

    /// The rows in the other order.
    pub fn turn(&mut self)
        ensures { self.new ≡ reverse self.old }
    {
        turn_rows(&mut self.rows);
    }
}
