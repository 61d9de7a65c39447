ghost use Rattle.std.specs.Prelude.{◌≡◌, ℕ, ◌<◌, ◌≤◌, [], ◌∷◌, ◌++◌, length, map, true, false, IfOk, OnOk, OnErr, slice_get, slice_index_or, Some};
ghost use Rattle.std.specs.Option.{option_map};
ghost use Rattle.box_layers.specs.declared.layer.Layer.{Layer};
ghost use Rattle.box_layers.specs.Cells.{IsAscending};
ghost use Rattle.box_layers.specs.Keys.{key_before};
ghost use Rattle.box_layers.specs.Layers.{AreLayers, IsAbove, first_of, lists_of};
ghost use Rattle.box_layers.specs.Pairs.{cells_of, paired};

use crate::key::{Key, is_key_before, is_key_same};
use crate::layer::Layer;
use adpcm_nums::NoMemory;
use bumpalo::Bump;
use bumpalo::collections::into_bump_slice;
use machine_core::Cell;
use page_pool::Pool;
use std::alloc::Global;
use std::marker::Model;

/// Layers in ascending order of their keys, whose cells and values lie in an arena.
#[derive(Drop)]
pub struct Layers<'a> {
    layers: Vec<Layer<'a>>,
}

impl<'a> Model for Layers<'a> {
    ghost use Rattle.std.specs.Prelude.{List, map};
    ghost use Rattle.box_layers.specs.Layers.{AreLayers, LayerLists, lists_of};

    ghost Value = { List LayerLists };

    ghost view = { λ s. map lists_of s.layers.items };

    ghost invariant = { λ s. AreLayers (map lists_of s.layers.items) };
}

/// The items of a pool, one behind another in an arena.
fn laid_out<'a, T: Copy + Drop>(arena: &'a Bump, items: &Pool<T>) -> Result<&'a [T], NoMemory>
    ensures { IfOk result (λ s. s.now ≡ items.now.items) }
{
    let mut whole = match Vec::with_capacity(arena, items.len()) {
        Ok(v) => v,
        Err(_) => return Err(NoMemory),
    };
    for page in 0..items.pages() {
        match whole.extend_from_slice(items.page(page)) {
            Ok(_) => {}
            Err(_) => return Err(NoMemory),
        }
    }
    Ok(into_bump_slice(whole))
}

/// How many layers stand before a key, by binary search.
fn layers_before(layers: &[Layer<'_>], key: Key) -> usize
    requires { AreLayers (map lists_of layers.now) }
    ensures within { result ≤ length layers.now }
    ensures below { (k : ℕ) (d : Layer) → k < result → key_before (slice_index_or layers.now k d).key key ≡ true }
    ensures from { (k : ℕ) (d : Layer) → result ≤ k → k < length layers.now → key_before (slice_index_or layers.now k d).key key ≡ false }
{
    layers.partition_point(|layer| is_key_before(layer.key, key))
}

/// The layer with a key.
fn layer_with<'a>(layers: &[Layer<'a>], key: Key) -> Option<Layer<'a>>
    requires { AreLayers (map lists_of layers.now) }
    ensures value { option_map lists_of result ≡ first_of key (map lists_of layers.now) }
    ensures ascends { IsAscending (cells_of result) }
{
    let i = layers_before(layers, key);
    if i == layers.len() {
        return None;
    }
    let layer = layers[i];
    if is_key_same(layer.key, key) {
        Some(layer)
    } else {
        None
    }
}

impl<'a> Layers<'a> {
    /// No layers. They take no memory yet.
    pub fn new(alloc: Global) -> Layers<'a>
        ensures { result ≡ [] }
    {
        Layers {
            layers: Vec::new(alloc),
        }
    }

    /// The number of layers.
    pub fn len(&self) -> usize
        ensures len { result ≡ length self.now }
        ensures layers { AreLayers self.now }
    {
        self.layers.len()
    }

    /// One more layer behind the others, copied into the arena. A refusal changes nothing.
    ///
    /// # Errors
    /// Want of memory alone.
    pub fn place(
        &mut self,
        arena: &'a Bump,
        key: Key,
        cells: &Pool<Cell>,
        values: &Pool<u64>,
    ) -> Result<(), NoMemory>
        requires above { IsAbove key self.old }
        requires same_length { length values.now.items ≡ length cells.now.items }
        requires ascends { IsAscending (paired cells.now.items values.now.items) }
        ensures ok { OnOk result (self.new ≡ self.old ++ record { key = key; cells = cells.now.items; values = values.now.items } ∷ []) }
        ensures err { OnErr result (self.new ≡ self.old) }
    {
        let cells = match laid_out(arena, cells) {
            Ok(s) => s,
            Err(e) => return Err(e),
        };
        let values = match laid_out(arena, values) {
            Ok(s) => s,
            Err(e) => return Err(e),
        };
        match self.layers.push(Layer { key, cells, values }) {
            Ok(_) => Ok(()),
            Err(_) => Err(NoMemory),
        }
    }

    /// Layer i, from 0.
    pub fn at(&self, i: usize) -> Layer<'a>
        requires { i < length self.now }
        ensures value { slice_get self.now i ≡ Some (lists_of result) }
        ensures ascends { IsAscending (paired result.cells.now result.values.now) }
    {
        self.layers[i]
    }

    /// The layer with this key.
    pub fn find(&self, key: Key) -> Option<Layer<'a>>
        ensures value { option_map lists_of result ≡ first_of key self.now }
        ensures ascends { IsAscending (cells_of result) }
    {
        layer_with(self.layers.as_slice(), key)
    }
}
