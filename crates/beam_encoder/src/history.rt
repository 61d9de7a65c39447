ghost use Rattle.std.specs.Prelude.{◌≡◌, ◌+◌, ◌^◌, ◌<◌, [], ◌∷◌, ◌++◌, suc, length, drop, get_or, IfOk, OnOk};
ghost use Rattle.beam_encoder.specs.Kept.{root};
ghost use Rattle.beam_encoder.specs.Layers.{nodes_at};

use crate::node::Node;
use adpcm_nums::NoMemory;
use page_pool::Pool;
use std::alloc::Global;

/// All prefixes that a beam keeps, layer behind layer, and none is copied or moved again.
#[derive(Drop)]
pub(crate) struct History {
    /// The nodes of all layers.
    pub(crate) nodes: Pool<Node>,
    /// Where each layer begins, and then where the last ends.
    pub(crate) bounds: Vec<u32>,
}

/// No layer yet.
pub(crate) fn no_layers(alloc: Global) -> Result<History, NoMemory>
    ensures { IfOk result (λ history. (history.nodes.items ≡ []) × (history.bounds.items ≡ 0 ∷ [])) }
{
    let mut bounds = Vec::new(alloc);
    match bounds.push(0) {
        Ok(_) => Ok(History {
            nodes: Pool::new(alloc),
            bounds,
        }),
        Err(_) => Err(NoMemory),
    }
}

// Puts nodes behind those that are there.
fn append(nodes: &mut Pool<Node>, layer: &[Node]) -> Result<(), NoMemory>
    requires few { length nodes.old.items + length layer.now < 2 ^ 32 }
    ensures { OnOk result (nodes.new.items ≡ nodes.old.items ++ layer.now) }
{
    nodes.reserve(layer.len())?;
    for node in layer {
        nodes.push(*node)?;
    }
    Ok(())
}

/// One layer more.
pub(crate) fn add_layer(history: &mut History, layer: &[Node]) -> Result<(), NoMemory>
    requires few { length history.old.nodes.items + length layer.now < 2 ^ 32 }
    ensures nodes { OnOk result (history.new.nodes.items ≡ history.old.nodes.items ++ layer.now) }
    ensures bounds { OnOk result (history.new.bounds.items ≡ history.old.bounds.items ++ length history.new.nodes.items ∷ []) }
{
    append(&mut history.nodes, layer)?;
    match history.bounds.push(history.nodes.len() as u32) {
        Ok(_) => Ok(()),
        Err(_) => Err(NoMemory),
    }
}

/// Where layer `b` begins.
pub(crate) fn begin_of(history: &History, b: u32) -> usize
    requires { b < length history.now.bounds.items }
    ensures { result ≡ get_or history.now.bounds.items b 0 }
{
    history.bounds[b as usize] as usize
}

/// One of the nodes from a place on.
pub(crate) fn node_behind(nodes: &Pool<Node>, begin: usize, place: usize) -> Node
    requires place { begin + place < length nodes.now.items }
    requires few { length nodes.now.items < 2 ^ 32 }
    ensures { result ≡ get_or (drop begin nodes.now.items) place root }
{
    nodes.get(begin + place)
}

/// One of the prefixes that are kept after `b` blocks.
pub(crate) fn node_at(history: &History, b: u32, place: u32) -> Node
    requires few { length history.now.nodes.items < 2 ^ 32 }
    requires layer { suc b < length history.now.bounds.items }
    requires place { place < length (nodes_at history.now.nodes.items history.now.bounds.items b) }
    ensures { result ≡ get_or (nodes_at history.now.nodes.items history.now.bounds.items b) place root }
{
    history.nodes.get(begin_of(history, b) + place as usize)
}
