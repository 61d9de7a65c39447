ghost use Rattle.std.specs.Prelude.{◌≡◌, ◌<◌, ◌≤◌, [], ◌∷◌, IfOk, suc};
ghost use Rattle.beam_encoder.specs.Near.{AreTargets};
ghost use Rattle.beam_encoder.specs.Kept.{root};
ghost use Rattle.beam_encoder.specs.Layers.{AreLayers, AreLinked, way_to};

use crate::history::{History, add_layer, begin_of, no_layers, node_at};
use crate::layer::next_layer;
use crate::node::Node;
use adpcm_nums::{NoMemory, Words32};
use machine_core::{Machine, State, rule_at};
use std::alloc::Global;

/// The empty prefix alone.
fn first_layer(alloc: Global) -> Result<Vec<Node>, NoMemory>
    ensures { IfOk result (λ v. v.items ≡ root ∷ []) }
{
    let mut layer = Vec::new(alloc);
    let state = State { a: 0, b: 0 };
    match layer.push(Node {
        parent: 0,
        head: 0,
        sum: 0,
        state,
    }) {
        Ok(_) => Ok(layer),
        Err(_) => Err(NoMemory),
    }
}

/// What is kept after no block, after one, and so on to all.
pub(crate) fn layers<M: Machine>(
    alloc: Global,
    machine: &M,
    targets: &[i32],
    blocks: u32,
    width: u32,
) -> Result<History, NoMemory>
    requires targets { AreTargets (M.rules machine.now).decoder blocks targets.now }
    requires some { 0 < width }
    requires few { width ≤ 64 }
    ensures { IfOk result (λ history. AreLayers (M.rules machine.now).decoder width targets.now (suc blocks) history.nodes.items history.bounds.items) }
{
    let samples = machine.block_samples() as usize;
    let mut layer = first_layer(alloc)?;
    let mut history = no_layers(alloc)?;
    add_layer(&mut history, layer.as_slice())?;
    for b in 0..blocks {
        let from = b as usize * samples;
        let block = &targets[from..from + samples];
        let begin = begin_of(&history, b);
        next_layer(
            machine,
            rule_at(b),
            block,
            &history.nodes,
            begin,
            width,
            &mut layer,
        )?;
        add_layer(&mut history, layer.as_slice())?;
    }
    Ok(history)
}

/// The heads of the first prefix that is kept in the end, from parent to parent back to the first block.
pub(crate) fn heads_of(alloc: Global, history: &History, blocks: u32) -> Result<Words32, NoMemory>
    requires { AreLinked history.now.nodes.items history.now.bounds.items blocks }
    ensures { IfOk result (λ heads. heads ≡ way_to history.now.nodes.items history.now.bounds.items blocks 0) }
{
    let mut heads = Vec::new(alloc);
    let mut place = 0;
    let mut b = blocks;
    while b > 0 {
        let node = node_at(history, b, place);
        match heads.push(node.head) {
            Ok(_) => {}
            Err(_) => return Err(NoMemory),
        }
        place = node.parent;
        b -= 1;
    }
    heads.reverse();
    Ok(Words32::from_vec(heads))
}
