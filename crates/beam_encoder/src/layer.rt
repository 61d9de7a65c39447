ghost use Rattle.std.specs.Prelude.{◌≡◌, ◌<◌, ◌≤◌, ◌^◌, ◌++◌, IsTrue, IsNone, IfSome, OnOk, List, length, take, drop};
ghost use Rattle.std.specs.List.{All};
ghost use Rattle.beam_encoder.specs.declared.node.Node.{Node};
ghost use Rattle.beam_encoder.specs.Near.{IsBlock, near_state, near_sum};
ghost use Rattle.beam_encoder.specs.Kept.{sorted, ruled, extended, extensions};

use crate::bounded::{limit_of, put};
use crate::history::node_behind;
use crate::near::near;
use crate::node::Node;
use adpcm_nums::NoMemory;
use machine_core::{HeadRule, Machine, State};
use page_pool::Pool;

/// The state after a block under a head, each target with its nearest symbol, and what it costs, where that is less than `most`.
fn after_under<M: Machine>(
    machine: &M,
    head: u32,
    block: &[i32],
    from: State,
    most: u64,
) -> Option<(State, u64)>
    requires head { head < (M.rules machine.now).decoder.heads }
    requires block { IsBlock (M.rules machine.now).decoder block.now }
    requires from { IsTrue ((M.rules machine.now).decoder.is_state from) }
    ensures state { IfSome result (λ r. r.0 ≡ near_state (M.rules machine.now).decoder head block.now from (M.rules machine.now).decoder.samples) }
    ensures cost { IfSome result (λ r. r.1 ≡ near_sum (M.rules machine.now).decoder head block.now from (M.rules machine.now).decoder.samples) }
    ensures none { IsNone result → most ≤ near_sum (M.rules machine.now).decoder head block.now from (M.rules machine.now).decoder.samples }
{
    let mut state = from;
    let mut sum = 0;
    for pos in 0..machine.block_samples() {
        let target = block[pos as usize];
        let taken = near(machine, head, pos, state, target);
        state = taken.state;
        sum += taken.cost;
        if sum >= most {
            return None;
        }
    }
    Some((state, sum))
}

/// Puts a prefix with one block more under a head into those that are kept, where the rule allows the head.
fn try_head<M: Machine>(
    machine: &M,
    rule: HeadRule,
    head: u32,
    block: &[i32],
    parent: u32,
    from: Node,
    width: u32,
    nodes: &mut Vec<Node>,
) -> Result<(), NoMemory>
    requires width { 0 < width }
    requires head { head < (M.rules machine.now).decoder.heads }
    requires block { IsBlock (M.rules machine.now).decoder block.now }
    requires from { IsTrue ((M.rules machine.now).decoder.is_state from.state) }
    requires small { from.sum ≤ 2 ^ 60 }
    ensures { (made : List Node) → nodes.old.items ≡ take width (sorted made)
        → OnOk result (nodes.new.items ≡ take width (sorted (made ++ ruled (M.rules machine.now).decoder rule block.now parent from head))) }
{
    if machine.allows(head, rule) {
        let limit = limit_of(nodes.as_slice(), width);
        let most = limit.saturating_sub(from.sum);
        if let Some((state, cost)) = after_under(machine, head, block, from.state, most) {
            let sum = from.sum + cost;
            put(
                nodes,
                Node {
                    parent,
                    head,
                    sum,
                    state,
                },
                width,
            )?;
        }
    }
    Ok(())
}

/// Puts a prefix with one block more under each head that the rule allows, in the order of the heads.
fn extend<M: Machine>(
    machine: &M,
    rule: HeadRule,
    block: &[i32],
    parent: u32,
    from: Node,
    width: u32,
    nodes: &mut Vec<Node>,
) -> Result<(), NoMemory>
    requires width { 0 < width }
    requires block { IsBlock (M.rules machine.now).decoder block.now }
    requires from { IsTrue ((M.rules machine.now).decoder.is_state from.state) }
    requires small { from.sum ≤ 2 ^ 60 }
    ensures { (made : List Node) → nodes.old.items ≡ take width (sorted made)
        → OnOk result (nodes.new.items ≡ take width (sorted (made ++ extended (M.rules machine.now).decoder rule block.now parent from (M.rules machine.now).decoder.heads))) }
{
    for head in 0..machine.heads() {
        try_head(machine, rule, head, block, parent, from, width, nodes)?;
    }
    Ok(())
}

/// The `width` first of all prefixes of the last layer with one block more, over what the list held before.
///
/// The last layer is what stands in `kept` from place `begin` on.
pub(crate) fn next_layer<M: Machine>(
    machine: &M,
    rule: HeadRule,
    block: &[i32],
    kept: &Pool<Node>,
    begin: usize,
    width: u32,
    nodes: &mut Vec<Node>,
) -> Result<(), NoMemory>
    requires width { 0 < width }
    requires block { IsBlock (M.rules machine.now).decoder block.now }
    requires begins { begin ≤ length kept.now.items }
    requires few { length kept.now.items < 2 ^ 32 }
    requires fits { All (λ n. IsTrue ((M.rules machine.now).decoder.is_state n.state)) (drop begin kept.now.items) }
    requires small { All (λ n. n.sum ≤ 2 ^ 60) (drop begin kept.now.items) }
    ensures { OnOk result (nodes.new.items ≡ take width (sorted (extensions (M.rules machine.now).decoder rule block.now (drop begin kept.now.items) (length (drop begin kept.now.items))))) }
{
    nodes.clear();
    for i in 0..kept.len() - begin {
        let from = node_behind(kept, begin, i);
        extend(machine, rule, block, i as u32, from, width, nodes)?;
    }
    Ok(())
}
