ghost use Rattle.std.specs.Prelude.{◌≡◌, ℕ, suc, ◌+◌, ◌%◌, ◌*◌, ◌<◌, ◌≤◌, ℤ, pos, ◌+ℤ◌, ◌≤ℤ◌, IsTrue, OnOk, Err, vec_len, length, List, [], true};
ghost use Rattle.block_steps.specs.Tables.{IsSpot};
ghost use Rattle.open_cells.specs.declared.node.Halt.TheVariants.{Many};
ghost use Rattle.open_cells.specs.Reach.{HasVisited, IsMade, IsSearch, IsCurrent, IsNext, AreOpen, ReachesFrom, IsLayer, IsOver};

use crate::node::{Halt, Node};
use crate::relaxing::add_node;
use crate::search::Search;
use crate::sorting::merge;
use block_steps::{Spot, next_spot};
use machine_core::Machine;
use std::alloc::Global;

/// Adds what the steps from all nodes of a layer reach.
fn add_front<M: Machine>(
    alloc: Global,
    machine: &M,
    s: &Search<'_>,
    at: Spot,
    next: Spot,
    front: &[Node],
    made: &mut Vec<Node>,
) -> Result<(), Halt>
    requires search { IsSearch (M.rules machine.now) s.now }
    requires at { IsSpot (M.rules machine.now) at }
    requires next { IsNext (M.rules machine.now) s.now at next }
    requires front { AreOpen (M.rules machine.now) s.now at.index front.now }
    requires made { AreOpen (M.rules machine.now) s.now (suc at.index) made.old.items }
    ensures made { IsMade (M.rules machine.now) s.now (suc at.index) result made.new.items }
    ensures visited { OnOk result (HasVisited (M.rules machine.now) s.now (suc at.index) made.old.items made.new.items (ReachesFrom (M.rules machine.now) s.now at.index front.now (length front.now))) }
{
    for x in front {
        match add_node(alloc, machine, s, at, next, *x, made) {
            Ok(_) => {}
            Err(e) => return Err(e),
        }
    }
    Ok(())
}

/// The layer of cells that open paths reach before the next sample, or word that there are more than there is room for: then they stand in the list.
pub fn next_layer<M: Machine>(
    alloc: Global,
    machine: &M,
    s: &Search<'_>,
    at: Spot,
    front: &[Node],
    made: &mut Vec<Node>,
) -> Result<(), Halt>
    requires search { IsSearch (M.rules machine.now) s.now }
    requires at { IsCurrent (M.rules machine.now) s.now at }
    requires front { IsLayer (M.rules machine.now) s.now at.index front.now }
    requires made { made.old.items ≡ [] }
    ensures layer { OnOk result (IsLayer (M.rules machine.now) s.now (suc at.index) made.new.items) }
    ensures few { OnOk result (vec_len made.new ≤ s.now.room) }
    ensures many { result ≡ Err Many → IsOver (M.rules machine.now) s.now (suc at.index) made.new.items }
{
    let next = next_spot(machine, at);
    match add_front(alloc, machine, s, at, next, front, made) {
        Ok(_) => {}
        Err(e) => return Err(e),
    }
    match merge(alloc, made) {
        Ok(_) => {}
        Err(_) => return Err(Halt::NoMemory),
    }
    if made.len() > s.room as usize {
        return Err(Halt::Many);
    }
    Ok(())
}
