ghost use Rattle.std.specs.Prelude.{◌≡◌, ◌*◌, ◌<◌, ◌≤◌, ◌^◌, IfOk, Err, IsTrue, Option, max, length};
ghost use Rattle.block_steps.specs.Tables.{HoldLater};
ghost use Rattle.bound_cert.specs.Filed.{IsFiled};
ghost use Rattle.box_layers.specs.Looking.{or_else};
ghost use Rattle.machine_core.specs.Blocks.{first_only};
ghost use Rattle.machine_core.specs.Cells.{is_level};
ghost use Rattle.machine_core.specs.Floors.{floors_from};
ghost use Rattle.open_cells.specs.declared.node.Halt.TheVariants.{NoMemory, Many};
ghost use Rattle.open_cells.specs.Counts.{IsFew, IsMany};
ghost use Rattle.open_cells.specs.Paths.{FitTargets};
ghost use Rattle.branch_bound.specs.Lists.{IsShown};
ghost use Rattle.branch_bound.specs.Searched.{IsLevel, IsSum};

use crate::backward::all_values;
use adpcm_nums::NoMemory;
use bumpalo::Bump;
use machine_core::{Machine, State};
use open_cells::{Halt, SampleCells, all_layers, listed};
use std::alloc::Global;

/// What a search shows at a level: the reached cells before each sample, each with a value that nothing from it on is below.
#[derive(Drop)]
pub struct LevelCert<'a> {
    /// Blocks of the segment.
    pub blocks: u32,
    /// The level of the cells, 255 for the floors alone.
    pub level: u32,
    /// The bound, in squared 16-bit steps.
    pub bound: u64,
    /// The cells before each sample, in the order of their lanes.
    pub layers: SampleCells<'a>,
}

/// The greater of a number and what is listed.
fn greater(floor: u64, listed: Option<u64>) -> u64
    ensures { result ≡ max floor (or_else listed 0) }
{
    match listed {
        Some(v) => floor.max(v),
        None => floor,
    }
}

/// The certificate of a level, or word that more cells are reached than the share.
fn at_level<'a, M: Machine>(
    alloc: Global,
    arena: &'a Bump,
    machine: &M,
    targets: &[i32],
    rows: &mut [u64],
    later: &[u64],
    blocks: u32,
    level: u32,
    most: u64,
    share: u32,
) -> Result<LevelCert<'a>, Halt>
    requires level { IsTrue (is_level level) }
    requires blocks { 0 < blocks }
    requires fit { FitTargets (M.rules machine.now) blocks targets.now }
    requires small { blocks * (M.rules machine.now).decoder.samples < 2 ^ 31 }
    requires filed { IsFiled (M.rules machine.now) }
    requires room { (M.rules machine.now).decoder.heads * (M.rules machine.now).floor_len < 2 ^ 31 }
    requires later { HoldLater (M.rules machine.now) targets.now blocks later.now }
    requires rows { length rows.old ≡ (M.rules machine.now).decoder.heads * (M.rules machine.now).floor_len }
    requires most { IsSum (M.rules machine.now) blocks targets.now most }
    ensures few { IfOk result (λ c. IsFew (M.rules machine.now) targets.now blocks level most share) }
    ensures level { IfOk result (λ c. c.level ≡ level) }
    ensures shown { IfOk result (λ c. IsShown (M.rules machine.now) targets.now blocks most share c) }
    ensures many { result ≡ Err Many → IsMany (M.rules machine.now) targets.now blocks level most share }
    ensures rows { length rows.new ≡ (M.rules machine.now).decoder.heads * (M.rules machine.now).floor_len }
{
    let fronts = match all_layers(
        alloc, arena, machine, targets, rows, later, blocks, level, most, share,
    ) {
        Ok(v) => v,
        Err(e) => return Err(e),
    };
    let layers = match all_values(
        alloc, arena, machine, targets, rows, later, blocks, level, most, &fronts,
    ) {
        Ok(v) => v,
        Err(_) => return Err(Halt::NoMemory),
    };
    let start = machine.cell_of(level, State { a: 0, b: 0 });
    let first = match layers.row(alloc, 0) {
        Ok(v) => v,
        Err(_) => return Err(Halt::NoMemory),
    };
    let bound = greater(later[0], listed(first.as_slice(), 65535, start));
    Ok(LevelCert {
        blocks,
        level,
        bound,
        layers,
    })
}

/// The certificate of the first level that has no more cells than the share, or of the floors alone.
pub fn search_levels<'a, M: Machine>(
    alloc: Global,
    arena: &'a Bump,
    machine: &M,
    targets: &[i32],
    rows: &mut [u64],
    later: &[u64],
    blocks: u32,
    most: u64,
    share: u32,
) -> Result<LevelCert<'a>, NoMemory>
    requires blocks { 0 < blocks }
    requires fit { FitTargets (M.rules machine.now) blocks targets.now }
    requires small { blocks * (M.rules machine.now).decoder.samples < 2 ^ 31 }
    requires filed { IsFiled (M.rules machine.now) }
    requires room { (M.rules machine.now).decoder.heads * (M.rules machine.now).floor_len < 2 ^ 31 }
    requires later { HoldLater (M.rules machine.now) targets.now blocks later.now }
    requires rows { length rows.old ≡ (M.rules machine.now).decoder.heads * (M.rules machine.now).floor_len }
    requires most { IsSum (M.rules machine.now) blocks targets.now most }
    ensures level { IfOk result (λ c. IsLevel (M.rules machine.now) targets.now blocks most share c.level) }
    ensures shown { IfOk result (λ c. IsShown (M.rules machine.now) targets.now blocks most share c) }
    ensures floor_only { IfOk result (λ c. c.level ≡ 255 → c.bound ≡ floors_from (M.rules machine.now) first_only targets.now 0 blocks) }
    ensures rows { length rows.new ≡ (M.rules machine.now).decoder.heads * (M.rules machine.now).floor_len }
{
    if blocks <= 64 {
        match at_level(
            alloc, arena, machine, targets, rows, later, blocks, 0, most, share,
        ) {
            Ok(c) => return Ok(c),
            Err(Halt::NoMemory) => return Err(NoMemory),
            Err(Halt::Many) => {}
        }
        match at_level(
            alloc, arena, machine, targets, rows, later, blocks, 4, most, share,
        ) {
            Ok(c) => return Ok(c),
            Err(Halt::NoMemory) => return Err(NoMemory),
            Err(Halt::Many) => {}
        }
        match at_level(
            alloc, arena, machine, targets, rows, later, blocks, 8, most, share,
        ) {
            Ok(c) => return Ok(c),
            Err(Halt::NoMemory) => return Err(NoMemory),
            Err(Halt::Many) => {}
        }
    }
    Ok(LevelCert {
        blocks,
        level: 255,
        bound: later[0],
        layers: SampleCells::new(alloc),
    })
}
