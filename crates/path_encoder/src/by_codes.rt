ghost use Rattle.std.specs.Prelude.{IfSome, ◌≡◌, ◌^◌, ◌<◌, ◌≤◌, IsTrue, IfOk, OnOk, length};
ghost use Rattle.adpcm_nums.specs.Sample.{IsSample};
ghost use Rattle.beam_encoder.specs.Near.{IsBlock, AreTargets};
ghost use Rattle.path_encoder.specs.Paths.{AreStates};
ghost use Rattle.machine_core.specs.Decoder.{Decoder, start};

use crate::bounded::{limit, put};
use crate::codes::Codes;
use crate::path::Path;
use crate::ranked::ranked;
use crate::taken::taken;
use crate::two::next_nearest;
use adpcm_nums::NoMemory;
use machine_core::{HeadRule, Machine, State, Taken, rule_at};
use std::alloc::Global;

/// The path with no block.
fn root() -> Path
    ensures { result.state ≡ start }
{
    Path {
        sum: 0,
        state: State { a: 0, b: 0 },
        parent: 0,
        head: 0,
        codes: Codes::none(),
    }
}

/// The paths of the last layer, each as the beginning of a block under a head.
fn begin(now: &mut Vec<Path>, layer: &[Path], head: u32) -> Result<(), NoMemory>
    ensures { (d : Decoder) → AreStates d layer.now → OnOk result (AreStates d now.new.items) }
{
    now.clear();
    let mut parent: u32 = 0;
    for path in layer {
        let begun = Path {
            parent,
            head,
            codes: Codes::none(),
            ..*path
        };
        now.push(begun).map_err(|_| NoMemory)?;
        parent = parent.saturating_add(1);
    }
    Ok(())
}

/// Puts a path with one sample more into a list, where there is such a sample and the sum stays below `most`.
fn go_on(
    next: &mut Vec<Path>,
    width: usize,
    grain: u32,
    most: u64,
    path: Path,
    place: u32,
    taken: Option<Taken>,
) -> Result<(), NoMemory>
    requires width { 0 < width }
    requires grain { grain < 32 }
    requires place { place < 32 }
    ensures { (d : Decoder) → AreStates d next.old.items → IfSome taken (λ t. IsTrue (d.is_state t.state)) → OnOk result (AreStates d next.new.items) }
{
    let taken = match taken {
        Some(taken) => taken,
        None => return Ok(()),
    };
    let sum = path.sum.saturating_add(taken.cost);
    if sum >= most {
        return Ok(());
    }
    let longer = Path {
        sum,
        state: taken.state,
        codes: path.codes.with(place, taken.symbol % 16),
        ..path
    };
    put(next, width, grain, longer)
}

/// The paths one sample further under a head: each with the nearest code, and with the next nearest that gives another output.
fn step_all<M: Machine>(
    machine: &M,
    head: u32,
    place: u32,
    target: i32,
    now: &[Path],
    next: &mut Vec<Path>,
    width: usize,
    grain: u32,
    most: u64,
) -> Result<(), NoMemory>
    requires grain { grain < 32 }
    requires head { head < (M.rules machine.now).decoder.heads }
    requires place { place < (M.rules machine.now).decoder.samples }
    requires early { place < 32 }
    requires target { IsSample target }
    requires now { AreStates (M.rules machine.now).decoder now.now }
    requires width { 0 < width }
    ensures { OnOk result (AreStates (M.rules machine.now).decoder next.new.items) }
{
    next.clear();
    for path in now {
        let nearest = machine.take_nearest(head, place, path.state, target);
        let other = next_nearest(machine, head, place, path.state, target, nearest);
        go_on(next, width, grain, most, *path, place, Some(nearest))?;
        go_on(next, width, grain, most, *path, place, other)?;
    }
    Ok(())
}

/// The output after a code at a block's first place, from no output.
fn output_of<M: Machine>(machine: &M, head: u32, code: u32) -> i32
    requires { head < (M.rules machine.now).decoder.heads }
{
    match taken(machine, head, 0, code, State { a: 0, b: 0 }, 0) {
        Some(found) => found.state.a,
        None => 0,
    }
}

/// The bits of a cell of outputs under a head inside a block: the greatest power of two that is at most a thirty-second of the
/// step between two codes, or 1.
fn grain_of<M: Machine>(machine: &M, head: u32) -> u32
    requires { head < (M.rules machine.now).decoder.heads }
    ensures { result < 32 }
{
    let low = output_of(machine, head, 0);
    let high = output_of(machine, head, 1);
    (high.saturating_sub(low).unsigned_abs() / 32)
        .max(1)
        .ilog2()
}

/// The two lists that the paths of a block change between, from place to place.
#[derive(Drop)]
struct Scratch {
    now: Vec<Path>,
    next: Vec<Path>,
}

/// Puts paths into a list, one after another.
fn put_all(made: &mut Vec<Path>, width: usize, paths: &[Path]) -> Result<(), NoMemory>
    requires { 0 < width }
    ensures { (d : Decoder) → AreStates d made.old.items → AreStates d paths.now → OnOk result (AreStates d made.new.items) }
{
    for path in paths {
        put(made, width, 0, *path)?;
    }
    Ok(())
}

/// Goes on with the paths of the last layer through a block under a head, and puts the ends into those that were made.
fn extend<M: Machine>(
    machine: &M,
    block: &[i32],
    layer: &[Path],
    head: u32,
    width: usize,
    known: u64,
    scratch: &mut Scratch,
    made: &mut Vec<Path>,
) -> Result<(), NoMemory>
    requires head { head < (M.rules machine.now).decoder.heads }
    requires few { (M.rules machine.now).decoder.samples ≤ 32 }
    requires block { IsBlock (M.rules machine.now).decoder block.now }
    requires layer { AreStates (M.rules machine.now).decoder layer.now }
    requires made { AreStates (M.rules machine.now).decoder made.old.items }
    requires width { 0 < width }
    ensures { OnOk result (AreStates (M.rules machine.now).decoder made.new.items) }
{
    let most = known.min(limit(made.as_slice(), width));
    let grain = grain_of(machine, head);
    begin(&mut scratch.now, layer, head)?;
    for place in 0..machine.block_samples() {
        let target = block[place as usize];
        step_all(
            machine,
            head,
            place,
            target,
            scratch.now.as_slice(),
            &mut scratch.next,
            width,
            grain,
            most,
        )?;
        std::mem::swap(&mut scratch.now, &mut scratch.next);
    }
    put_all(made, width, scratch.now.as_slice())
}

/// The paths that are kept after one block more.
fn next_layer<M: Machine>(
    alloc: Global,
    machine: &M,
    rule: HeadRule,
    block: &[i32],
    layer: &[Path],
    width: usize,
    known: u64,
    scratch: &mut Scratch,
) -> Result<Vec<Path>, NoMemory>
    requires few { (M.rules machine.now).decoder.samples ≤ 32 }
    requires some { 1 < (M.rules machine.now).decoder.samples }
    requires block { IsBlock (M.rules machine.now).decoder block.now }
    requires layer { AreStates (M.rules machine.now).decoder layer.now }
    requires width { 0 < width }
    ensures { IfOk result (λ made. AreStates (M.rules machine.now).decoder made.items) }
{
    let mut made = Vec::new(alloc);
    if let Some(first) = layer.first() {
        let heads = ranked(alloc, machine, rule, block, first.state)?;
        for ranked in heads.as_slice() {
            extend(
                machine,
                block,
                layer,
                ranked.head,
                width,
                known,
                scratch,
                &mut made,
            )?;
        }
    }
    Ok(made)
}

/// A layer of the path with no block alone.
fn first_layer(alloc: Global) -> Result<Vec<Path>, NoMemory>
    ensures { (d : Decoder) → IsTrue (d.is_state start) → IfOk result (λ layer. AreStates d layer.items) }
{
    let mut layer = Vec::new(alloc);
    layer.push(root()).map_err(|_| NoMemory)?;
    Ok(layer)
}

/// The paths that are kept after each block, from none on, where sums of `known` or more are left out.
pub(crate) fn layers<M: Machine>(
    alloc: Global,
    machine: &M,
    targets: &[i32],
    blocks: u32,
    width: usize,
    known: u64,
) -> Result<Vec<Vec<Path>>, NoMemory>
    requires few { (M.rules machine.now).decoder.samples ≤ 32 }
    requires some { 1 < (M.rules machine.now).decoder.samples }
    requires targets { AreTargets (M.rules machine.now).decoder blocks targets.now }
    requires width { 0 < width }
{
    let samples = machine.block_samples() as usize;
    let mut scratch = Scratch {
        now: Vec::new(alloc),
        next: Vec::new(alloc),
    };
    let mut layers = Vec::new(alloc);
    let mut layer = first_layer(alloc)?;
    for b in 0..blocks {
        let from = b as usize * samples;
        let block = &targets[from..from + samples];
        let next = next_layer(
            alloc,
            machine,
            rule_at(b),
            block,
            layer.as_slice(),
            width,
            known,
            &mut scratch,
        )?;
        layers.push(layer).map_err(|_| NoMemory)?;
        layer = next;
    }
    layers.push(layer).map_err(|_| NoMemory)?;
    Ok(layers)
}
