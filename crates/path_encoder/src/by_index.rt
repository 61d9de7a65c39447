ghost use Rattle.std.specs.Prelude.{◌≡◌, ◌<◌, IsTrue, OnOk, length};
ghost use Rattle.adpcm_nums.specs.Sample.{IsSample, AreSamples};
ghost use Rattle.path_encoder.specs.Lists.{AreFit};

use crate::lists::{Lists, first_sample};
use crate::offers::offers;
use crate::slot::Slot;
use crate::taken::taken;
use crate::trace::Trace;
use crate::traced::Proposal;
use adpcm_nums::{NoMemory, Words32};
use machine_core::Machine;
use std::alloc::Global;

/// Offers every head's first sample: in IMA ADPCM its first output, which is the target itself.
fn begin<M: Machine>(machine: &M, target: i32, most: u64, lists: &mut Lists) -> Result<(), NoMemory>
    requires target { IsSample target }
    requires lists { AreFit (M.rules machine.now).decoder lists.old }
    ensures { OnOk result (AreFit (M.rules machine.now).decoder lists.new) }
{
    for head in 0..machine.heads() {
        let first = first_sample(machine, head, target);
        lists.offer(1, most, 0, head, first)?;
    }
    Ok(())
}

/// Offers a list of codes with each code that is worth while.
fn offer_from<M: Machine>(
    machine: &M,
    place: u32,
    target: i32,
    width: usize,
    most: u64,
    slot: Slot,
    number: u32,
    next: &mut Lists,
) -> Result<(), NoMemory>
    requires some { 0 < (M.rules machine.now).decoder.heads }
    requires place { place < (M.rules machine.now).decoder.samples }
    requires from { IsTrue ((M.rules machine.now).decoder.is_state slot.state) }
    requires target { IsSample target }
    requires width { 0 < width }
    requires next { AreFit (M.rules machine.now).decoder next.old }
    ensures { OnOk result (AreFit (M.rules machine.now).decoder next.new) }
{
    for symbol in offers(machine, place, slot.state, target) {
        if let Some(found) = taken(machine, 0, place, symbol, slot.state, target) {
            next.offer(width, most, slot.sum, number, found)?;
        }
    }
    Ok(())
}

/// Offers all lists of codes with one sample more.
fn go_on<M: Machine>(
    machine: &M,
    place: u32,
    target: i32,
    width: usize,
    most: u64,
    now: &Lists,
    next: &mut Lists,
) -> Result<(), NoMemory>
    requires some { 0 < (M.rules machine.now).decoder.heads }
    requires place { place < (M.rules machine.now).decoder.samples }
    requires target { IsSample target }
    requires width { 0 < width }
    requires now { AreFit (M.rules machine.now).decoder now.now }
    requires next { AreFit (M.rules machine.now).decoder next.old }
    ensures { OnOk result (AreFit (M.rules machine.now).decoder next.new) }
{
    next.clear();
    let mut number: u32 = 0;
    for list in &now.by_index {
        for slot in list {
            offer_from(machine, place, target, width, most, *slot, number, next)?;
            number = number.saturating_add(1);
        }
    }
    Ok(())
}

/// The codes of a block that end in a list by its number, from the last place back to the first.
fn spelled(
    alloc: Global,
    trace: &Trace,
    samples: usize,
    end: u32,
) -> Result<Option<Proposal>, NoMemory> {
    let mut heads = Vec::new(alloc);
    let mut symbols = Vec::new(alloc);
    let mut number = end;
    for left in 0..samples {
        let step = match trace.at(samples - 1 - left, number) {
            Some(step) => step,
            None => return Ok(None),
        };
        symbols.push(step.symbol).map_err(|_| NoMemory)?;
        number = step.from;
    }
    symbols.reverse();
    heads.push(number).map_err(|_| NoMemory)?;
    Ok(Some(Proposal {
        heads: Words32::from_vec(heads),
        symbols: Words32::from_vec(symbols),
    }))
}

/// The lists of codes of a block that are kept at its end, and how they came about.
fn kept<M: Machine>(
    alloc: Global,
    machine: &M,
    block: &[i32],
    width: usize,
    most: u64,
    trace: &mut Trace,
) -> Result<Lists, NoMemory>
    requires count { length block.now ≡ (M.rules machine.now).decoder.samples }
    requires range { AreSamples block.now }
    requires later { 1 < (M.rules machine.now).decoder.samples }
    requires width { 0 < width }
{
    let mut now = Lists::new(alloc, machine)?;
    let mut next = Lists::new(alloc, machine)?;
    begin(machine, block[0], most, &mut now)?;
    trace.add(&now)?;
    for place in 1..machine.block_samples() {
        let target = block[place as usize];
        go_on(machine, place, target, width, most, &now, &mut next)?;
        std::mem::swap(&mut now, &mut next);
        trace.add(&now)?;
    }
    Ok(now)
}

/// The cheapest of the lists of codes for one block that are kept by step index, where its sum is below `most`. Targets of more
/// than one block give nothing.
pub(crate) fn by_index<M: Machine>(
    alloc: Global,
    machine: &M,
    targets: &[i32],
    width: usize,
    most: u64,
) -> Result<Option<Proposal>, NoMemory>
    requires range { AreSamples targets.now }
    requires width { 0 < width }
{
    let samples = machine.block_samples() as usize;
    if samples < 2 || targets.len() != samples {
        return Ok(None);
    }
    let mut trace = Trace::new(alloc);
    let lists = kept(alloc, machine, targets, width, most, &mut trace)?;
    match lists.best() {
        Some(end) => spelled(alloc, &trace, samples, end),
        None => Ok(None),
    }
}
