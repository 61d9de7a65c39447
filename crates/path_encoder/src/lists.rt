ghost use Rattle.std.specs.Prelude.{◌≡◌, ◌<◌, IsTrue, IfOk, OnOk};
ghost use Rattle.adpcm_nums.specs.Sample.{IsSample};
ghost use Rattle.machine_core.specs.Decoder.{Decoder};
ghost use Rattle.path_encoder.specs.Lists.{AreFit};

use crate::bounded::put;
use crate::slot::{Slot, Step};
use crate::taken::taken;
use adpcm_nums::NoMemory;
use machine_core::{Machine, State, Taken};
use std::alloc::Global;

/// For each step index the lists of codes that end in it, the cheapest first.
#[derive(Drop)]
pub(crate) struct Lists {
    /// One list of slots an index.
    pub(crate) by_index: Vec<Vec<Slot>>,
    /// The width of a cell of outputs for each index.
    pub(crate) widths: Vec<u32>,
}

/// The output after a code at a block's second place.
fn output_of<M: Machine>(machine: &M, code: u32, from: State) -> i32
    requires some { 0 < (M.rules machine.now).decoder.heads }
    requires later { 1 < (M.rules machine.now).decoder.samples }
    requires from { IsTrue ((M.rules machine.now).decoder.is_state from) }
{
    match taken(machine, 0, 1, code, from, 0) {
        Some(found) => found.state.a,
        None => 0,
    }
}

/// The width of a cell after a state: a thirty-second of the state's step size, and at least 1. Codes 0 and 2 lie half a step
/// apart.
fn cell_width<M: Machine>(machine: &M, from: State) -> u32
    requires some { 0 < (M.rules machine.now).decoder.heads }
    requires later { 1 < (M.rules machine.now).decoder.samples }
    requires from { IsTrue ((M.rules machine.now).decoder.is_state from) }
{
    let low = output_of(machine, 0, from);
    let high = output_of(machine, 2, from);
    (high.saturating_sub(low).unsigned_abs() / 16).max(1)
}

/// The sample of a block's first place that comes nearest to a target under a head.
pub(crate) fn first_sample<M: Machine>(machine: &M, head: u32, target: i32) -> Taken
    requires head { head < (M.rules machine.now).decoder.heads }
    requires target { IsSample target }
    ensures { IsTrue ((M.rules machine.now).decoder.is_state result.state) }
{
    machine.take_nearest(head, 0, State { a: 0, b: 0 }, target)
}

/// How many there are in a list of few.
fn count_of(list: &[Slot]) -> u32 {
    let mut count: u32 = 0;
    for _ in list {
        count = count.saturating_add(1);
    }
    count
}

impl Lists {
    /// No list yet, for as many indices as the decoder has heads.
    pub(crate) fn new<M: Machine>(alloc: Global, machine: &M) -> Result<Lists, NoMemory>
        requires later { 1 < (M.rules machine.now).decoder.samples }
        ensures { (d : Decoder) → IfOk result (AreFit d) }
    {
        let mut by_index = Vec::new(alloc);
        let mut widths = Vec::new(alloc);
        for head in 0..machine.heads() {
            let rest = first_sample(machine, head, 0);
            by_index.push(Vec::new(alloc)).map_err(|_| NoMemory)?;
            widths
                .push(cell_width(machine, rest.state))
                .map_err(|_| NoMemory)?;
        }
        Ok(Lists { by_index, widths })
    }

    /// The cell of an output under an index.
    fn cell_of(&self, index: usize, output: i32) -> u32 {
        let width = match self.widths.get(index) {
            Some(width) => *width,
            None => 1,
        };
        output.saturating_add(32768).unsigned_abs() / width.max(1)
    }

    /// Keeps a list of codes that ends in a sample, where its sum is below `most` and one of the `width` best of its index.
    pub(crate) fn offer(
        &mut self,
        width: usize,
        most: u64,
        before: u64,
        from: u32,
        taken: Taken,
    ) -> Result<(), NoMemory>
        requires { 0 < width }
        ensures { (d : Decoder) → AreFit d self.old → IsTrue (d.is_state taken.state) → OnOk result (AreFit d self.new) }
    {
        let sum = before.saturating_add(taken.cost);
        let index = taken.state.b.unsigned_abs() as usize;
        if sum >= most || index >= self.by_index.len() {
            return Ok(());
        }
        let slot = Slot {
            sum,
            state: taken.state,
            cell: self.cell_of(index, taken.state.a),
            step: Step {
                from,
                symbol: taken.symbol,
            },
        };
        put(&mut self.by_index[index], width, 0, slot)
    }

    /// Empties all lists.
    pub(crate) fn clear(&mut self)
        ensures { (d : Decoder) → AreFit d self.old → AreFit d self.new }
    {
        for i in 0..self.by_index.len() {
            self.by_index[i].clear();
        }
    }

    /// The number of the cheapest list, counted over all indices, the first of equal ones.
    pub(crate) fn best(&self) -> Option<u32> {
        let mut number: u32 = 0;
        let mut best = None;
        let mut least = u64::MAX;
        for list in &self.by_index {
            if let Some(slot) = list.first() {
                if slot.sum < least {
                    best = Some(number);
                    least = slot.sum;
                }
            }
            number = number.saturating_add(count_of(list.as_slice()));
        }
        best
    }
}
