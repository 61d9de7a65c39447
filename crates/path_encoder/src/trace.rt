use crate::lists::Lists;
use crate::slot::Step;
use adpcm_nums::NoMemory;
use std::alloc::Global;

/// How every list that was ever kept came about, place after place.
#[derive(Drop)]
pub(crate) struct Trace {
    steps: Vec<Step>,
    // Where each place begins.
    begins: Vec<usize>,
}

impl Trace {
    /// No place yet.
    pub(crate) fn new(alloc: Global) -> Trace {
        Trace {
            steps: Vec::new(alloc),
            begins: Vec::new(alloc),
        }
    }

    /// Notes how the lists of one more place came about.
    pub(crate) fn add(&mut self, lists: &Lists) -> Result<(), NoMemory> {
        self.begins.push(self.steps.len()).map_err(|_| NoMemory)?;
        for list in &lists.by_index {
            for slot in list {
                self.steps.push(slot.step).map_err(|_| NoMemory)?;
            }
        }
        Ok(())
    }

    /// How a list of a place came about, by its number, where there is one.
    pub(crate) fn at(&self, place: usize, number: u32) -> Option<Step> {
        let begin = *self.begins.get(place)?;
        let at = begin.checked_add(number as usize)?;
        self.steps.get(at).copied()
    }
}
