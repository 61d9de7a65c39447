ghost use Rattle.std.specs.Prelude.{◌≡◌, ◌<◌, ◌≤◌, [], length, take, IfOk, slice_index_or};
ghost use Rattle.page_pool.specs.Written.{written};

use crate::memory::{Claim, Memory, allocate, free};
use adpcm_nums::NoMemory;
use std::alloc::Global;
use std::marker::Model;
use std_alloc::room::may_hold;

/// Memory for 1,024 items, seen as the list of those that are written.
pub(crate) struct Page<T: Copy> {
    memory: Memory<T>,
    claim: Claim<T, Global>,
    alloc: Global,
}

impl<T: Copy> Model for Page<T> {
    ghost use Rattle.std.specs.Prelude.{◌≡◌, ◌+◌, List, length};

    ghost Value = { List T };

    ghost view = { λ p. p.memory.items };

    ghost invariant = { λ p. (p.claim.start ≡ p.memory.start) × (p.claim.places ≡ 1024) × (p.claim.alloc ≡ p.alloc) × (length p.memory.items + p.memory.left ≡ 1024) };
}

impl<T: Copy> Drop for Page<T> {
    fn drop(self) {
        let Page {
            memory,
            claim,
            alloc,
        } = self;
        free(&alloc, 1024, memory, claim);
    }
}

impl<T: Copy> Page<T> {
    /// A page with nothing written. Items that are so large that no block holds a page are refused too.
    pub(crate) fn new(alloc: Global) -> Result<Page<T>, NoMemory>
        ensures { IfOk result (λ page. page ≡ []) }
    {
        if !may_hold::<T>(1024) {
            return Err(NoMemory);
        }
        match allocate(&alloc, 1024) {
            Ok((memory, claim)) => Ok(Page {
                memory,
                claim,
                alloc,
            }),
            Err(_) => Err(NoMemory),
        }
    }

    /// Writes an item over one that is written, or behind the last.
    pub(crate) fn put(&mut self, place: usize, item: T)
        requires behind { place ≤ length self.old }
        requires within { place < 1024 }
        ensures { self.new ≡ written self.old place item }
    {
        self.memory.write(place, item);
    }

    pub(crate) fn get(&self, place: usize) -> T
        requires { place < length self.now }
        ensures { result ≡ slice_index_or self.now place result }
    {
        self.memory.front(place + 1)[place]
    }

    /// The first `count` items.
    pub(crate) fn front(&self, count: usize) -> &[T]
        requires { count ≤ length self.now }
        ensures { result.now ≡ take count self.now }
    {
        self.memory.front(count)
    }
}
