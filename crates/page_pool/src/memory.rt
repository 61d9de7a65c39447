//! Memory for items: those that are written stand at its front, and behind them is room.
//!
//! Only the functions of this file follow a pointer.
ghost use Rattle.std.specs.Prelude.{◌≡◌, ℕ, ◌+◌, ◌<◌, ◌≤◌, List, [], length, take, IfOk};
ghost use Rattle.std.specs.Vec.Ownership.{FitsInBlock};
ghost use base.Fml.{ftrue};
ghost use denote.RawPtr.{Ptr};
ghost use Rattle.page_pool.specs.Written.{written};
ghost use Rattle.page_pool.specs.Ownership.{memory_owns, memory_lends, claim_owns};

use std::alloc::{AllocError, Allocator};
use std::marker::{Model, PhantomData};
use std::mem::{align_of, size_of};
use std::slice;

/// The owner of memory from `start` on: its items at the front, then places that were never written.
pub(crate) struct Memory<T> {
    start: *mut T,
    ghost items: { List T },
    ghost left: { ℕ },
}

impl<T> Model for Memory<T> {
    ghost also_owns = { λ m. memory_owns T.row m.start m.items m.left };

    ghost also_shares = { λ m _ κ. memory_lends T.row m.start m.items m.left κ };
}

/// The right to give the memory of `places` places at `start` back to the allocator that it came from.
pub(crate) struct Claim<T, A: Allocator> {
    by: PhantomData<*const (T, A)>,
    ghost start: { Ptr },
    ghost places: { ℕ },
    ghost alloc: { A },
}

impl<T, A: Allocator> Model for Claim<T, A> {
    ghost also_owns = { λ c. claim_owns T.row (A.dealloc_token c.alloc) c.start c.places };

    ghost also_shares = { λ _ _ _. ftrue };
}

/// Memory for so many items, of which none is written.
pub(crate) fn allocate<T, A: Allocator>(
    alloc: &A,
    places: usize,
) -> Result<(Memory<T>, Claim<T, A>), AllocError>
    requires { FitsInBlock T.row places }
    ensures { IfOk result (λ r. (r.0.items ≡ []) × (r.0.left ≡ places) × (r.1.start ≡ r.0.start) × (r.1.places ≡ places) × (r.1.alloc ≡ alloc.now)) }
{
    match alloc.allocate(places * size_of::<T>(), align_of::<T>()) {
        Ok(block) => Ok((
            Memory {
                start: block as *mut T,
            },
            Claim { by: PhantomData },
        )),
        Err(refused) => Err(refused),
    }
}

/// Gives the memory back. Items that are written are forgotten.
pub(crate) fn free<T, A: Allocator>(alloc: &A, places: usize, memory: Memory<T>, claim: Claim<T, A>)
    requires { (length memory.items + memory.left ≡ places) × (claim.start ≡ memory.start) × (claim.places ≡ places) × (claim.alloc ≡ alloc.now) }
{
    let Memory { start } = memory;
    let Claim { by: _ } = claim;
    unsafe {
        alloc.deallocate(start as *mut u8, places * size_of::<T>(), align_of::<T>());
    }
}

impl<T> Memory<T> {
    /// Writes an item over one that is there, which is forgotten, or behind the last one.
    pub(crate) fn write(&mut self, place: usize, item: T)
        requires { (place ≤ length self.old.items) × (place < length self.old.items + self.old.left) }
        ensures { (self.new.start ≡ self.old.start) × (self.new.items ≡ written self.old.items place item) × (length self.new.items + self.new.left ≡ length self.old.items + self.old.left) }
    {
        unsafe { self.start.add(place).write(item) }
    }

    /// The first `count` items.
    pub(crate) fn front(&self, count: usize) -> &[T]
        requires { count ≤ length self.now.items }
        ensures { result.now ≡ take count self.now.items }
    {
        unsafe { slice::from_raw_parts(self.start, count) }
    }
}
