ghost use Rattle.std.specs.Prelude.{◌≡◌, ◌+◌, ◌*◌, ◌/◌, ◌^◌, ◌<◌, ◌≤◌, [], ◌∷◌, ◌++◌, length, min, take, drop, OnOk, OnErr, IsOk, slice_index_or, slice_set};

use crate::by_place::{item_at, page_at, put_in};
use crate::growth::grow_to;
use crate::page::Page;
use adpcm_nums::NoMemory;
use std::alloc::Global;
use std::marker::Model;

/// A list of plain items in pages of 1,024, seen as its items and its spare: how many more there is room for.
///
/// A page never moves, and only dropping the pool gives its memory back.
#[derive(Drop)]
pub struct Pool<T: Copy> {
    alloc: Global,
    pages: Vec<Page<T>>,
    len: usize,
}

impl<T: Copy> Model for Pool<T> {
    ghost use Rattle.std.specs.Prelude.{◌-◌, ◌*◌, ◌≤◌, length};
    ghost use Rattle.page_pool.specs.Pages.{Pooled, pooled_code, gathered, AreFilled};

    ghost Value = { Pooled T };

    ghost coded = { pooled_code T.code };

    ghost view = { λ p. record { items = gathered 1024 p.pages.items p.len; spare = 1024 * length p.pages.items - p.len } };

    ghost invariant = { λ p. AreFilled 1024 p.pages.items p.len × (length p.pages.items ≤ 4194304) };
}

impl<T: Copy> Pool<T> {
    /// An empty pool without room. It takes no memory yet.
    pub fn new(alloc: Global) -> Pool<T>
        ensures items { result.items ≡ [] }
        ensures spare { result.spare ≡ 0 }
    {
        Pool {
            alloc,
            pages: Vec::new(alloc),
            len: 0,
        }
    }

    /// The number of items.
    pub fn len(&self) -> usize
        ensures { result ≡ length self.now.items }
    {
        self.len
    }

    /// Makes room for so many more items. A refusal changes nothing.
    ///
    /// # Errors
    /// Want of memory alone.
    pub fn reserve(&mut self, more: usize) -> Result<(), NoMemory>
        requires { length self.old.items + more < 2 ^ 32 }
        ensures items { self.new.items ≡ self.old.items }
        ensures ok { OnOk result (more ≤ self.new.spare) }
        ensures err { OnErr result (self.new ≡ self.old) }
    {
        grow_to(
            self.alloc,
            &mut self.pages,
            (self.len + more).div_ceil(1024),
        )
    }

    /// One more item. A refusal changes nothing, and does not come while there is room.
    ///
    /// # Errors
    /// Want of memory alone.
    pub fn push(&mut self, item: T) -> Result<(), NoMemory>
        requires { length self.old.items + 1 < 2 ^ 32 }
        ensures ok { OnOk result (self.new.items ≡ self.old.items ++ item ∷ []) }
        ensures room { 0 < self.old.spare → (IsOk result × (self.new.spare + 1 ≡ self.old.spare)) }
        ensures err { OnErr result (self.new ≡ self.old) }
    {
        let len = self.len;
        grow_to(self.alloc, &mut self.pages, len / 1024 + 1)?;
        put_in(&mut self.pages, len, len, item);
        self.len = len + 1;
        Ok(())
    }

    /// The item in a place, from 0.
    pub fn get(&self, place: usize) -> T
        requires { place < length self.now.items }
        ensures { result ≡ slice_index_or self.now.items place result }
    {
        item_at(self.pages.as_slice(), self.len, place)
    }

    /// Writes over the item in a place.
    pub fn set(&mut self, place: usize, item: T)
        requires { place < length self.old.items }
        ensures items { self.new.items ≡ slice_set self.old.items place item }
        ensures spare { self.new.spare ≡ self.old.spare }
    {
        put_in(&mut self.pages, self.len, place, item);
    }

    /// Keeps the first `count` items, and all the room.
    pub fn truncate(&mut self, count: usize)
        ensures items { self.new.items ≡ take count self.old.items }
        ensures len { length self.new.items ≡ min count (length self.old.items) }
        ensures spare { self.old.spare ≤ self.new.spare }
        ensures places { self.new.spare + length self.new.items ≡ self.old.spare + length self.old.items }
    {
        self.len = self.len.min(count);
    }

    /// The number of pages that the items reach.
    pub fn pages(&self) -> usize
        ensures { result ≡ (length self.now.items + 1023) / 1024 }
    {
        self.len.div_ceil(1024)
    }

    /// The items of a page, from place `1024 * page` on: 1,024, or those that are left.
    pub fn page(&self, page: usize) -> &[T]
        requires { 1024 * page < length self.now.items }
        ensures { result.now ≡ take 1024 (drop (1024 * page) self.now.items) }
    {
        page_at(self.pages.as_slice(), self.len, page)
    }
}
