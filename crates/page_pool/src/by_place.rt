//! Items by their places, over pages whose first `len` items count: item `i` lies in page `i / 1024`.
ghost use Rattle.std.specs.Prelude.{◌≡◌, ◌+◌, ◌*◌, ◌<◌, ◌≤◌, length, max, take, drop, slice_index_or};
ghost use Rattle.page_pool.specs.Pages.{gathered, AreFilled};
ghost use Rattle.page_pool.specs.Written.{written};

use crate::page::Page;

/// The item in a place.
pub(crate) fn item_at<T: Copy>(pages: &[Page<T>], len: usize, place: usize) -> T
    requires filled { AreFilled 1024 pages.now len }
    requires within { place < len }
    ensures { result ≡ slice_index_or (gathered 1024 pages.now len) place result }
{
    pages[place / 1024].get(place % 1024)
}

// Writes an item over the one in a place, or behind the last.
fn put_at<T: Copy>(pages: &mut [Page<T>], len: usize, place: usize, item: T)
    requires filled { AreFilled 1024 pages.old len }
    requires behind { place ≤ len }
    requires room { place < 1024 * length pages.old }
    ensures items { gathered 1024 pages.new (max len (place + 1)) ≡ written (gathered 1024 pages.old len) place item }
    ensures filled { AreFilled 1024 pages.new (max len (place + 1)) }
    ensures pages { length pages.new ≡ length pages.old }
{
    pages[place / 1024].put(place % 1024, item);
}

/// The same in a vector of pages.
pub(crate) fn put_in<T: Copy>(pages: &mut Vec<Page<T>>, len: usize, place: usize, item: T)
    requires filled { AreFilled 1024 pages.old.items len }
    requires behind { place ≤ len }
    requires room { place < 1024 * length pages.old.items }
    ensures items { gathered 1024 pages.new.items (max len (place + 1)) ≡ written (gathered 1024 pages.old.items len) place item }
    ensures filled { AreFilled 1024 pages.new.items (max len (place + 1)) }
    ensures pages { length pages.new.items ≡ length pages.old.items }
{
    put_at(pages.as_mut_slice(), len, place, item);
}

/// The items of a page.
pub(crate) fn page_at<T: Copy>(pages: &[Page<T>], len: usize, page: usize) -> &[T]
    requires filled { AreFilled 1024 pages.now len }
    requires within { 1024 * page < len }
    ensures { result.now ≡ take 1024 (drop (1024 * page) (gathered 1024 pages.now len)) }
{
    pages[page].front((len - 1024 * page).min(1024))
}
