ghost use Rattle.std.specs.Prelude.{◌≡◌, ◌-◌, ◌≤◌, [], ◌∷◌, ◌++◌, length, replicate, IsOk, OnOk, OnErr};

use crate::page::Page;
use adpcm_nums::NoMemory;
use std::alloc::Global;

/// Adds empty pages until there are `want`. A refusal changes nothing.
pub(crate) fn grow_to<T: Copy>(
    alloc: Global,
    pages: &mut Vec<Page<T>>,
    want: usize,
) -> Result<(), NoMemory>
    ensures ok { OnOk result (pages.new.items ≡ pages.old.items ++ replicate (want - length pages.old.items) []) }
    ensures err { OnErr result (pages.new.items ≡ pages.old.items) }
    ensures enough { want ≤ length pages.old.items → IsOk result }
{
    let before = pages.len();
    while pages.len() < want {
        match add_page(alloc, pages) {
            Ok(()) => {}
            Err(refused) => {
                pages.truncate(before);
                return Err(refused);
            }
        }
    }
    Ok(())
}

// One more empty page. A refusal changes nothing.
fn add_page<T: Copy>(alloc: Global, pages: &mut Vec<Page<T>>) -> Result<(), NoMemory>
    ensures ok { OnOk result (pages.new.items ≡ pages.old.items ++ [] ∷ []) }
    ensures err { OnErr result (pages.new.items ≡ pages.old.items) }
{
    let page = Page::new(alloc)?;
    match pages.push(page) {
        Ok(()) => Ok(()),
        Err(_) => Err(NoMemory),
    }
}
