ghost use Rattle.std.specs.Prelude.{◌≡◌, ◌∷◌, [], ◌++◌, IfOk, OnOk, OnErr};

use crate::no_memory::NoMemory;
use std::alloc::Global;
use std::marker::Model;

/// Owned numbers of 32 bits, seen as their list.
#[derive(Debug, Drop)]
pub struct Words32 {
    items: Vec<u32>,
}

impl Model for Words32 {
    ghost use Rattle.std.specs.Prelude.{List, ℕ};

    ghost Value = { List ℕ };

    ghost view = { λ b. b.items.items };
}

impl Words32 {
    /// The same list, owned.
    pub fn copy_of(alloc: Global, from: &[u32]) -> Result<Words32, NoMemory>
        ensures { IfOk result (λ b. b ≡ from.now) }
    {
        match Vec::from_slice(alloc, from) {
            Ok(items) => Ok(Words32 { items }),
            Err(_) => Err(NoMemory),
        }
    }

    /// The list that a vector holds, which is not copied.
    pub fn from_vec(items: Vec<u32>) -> Words32
        ensures { result ≡ items.items }
    {
        Words32 { items }
    }

    /// The vector that holds the list.
    pub fn into_vec(self) -> Vec<u32>
        ensures { result.items ≡ self }
    {
        self.items
    }

    /// The list.
    pub fn as_slice(&self) -> &[u32]
        ensures { result.now ≡ self.now }
    {
        self.items.as_slice()
    }

    /// One more at the end. A refusal changes nothing.
    pub fn push(&mut self, item: u32) -> Result<(), NoMemory>
        ensures ok { OnOk result (self.new ≡ self.old ++ item ∷ []) }
        ensures err { OnErr result (self.new ≡ self.old) }
    {
        match self.items.push(item) {
            Ok(()) => Ok(()),
            Err(_) => Err(NoMemory),
        }
    }
}
