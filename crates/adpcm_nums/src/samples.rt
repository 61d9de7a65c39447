ghost use Rattle.std.specs.Prelude.{◌≡◌, ◌∷◌, [], ◌++◌, IfOk, OnOk, OnErr};
ghost use Rattle.adpcm_nums.specs.Sample.{IsSample, AreSamples};

use crate::no_memory::NoMemory;
use std::alloc::Global;
use std::marker::Model;

/// Owned samples, seen as their list. Each is a signed 16-bit step.
#[derive(Debug, Drop)]
pub struct Samples {
    items: Vec<i32>,
}

impl Model for Samples {
    ghost use Rattle.std.specs.Prelude.{List, ℤ};
    ghost use Rattle.adpcm_nums.specs.Sample.{AreSamples};

    ghost Value = { List ℤ };

    ghost view = { λ b. b.items.items };

    ghost invariant = { λ b. AreSamples b.items.items };
}

impl Samples {
    /// The same list, owned.
    pub fn copy_of(alloc: Global, from: &[i32]) -> Result<Samples, NoMemory>
        requires { AreSamples from.now }
        ensures { IfOk result (λ b. b ≡ from.now) }
    {
        match Vec::from_slice(alloc, from) {
            Ok(items) => Ok(Samples { items }),
            Err(_) => Err(NoMemory),
        }
    }

    /// The list that a vector holds, which is not copied.
    pub fn from_vec(items: Vec<i32>) -> Samples
        requires { AreSamples items.items }
        ensures { result ≡ items.items }
    {
        Samples { items }
    }

    /// The vector that holds the list.
    pub fn into_vec(self) -> Vec<i32>
        ensures list { result.items ≡ self }
        ensures range { AreSamples result.items }
    {
        self.items
    }

    /// The list.
    pub fn as_slice(&self) -> &[i32]
        ensures list { result.now ≡ self.now }
        ensures range { AreSamples result.now }
    {
        self.items.as_slice()
    }

    /// One more at the end. A refusal changes nothing.
    pub fn push(&mut self, item: i32) -> Result<(), NoMemory>
        requires { IsSample item }
        ensures ok { OnOk result (self.new ≡ self.old ++ item ∷ []) }
        ensures err { OnErr result (self.new ≡ self.old) }
    {
        match self.items.push(item) {
            Ok(()) => Ok(()),
            Err(_) => Err(NoMemory),
        }
    }
}
