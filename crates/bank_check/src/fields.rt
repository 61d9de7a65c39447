ghost use Rattle.std.specs.Prelude.{◌≡◌, ◌+◌, ◌<◌, ◌≤◌, ◌^◌, length};

use bank_kinds::Stored;
use brr_machine::Brr;
use ima_machine::Ima;
use spu_machine::Spu;

/// A decoder that reads its blocks where they stand.
pub(crate) trait Fields: Stored {
    /// The head of the block at an address.
    fn head_at(&self, memory: &[u8], address: usize) -> u32
        requires within { address + (Self.format self.now).size ≤ length memory.now }
        requires small { length memory.now < 2 ^ 31 }
        ensures { result ≡ (Self.format self.now).head_in memory.now address };

    /// Its symbol at a place.
    fn symbol_at(&self, memory: &[u8], address: usize, place: u32) -> u32
        requires within { address + (Self.format self.now).size ≤ length memory.now }
        requires small { length memory.now < 2 ^ 31 }
        requires place { place < (Self.rules self.now).decoder.samples }
        ensures { result ≡ (Self.format self.now).symbol_in memory.now address place };
}

impl Fields for Brr {
    fn head_at(&self, memory: &[u8], address: usize) -> u32 {
        brr_machine::head_at(memory, address)
    }

    fn symbol_at(&self, memory: &[u8], address: usize, place: u32) -> u32 {
        u32::from(brr_machine::code_at(memory, address, place as usize))
    }
}

impl Fields for Spu {
    fn head_at(&self, memory: &[u8], address: usize) -> u32 {
        spu_machine::head_at(memory, address)
    }

    fn symbol_at(&self, memory: &[u8], address: usize, place: u32) -> u32 {
        u32::from(spu_machine::code_at(memory, address, place as usize))
    }
}

impl Fields for Ima {
    #[tactic(auto, using(ima_machine::proofs::Aligns::align_low))]
    fn head_at(&self, memory: &[u8], address: usize) -> u32 {
        ima_machine::head_at(memory, address)
    }

    #[tactic(auto, using(ima_machine::proofs::Aligns::align_low))]
    fn symbol_at(&self, memory: &[u8], address: usize, place: u32) -> u32 {
        if place == 0 {
            ima_machine::first_at(memory, address)
        } else {
            u32::from(ima_machine::code_at(memory, address, place as usize - 1))
        }
    }
}
