ghost use Rattle.std.specs.Prelude.{◌≤◌, All, length};
ghost use Rattle.adpcm_nums.specs.Outcome.{Gives};
ghost use Rattle.manifest_reader.specs.Ranges.{IsWithin};
ghost use Rattle.snes_directory.specs.declared.fault.LayFault.TheVariants.{NoMemory as OutOfMemory};
ghost use Rattle.bank_kinds.specs.Kinds.{brr_codec};
ghost use Rattle.bank_compile.specs.Bank.{IsOut, part_of, image_of};

use crate::sample::SampleOut;
use adpcm_nums::Bytes;
use snes_directory::{AsPart, LayFault, write_image};
use std::alloc::Global;

impl AsPart for SampleOut {
    ghost part = { part_of };

    fn rate(&self) -> u32 {
        self.rate
    }

    fn blocks(&self) -> &[u8] {
        self.blocks.as_slice()
    }

    fn loop_block(&self) -> Option<u32> {
        self.fitted.loop_block
    }
}

/// The image of the samples, one behind the other.
pub(crate) fn image(alloc: Global, base: u32, outs: &[SampleOut]) -> Result<Bytes, LayFault>
    requires base { IsWithin 0 65280 256 base }
    requires some { 1 ≤ length outs.now }
    requires few { length outs.now ≤ 64 }
    requires outs { All (IsOut brr_codec) outs.now }
    ensures { Gives OutOfMemory (λ image. image) result (image_of base outs.now) }
{
    write_image(alloc, base, outs)
}
