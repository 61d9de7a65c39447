ghost use Rattle.std.specs.Prelude.{◌≡◌};
ghost use Rattle.snes_directory.specs.declared.part.ImagePart.{ImagePart as TheImagePart};

use crate::part::ImagePart;

/// What can be written into an image as one of its samples.
pub trait AsPart {
    /// The sample that is written.
    ghost part: { Self → TheImagePart };

    /// Its samples a second.
    fn rate(&self) -> u32
        ensures { result ≡ (part self.now).rate };

    /// Its blocks.
    fn blocks(&self) -> &[u8]
        ensures { result.now ≡ (part self.now).blocks };

    /// The block after its last one, where that one repeats.
    fn loop_block(&self) -> Option<u32>
        ensures { result ≡ (part self.now).loop_block };
}

impl AsPart for ImagePart {
    ghost part = { λ part. part };

    fn rate(&self) -> u32 {
        self.rate
    }

    fn blocks(&self) -> &[u8] {
        self.blocks.as_slice()
    }

    fn loop_block(&self) -> Option<u32> {
        self.loop_block
    }
}
