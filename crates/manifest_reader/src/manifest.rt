ghost use Rattle.std.specs.Prelude.{◌≡◌};

use crate::effort::Effort;
use adpcm_nums::Text;
use loop_fit::{Length, Start};
use machine_core::Kind;

/// A sample of the bank.
#[derive(Debug, Drop)]
pub struct SampleEntry {
    /// Its name: 1 to 16 of `A-Z a-z 0-9 _ -`.
    pub name: Text,
    /// The WAVE file that it comes from: 1 to 255 bytes, none of which is 0.
    pub file: Text,
    /// Which channel of the file is taken, from 0; none is said where the file has one.
    pub channel: Option<u32>,
    /// Whether the file's loop is taken.
    pub looped: bool,
}

/// What a manifest says.
#[derive(Debug, Drop)]
pub struct Manifest {
    /// The format of the bank.
    pub kind: Kind,
    /// The bank's name: 1 to 64 of `A-Z a-z 0-9 _ - .`, first a letter or digit.
    pub bank: Text,
    /// Where a SNES image begins in sound memory, in bytes: a multiple of 256 up to 65280.
    pub base: u32,
    /// Bytes of a block of IMA ADPCM: a multiple of 4 from 8 to 1024.
    pub block: u32,
    /// How many lists of blocks the encoder keeps: 1 to 64.
    pub beam: u32,
    /// How many lists of codes go on together inside each block: 1 to 64.
    pub paths: u32,
    /// How many cells the search may keep for a sample: up to 1,000,000.
    pub budget: u32,
    /// How a loop's length is fitted to blocks.
    pub length: Length,
    /// How a loop's start is fitted to blocks.
    pub start: Start,
    /// The samples in order: 1 to 64.
    pub samples: Vec<SampleEntry>,
}

impl Manifest {
    /// How much is done for each sample.
    pub fn effort(&self) -> Effort
        ensures { result ≡ record { beam = self.now.beam; paths = self.now.paths; budget = self.now.budget } }
    {
        Effort {
            beam: self.beam,
            paths: self.paths,
            budget: self.budget,
        }
    }
}
