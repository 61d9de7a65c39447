use ima_wave::ImaWaveFault;
use player_model::TrackFault;
use smpl_loops::LoopFault;
use snes_directory::ImageFault;
use thiserror::Error;
use vag_writer::VagFault;
use wave_form::WaveFault;

/// In what a stored bank may differ from the one that is asked for, in the order in which it is tested.
#[derive(Clone, Copy, Debug, PartialEq, Eq, Error)]
pub enum ShapePart {
    /// The number of entries of an image.
    #[error("Entries")]
    Entries,
    /// The bytes in a block of IMA ADPCM.
    #[error("Align")]
    Align,
    /// The number of blocks.
    #[error("Blocks")]
    Blocks,
    /// The first block of the loop.
    #[error("LoopBlock")]
    LoopBlock,
    /// A block that must forget what was played before it and has a head that does not.
    #[error("Head")]
    Head,
    /// The number of frames.
    #[error("Frames")]
    Frames,
    /// The first frame of the loop.
    #[error("LoopStart")]
    LoopStart,
    /// The last frame of the loop.
    #[error("LoopEnd")]
    LoopEnd,
}

/// What is wrong with a fetched file.
#[derive(Clone, Copy, Debug, PartialEq, Eq, Error)]
pub enum InputFault {
    /// It is no WAVE file that can be read.
    #[error("{fault}")]
    Wave {
        /// The first fault of the WAVE file.
        fault: WaveFault,
    },
    /// Its loop cannot be taken.
    #[error("{fault}")]
    Loop {
        /// The first fault of the sampler.
        fault: LoopFault,
    },
    /// It is no SNES image that can be read.
    #[error("{fault}")]
    Image {
        /// The first fault of the image.
        fault: ImageFault,
    },
    /// It is no VAG file that can be read.
    #[error("{fault}")]
    Vag {
        /// The first fault of the VAG file.
        fault: VagFault,
    },
    /// It is no WAVE file of IMA ADPCM that can be read.
    #[error("{fault}")]
    Ima {
        /// The first fault of the WAVE file of IMA ADPCM.
        fault: ImaWaveFault,
    },
    /// Its blocks are no track.
    #[error("{fault}")]
    Track {
        /// The first fault of the track.
        fault: TrackFault,
    },
    /// The stored bank is not the one that the manifest and its sources ask for.
    #[error("Shape {what} {have} {need}")]
    Shape {
        /// What differs.
        what: ShapePart,
        /// What is stored; for `Head` the block that must forget what was played before it and does not.
        have: u64,
        /// What is asked for; 0 for `Head`. A loop that is not there counts as 4294967295.
        need: u64,
    },
    /// It has more bytes than are read of such a file.
    #[error("more than {most} bytes")]
    FileLong {
        /// How many bytes it may have.
        most: u64,
    },
    /// A raw block has not 32 bytes.
    #[error("a raw block has 32 bytes, and this file has {len}")]
    BlockLength {
        /// How many bytes the file has; 33 stands for more.
        len: u64,
    },
    /// The entry that was asked for is not there.
    #[error("no entry {entry} among {count}")]
    NoEntry {
        /// The entry, from 0.
        entry: u32,
        /// How many entries there are.
        count: u32,
    },
    /// An entry has more blocks than are played.
    #[error("an entry of {blocks} blocks")]
    TooMuch {
        /// How many blocks it has.
        blocks: u64,
    },
}
