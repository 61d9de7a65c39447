ghost use Rattle.std.specs.Prelude.{◌≡◌, ◌++◌, IfOk};
ghost use Rattle.command_faults.specs.FaultWords.{wave_parts, loop_parts, fit_parts, image_parts, vag_parts, split_parts, head_parts, bad_head_parts, ima_parts, track_parts, input_parts, range_row, shape_row, manifest_parts};
ghost use Rattle.command_faults.specs.CertWords.{part_word};

use crate::cert_words::part_word;
use crate::input_fault::{InputFault, ShapePart};
use crate::row::{with_number, with_numbers, with_row, with_text};
use adpcm_nums::NoMemory;
use block_flags::SplitFault;
use ima_machine::ImaFault;
use ima_wave::ImaWaveFault;
use loop_fit::FitFault;
use manifest_reader::ManifestFault;
use player_model::TrackFault;
use report_text::LinePart;
use smpl_loops::LoopFault;
use snes_directory::ImageFault;
use std::alloc::Global;
use vag_writer::VagFault;
use wave_form::WaveFault;

/// The words of a fault in a WAVE file.
fn with_wave(
    alloc: Global,
    parts: Vec<LinePart>,
    fault: &WaveFault,
) -> Result<Vec<LinePart>, NoMemory>
    ensures { IfOk result (λ all. all.items ≡ parts.items ++ wave_parts fault.now) }
{
    match fault {
        WaveFault::NotRiff => with_row(alloc, parts, "NotRiff", &[]),
        WaveFault::NotWave => with_row(alloc, parts, "NotWave", &[]),
        WaveFault::Streaming => with_row(alloc, parts, "Streaming", &[]),
        WaveFault::Truncated { at } => with_row(alloc, parts, "Truncated", &[*at]),
        WaveFault::DataTwice => with_row(alloc, parts, "DataTwice", &[]),
        WaveFault::NoFmt => with_row(alloc, parts, "NoFmt", &[]),
        WaveFault::BadFmt { len } => with_row(alloc, parts, "BadFmt", &[*len]),
        WaveFault::NotPcm { tag } => with_row(alloc, parts, "NotPcm", &[*tag]),
        WaveFault::BadChannels { channels } => with_row(alloc, parts, "BadChannels", &[*channels]),
        WaveFault::BadRate { rate } => with_row(alloc, parts, "BadRate", &[*rate]),
        WaveFault::BadBits { bits } => with_row(alloc, parts, "BadBits", &[*bits]),
        WaveFault::BadAlign { align } => with_row(alloc, parts, "BadAlign", &[*align]),
        WaveFault::NeedsChannel => with_row(alloc, parts, "NeedsChannel", &[]),
        WaveFault::NoChannel { channel } => with_row(alloc, parts, "NoChannel", &[*channel]),
        WaveFault::NoData => with_row(alloc, parts, "NoData", &[]),
        WaveFault::NoMemory => with_row(alloc, parts, "NoMemory", &[]),
    }
}

/// The words of a fault in a sampler.
fn with_loop(
    alloc: Global,
    parts: Vec<LinePart>,
    fault: &LoopFault,
) -> Result<Vec<LinePart>, NoMemory>
    ensures { IfOk result (λ all. all.items ≡ parts.items ++ loop_parts fault.now) }
{
    match fault {
        LoopFault::SmplShort { len } => with_row(alloc, parts, "SmplShort", &[*len]),
        LoopFault::LoopKind { kind } => with_row(alloc, parts, "LoopKind", &[*kind]),
        LoopFault::LoopBackwards { start, end } => {
            with_row(alloc, parts, "LoopBackwards", &[*start, *end])
        }
        LoopFault::LoopOutside { end, frames } => {
            with_row(alloc, parts, "LoopOutside", &[*end, *frames])
        }
    }
}

/// The words of a refusal to fit.
pub(crate) fn with_fit(
    alloc: Global,
    parts: Vec<LinePart>,
    fault: &FitFault,
) -> Result<Vec<LinePart>, NoMemory>
    ensures { IfOk result (λ all. all.items ≡ parts.items ++ fit_parts fault.now) }
{
    match fault {
        FitFault::EmptySample => with_row(alloc, parts, "EmptySample", &[]),
        FitFault::LoopLength { len, block } => {
            with_row(
                alloc,
                parts,
                "LoopLength",
                &[u64::from(*len), u64::from(*block)],
            )
        }
        FitFault::TooLong { blocks } => with_row(alloc, parts, "TooLong", &[*blocks]),
        FitFault::NoMemory => with_row(alloc, parts, "NoMemory", &[]),
    }
}

/// The words of a fault in a SNES image.
fn with_image(
    alloc: Global,
    parts: Vec<LinePart>,
    fault: &ImageFault,
) -> Result<Vec<LinePart>, NoMemory>
    ensures { IfOk result (λ all. all.items ≡ parts.items ++ image_parts fault.now) }
{
    match fault {
        ImageFault::NotImage => with_row(alloc, parts, "NotImage", &[]),
        ImageFault::BadVersion { version } => with_row(alloc, parts, "BadVersion", &[*version]),
        ImageFault::BadEntries { count } => with_row(alloc, parts, "BadEntries", &[*count]),
        ImageFault::BadBase { base } => with_row(alloc, parts, "BadBase", &[*base]),
        ImageFault::ImageFull { total } => with_row(alloc, parts, "ImageFull", &[*total]),
        ImageFault::ImageLength { have, need } => {
            with_row(alloc, parts, "ImageLength", &[*have, *need])
        }
        ImageFault::BadRate { entry, rate } => with_row(alloc, parts, "BadRate", &[*entry, *rate]),
        ImageFault::BadEntry { entry } => with_row(alloc, parts, "BadEntry", &[*entry]),
        ImageFault::BadLoopAddress { entry } => {
            with_row(alloc, parts, "BadLoopAddress", &[*entry])
        }
        ImageFault::NoMemory => with_row(alloc, parts, "NoMemory", &[]),
    }
}

/// The words of a fault in a VAG file.
fn with_vag(
    alloc: Global,
    parts: Vec<LinePart>,
    fault: &VagFault,
) -> Result<Vec<LinePart>, NoMemory>
    ensures { IfOk result (λ all. all.items ≡ parts.items ++ vag_parts fault.now) }
{
    match fault {
        VagFault::NameLong { len } => with_row(alloc, parts, "NameLong", &[*len]),
        VagFault::NotVag => with_row(alloc, parts, "NotVag", &[]),
        VagFault::VagShort { len } => with_row(alloc, parts, "VagShort", &[*len]),
        VagFault::BadRate { rate } => with_row(alloc, parts, "BadRate", &[*rate]),
        VagFault::NoMemory => with_row(alloc, parts, "NoMemory", &[]),
    }
}

/// The words of a fault in blocks that do not split.
fn with_split(
    alloc: Global,
    parts: Vec<LinePart>,
    fault: &SplitFault,
) -> Result<Vec<LinePart>, NoMemory>
    ensures { IfOk result (λ all. all.items ≡ parts.items ++ split_parts fault.now) }
{
    match fault {
        SplitFault::Ragged { len } => with_row(alloc, parts, "Ragged", &[*len]),
        SplitFault::NoEnd => with_row(alloc, parts, "NoEnd", &[]),
        SplitFault::NoLoopStart { at } => with_row(alloc, parts, "NoLoopStart", &[*at]),
    }
}

/// The words of a fault in the head of an IMA ADPCM block.
fn with_head(
    alloc: Global,
    parts: Vec<LinePart>,
    fault: &ImaFault,
) -> Result<Vec<LinePart>, NoMemory>
    ensures { IfOk result (λ all. all.items ≡ parts.items ++ head_parts fault.now) }
{
    match fault {
        ImaFault::BadIndex { index } => with_row(alloc, parts, "BadIndex", &[u64::from(*index)]),
        ImaFault::BadReserved { value } => {
            with_row(alloc, parts, "BadReserved", &[u64::from(*value)])
        }
    }
}

/// The same behind the number of the block.
fn with_bad_head(
    alloc: Global,
    parts: Vec<LinePart>,
    block: u64,
    fault: &ImaFault,
) -> Result<Vec<LinePart>, NoMemory>
    ensures { IfOk result (λ all. all.items ≡ parts.items ++ bad_head_parts block fault.now) }
{
    let parts = with_row(alloc, parts, "BadHead", &[block])?;
    with_head(alloc, parts, fault)
}

/// The words of a fault in a WAVE file of IMA ADPCM.
fn with_ima(
    alloc: Global,
    parts: Vec<LinePart>,
    fault: &ImaWaveFault,
) -> Result<Vec<LinePart>, NoMemory>
    ensures { IfOk result (λ all. all.items ≡ parts.items ++ ima_parts fault.now) }
{
    match fault {
        ImaWaveFault::Walk { fault } => with_wave(alloc, parts, fault),
        ImaWaveFault::NoFmt => with_row(alloc, parts, "NoFmt", &[]),
        ImaWaveFault::BadFmt { len } => with_row(alloc, parts, "BadFmt", &[*len]),
        ImaWaveFault::NotIma { tag } => with_row(alloc, parts, "NotIma", &[*tag]),
        ImaWaveFault::BadChannels { channels } => {
            with_row(alloc, parts, "BadChannels", &[*channels])
        }
        ImaWaveFault::BadRate { rate } => with_row(alloc, parts, "BadRate", &[*rate]),
        ImaWaveFault::BadBits { bits } => with_row(alloc, parts, "BadBits", &[*bits]),
        ImaWaveFault::BadAlign { align } => with_row(alloc, parts, "BadAlign", &[*align]),
        ImaWaveFault::NoData => with_row(alloc, parts, "NoData", &[]),
        ImaWaveFault::BadHead { block, fault } => with_bad_head(alloc, parts, *block, fault),
        ImaWaveFault::Loop { fault } => with_loop(alloc, parts, fault),
        ImaWaveFault::NoMemory => with_row(alloc, parts, "NoMemory", &[]),
    }
}

/// The words of a fault in the blocks of a track.
fn with_track(
    alloc: Global,
    parts: Vec<LinePart>,
    fault: &TrackFault,
) -> Result<Vec<LinePart>, NoMemory>
    ensures { IfOk result (λ all. all.items ≡ parts.items ++ track_parts fault.now) }
{
    match fault {
        TrackFault::NoEnd { at } => with_row(alloc, parts, "NoEnd", &[*at]),
        TrackFault::BadAgain { at } => with_row(alloc, parts, "BadAgain", &[*at]),
        TrackFault::Split { fault } => with_split(alloc, parts, fault),
        TrackFault::BadFilter { block, filter } => with_row(
            alloc,
            parts,
            "BadFilter",
            &[u64::from(*block), u64::from(*filter)],
        ),
        TrackFault::BadHead { block, fault } => {
            with_bad_head(alloc, parts, u64::from(*block), fault)
        }
    }
}

/// The words of what a stored bank differs in.
#[tactic(auto, unfolding(crate::specs::FaultWords::shape_row))]
fn with_shape(
    alloc: Global,
    parts: Vec<LinePart>,
    what: ShapePart,
    have: u64,
    need: u64,
) -> Result<Vec<LinePart>, NoMemory>
    ensures { IfOk result (λ all. all.items ≡ parts.items ++ shape_row (part_word what) have need) }
{
    let parts = with_text(alloc, parts, "Shape", part_word(what))?;
    with_numbers(parts, &[have, need])
}

/// The words of a fault in a fetched file.
pub(crate) fn with_input(
    alloc: Global,
    parts: Vec<LinePart>,
    fault: &InputFault,
) -> Result<Vec<LinePart>, NoMemory>
    ensures { IfOk result (λ all. all.items ≡ parts.items ++ input_parts fault.now) }
{
    match fault {
        InputFault::Wave { fault } => with_wave(alloc, parts, fault),
        InputFault::Loop { fault } => with_loop(alloc, parts, fault),
        InputFault::Image { fault } => with_image(alloc, parts, fault),
        InputFault::Vag { fault } => with_vag(alloc, parts, fault),
        InputFault::Ima { fault } => with_ima(alloc, parts, fault),
        InputFault::Track { fault } => with_track(alloc, parts, fault),
        InputFault::Shape { what, have, need } => with_shape(alloc, parts, *what, *have, *need),
        InputFault::FileLong { most } => with_row(alloc, parts, "FileLong", &[*most]),
        InputFault::BlockLength { len } => with_row(alloc, parts, "BlockLength", &[*len]),
        InputFault::NoEntry { entry, count } => {
            with_row(
                alloc,
                parts,
                "NoEntry",
                &[u64::from(*entry), u64::from(*count)],
            )
        }
        InputFault::TooMuch { blocks } => with_row(alloc, parts, "TooMuch", &[*blocks]),
    }
}

/// A number of the manifest that is out of range.
#[tactic(auto, unfolding(crate::specs::FaultWords::range_row))]
fn with_range(
    alloc: Global,
    parts: Vec<LinePart>,
    key: &str,
    value: i64,
) -> Result<Vec<LinePart>, NoMemory>
    ensures { IfOk result (λ all. all.items ≡ parts.items ++ range_row key.now value) }
{
    let parts = with_text(alloc, parts, "OutOfRange", key)?;
    with_number(parts, value)
}

/// The words of a fault in the manifest.
pub(crate) fn with_manifest(
    alloc: Global,
    parts: Vec<LinePart>,
    fault: &ManifestFault,
) -> Result<Vec<LinePart>, NoMemory>
    ensures { IfOk result (λ all. all.items ≡ parts.items ++ manifest_parts fault.now) }
{
    match fault {
        ManifestFault::TooLong { len } => with_row(alloc, parts, "TooLong", &[*len]),
        ManifestFault::NotToml => with_row(alloc, parts, "NotToml", &[]),
        ManifestFault::UnknownKey { key } => with_text(alloc, parts, "UnknownKey", key.as_str()),
        ManifestFault::MissingKey { key } => with_text(alloc, parts, "MissingKey", key.as_str()),
        ManifestFault::WrongKind { key } => with_text(alloc, parts, "WrongKind", key.as_str()),
        ManifestFault::OutOfRange { key, value } => {
            with_range(alloc, parts, key.as_str(), *value)
        }
        ManifestFault::BadWord { key } => with_text(alloc, parts, "BadWord", key.as_str()),
        ManifestFault::NoSamples => with_row(alloc, parts, "NoSamples", &[]),
        ManifestFault::TooMany { count } => with_row(alloc, parts, "TooMany", &[*count]),
        ManifestFault::SameName { name } => with_text(alloc, parts, "SameName", name.as_str()),
        ManifestFault::Clash { name } => with_text(alloc, parts, "Clash", name.as_str()),
        ManifestFault::NoMemory => with_row(alloc, parts, "NoMemory", &[]),
    }
}
