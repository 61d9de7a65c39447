ghost use Rattle.std.specs.Prelude.{◌≡◌, ◌++◌, IfOk};
ghost use Rattle.command_faults.specs.CertWords.{part_word, cert_parts, refusal_parts};

use crate::input_fault::ShapePart;
use crate::refusal::CertRefusal;
use crate::row::with_row;
use adpcm_nums::NoMemory;
use bound_cert::CertFault;
use cert_check::CellFault;
use report_text::LinePart;
use std::alloc::Global;

/// The name of what differs.
pub(crate) fn part_word(what: ShapePart) -> &'static str
    ensures { result.now ≡ part_word what }
{
    match what {
        ShapePart::Entries => "Entries",
        ShapePart::Align => "Align",
        ShapePart::Blocks => "Blocks",
        ShapePart::LoopBlock => "LoopBlock",
        ShapePart::Head => "Head",
        ShapePart::Frames => "Frames",
        ShapePart::LoopStart => "LoopStart",
        ShapePart::LoopEnd => "LoopEnd",
    }
}

/// The words of a fault in a certificate's bytes.
fn with_cert(
    alloc: Global,
    parts: Vec<LinePart>,
    fault: &CertFault,
) -> Result<Vec<LinePart>, NoMemory>
    ensures { IfOk result (λ all. all.items ≡ parts.items ++ cert_parts fault.now) }
{
    match fault {
        CertFault::BadMagic => with_row(alloc, parts, "BadMagic", &[]),
        CertFault::BadVersion { version } => with_row(alloc, parts, "BadVersion", &[*version]),
        CertFault::ShapeDiffers { have, need } => {
            with_row(alloc, parts, "ShapeDiffers", &[*have, *need])
        }
        CertFault::BadLevel { level } => with_row(alloc, parts, "BadLevel", &[*level]),
        CertFault::BadZero { at } => with_row(alloc, parts, "BadZero", &[*at]),
        CertFault::LayerRange { at } => with_row(alloc, parts, "LayerRange", &[*at]),
        CertFault::LayerOrder { at } => with_row(alloc, parts, "LayerOrder", &[*at]),
        CertFault::CellRange { at } => with_row(alloc, parts, "CellRange", &[*at]),
        CertFault::CellOrder { at } => with_row(alloc, parts, "CellOrder", &[*at]),
        CertFault::Short { at } => with_row(alloc, parts, "Short", &[*at]),
        CertFault::Trailing { at } => with_row(alloc, parts, "Trailing", &[*at]),
    }
}

/// The words of a refused certificate; the number of the segment stands before those of the cell.
pub(crate) fn with_refusal(
    alloc: Global,
    parts: Vec<LinePart>,
    fault: &CertRefusal,
) -> Result<Vec<LinePart>, NoMemory>
    ensures { IfOk result (λ all. all.items ≡ parts.items ++ refusal_parts fault.now) }
{
    match fault {
        CertRefusal::Grammar { fault } => with_cert(alloc, parts, fault),
        CertRefusal::Cell {
            segment,
            fault: CellFault {
                layer,
                cell,
                value,
                found,
            },
        } => {
            with_row(
                alloc,
                parts,
                "CellFault",
                &[
                    u64::from(*segment),
                    u64::from(*layer),
                    u64::from(*cell),
                    *value,
                    *found,
                ],
            )
        }
        CertRefusal::Bound {
            segment,
            have,
            found,
        } => with_row(alloc, parts, "Bound", &[u64::from(*segment), *have, *found]),
    }
}
