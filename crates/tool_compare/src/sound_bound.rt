ghost use Rattle.std.specs.Prelude.{◌≡◌, ◌≤◌, IsTrue};
ghost use Rattle.ima_machine.specs.Ima.{is_align};
ghost use Rattle.machine_core.specs.declared.state.Kind.{Kind};
ghost use Rattle.bank_kinds.specs.Bound.{IsBound};
ghost use Rattle.bank_kinds.specs.Kinds.{codec_for};
ghost use Rattle.bank_kinds.specs.Fits.{IsFit};
ghost use Rattle.tool_compare.specs.Floor.{floor_of};

use crate::floor::floor_under;
use brr_machine::Brr;
use ima_machine::Ima;
use loop_fit::Fitted;
use machine_core::Kind;
use spu_machine::Spu;
use strong_bound::strong_bound;

/// A bound near the error of a sound that was fitted to blocks of a kind, where blocks of IMA ADPCM have so many bytes, in
/// squared 16-bit steps.
///
/// No list of blocks that may be stored for the sound has a lower error, whatever `nodes` is: the most rows that one search
/// goes on with from each place of a block. In BRR and SPU-ADPCM the bound is the greater of the floor and of half of what
/// the windows of the blocks count; in IMA ADPCM it is the floor.
pub fn bound_of(kind: Kind, block: u32, fitted: &Fitted, nodes: u64) -> u64
    requires block { IsTrue (is_align block) }
    requires fit { IsFit (codec_for kind block) fitted.now }
    ensures bound { IsBound (codec_for kind block) fitted.now result }
    ensures floor { floor_of (codec_for kind block) fitted.now ≤ result }
    ensures bare { kind ≡ Kind.Ima → result ≡ floor_of (codec_for kind block) fitted.now }
{
    let targets = fitted.targets.as_slice();
    let blocks = fitted.blocks;
    let looped = fitted.loop_block;
    match kind {
        Kind::Brr => {
            let strong = strong_bound(&Brr, looped, targets, blocks, nodes);
            floor_under(&Brr, fitted).max(strong)
        }
        Kind::Spu => {
            let strong = strong_bound(&Spu, looped, targets, blocks, nodes);
            floor_under(&Spu, fitted).max(strong)
        }
        Kind::Ima => floor_under(&Ima { align: block }, fitted),
    }
}
