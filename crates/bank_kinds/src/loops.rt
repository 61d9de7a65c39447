ghost use Rattle.std.specs.Prelude.{◌≡◌};
ghost use Rattle.bank_kinds.specs.Fits.{loop_shown};

use adpcm_nums::LoopAt;
use report_text::LoopShown;

/// Where the loop of a fitted sound is, as it is told.
pub fn shown(loop_block: Option<u32>, loop_frames: Option<LoopAt>) -> LoopShown
    ensures { result ≡ loop_shown loop_block loop_frames }
{
    match (loop_block, loop_frames) {
        (Some(block), _) => LoopShown::Block { block },
        (None, Some(at)) => LoopShown::Frames { at },
        (None, None) => LoopShown::NoLoop,
    }
}
