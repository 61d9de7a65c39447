ghost use Rattle.std.specs.Prelude.{◌≡◌, ◌<◌, IsTrue};
ghost use Rattle.adpcm_nums.specs.Sample.{IsSample};
ghost use Rattle.spu_machine.specs.Boxes.{is_spu_box};
ghost use Rattle.spu_machine.specs.Image.{spu_image};

use crate::step::spu_output;
use adpcm_nums::Span;
use machine_core::{Bx, Pieces, State, output_piece};

/// Where the states of a box go under a head and a code: what comes of two corners, and all between.
#[tactic(auto, unfolding(crate::specs::Image::spu_image))]
pub(crate) fn image(head: u32, code: u32, from: Bx, target: i32) -> Pieces
    requires head { head < 80 }
    requires code { code < 16 }
    requires from { IsTrue (is_spu_box from) }
    requires target { IsSample target }
    ensures { result ≡ spu_image head code from target }
{
    let lo = spu_output(
        head,
        code,
        State {
            a: from.a.lo,
            b: from.b.hi,
        },
    );
    let hi = spu_output(
        head,
        code,
        State {
            a: from.a.hi,
            b: from.b.lo,
        },
    );
    Pieces::one(output_piece(1, Span { lo, hi }, from.a, target))
}
