ghost use Rattle.std.specs.Prelude.{◌≡◌, ◌<◌, [], ◌∷◌, IsTrue};
ghost use Rattle.adpcm_nums.specs.Sample.{IsSample};
ghost use Rattle.machine_core.specs.Boxes.{low_corner};
ghost use Rattle.ima_machine.specs.Ima.{is_ima_state};
ghost use Rattle.ima_machine.specs.Image.{first_piece, greatest, later_piece};

use crate::step::{first_state, later_output, later_state};
use adpcm_nums::Span;
use machine_core::{Bx, Pieces, State, output_piece, point_box};

/// Where a head and a first symbol lead every state: one state and its cost.
pub(crate) fn first_image(head: u32, symbol: u32, target: i32) -> Pieces
    requires head { head < 89 }
    requires symbol { symbol < 65536 }
    requires target { IsSample target }
    ensures { result ≡ first_piece head symbol target ∷ [] }
{
    let after = point_box(first_state(head, symbol));
    Pieces::one(output_piece(1, after.a, after.b, target))
}

/// Where the states of a box of one index go under a code: what comes of its least and its greatest output, and all between.
pub(crate) fn later_image(code: u32, from: Bx, target: i32) -> Pieces
    requires low { IsTrue (is_ima_state (low_corner from)) }
    requires high { IsTrue (is_ima_state (greatest from)) }
    requires target { IsSample target }
    ensures { result ≡ later_piece code from target ∷ [] }
{
    let low = later_state(
        code,
        State {
            a: from.a.lo,
            b: from.b.lo,
        },
    );
    let high = later_output(
        code,
        State {
            a: from.a.hi,
            b: from.b.lo,
        },
    );
    Pieces::one(output_piece(
        1,
        Span {
            lo: low.a,
            hi: high,
        },
        point_box(low).b,
        target,
    ))
}
