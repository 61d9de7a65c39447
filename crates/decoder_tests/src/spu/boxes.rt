ghost use Rattle.std.specs.Prelude.{IsTrue};
ghost use Rattle.spu_machine.specs.Boxes.{is_output_span, is_spu_box};

use adpcm_nums::{Span, clamp16};
use machine_core::{Bx, Machine};
use spu_machine::Spu;

/// The outputs from `lo` on, `more` of them after it, as far as there are outputs.
fn outputs(lo: i64, more: u16) -> Span
    ensures { IsTrue (is_output_span result) }
{
    let lo = clamp16(lo);
    let hi = (lo + i32::from(more)).min(32767);
    Span { lo, hi }
}

/// Head and code, the first last output and how many come after it, the same of the output before it, and a target.
type Row = (u8, u8, i16, u16, i16, u16, i16);

/// The first and the last output of the piece, and its cost, as tests/outside/box_pieces.py finds them by trying every state
/// of the box.
const BOXES: [(Row, (i32, i32, u64)); 3] = [
    ((66, 9, -120, 80, 1000, 31, 77), (-8363, -8182, 68211081)),
    ((64, 7, 32700, 67, -200, 10, 32000), (32767, 32767, 588289)),
    ((31, 8, -5, 10, 0, 0, -4000), (-69, -59, 15452761)),
];

/// The box of a row.
fn box_of(row: Row) -> Bx
    ensures { IsTrue (is_spu_box result) }
{
    Bx {
        a: outputs(i64::from(row.2), row.3),
        b: outputs(i64::from(row.4), row.5),
    }
}

#[test]
fn pieces_as_a_program_that_tries_every_state(rt: HostRuntime) {
    for (row, want) in BOXES {
        let from = box_of(row);
        let pieces = Spu.box_step(
            u32::from(row.0) % 80,
            0,
            u32::from(row.1) % 16,
            from,
            i32::from(row.6),
        );
        let found = pieces.list.as_slice();
        assert_eq!(rt; found.len(), 1, "at {row:?}");
        for piece in found {
            assert_eq!(rt;
                (piece.bx.a.lo, piece.bx.a.hi, piece.cost),
                want,
                "at {row:?}"
            );
            assert_eq!(rt; piece.bx.b, from.a);
        }
    }
}
