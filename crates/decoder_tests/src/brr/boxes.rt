ghost use Rattle.std.specs.Prelude.{IsTrue};
ghost use Rattle.brr_machine.specs.Boxes.{is_output_span, is_brr_box};

use adpcm_nums::{Span, wrap15};
use brr_machine::Brr;
use machine_core::{Bx, Machine};

/// The outputs from `lo` on, `more` of them after it, as far as there are outputs.
fn outputs(lo: i32, more: u16) -> Span
    ensures { IsTrue (is_output_span result) }
{
    let lo = wrap15(lo);
    let hi = (lo + i32::from(more)).min(16383);
    Span { lo, hi }
}

/// Head and code, the first last output and how many come after it, the same of the output before it, and a target.
type Row = (u8, u8, i16, u16, i16, u16, i16);

/// The first and the last output of each piece, and its cost, as tests/outside/box_pieces.py finds them by trying every
/// state of the box.
const BOXES: [(Row, &[(i32, i32, u64)]); 5] = [
    ((50, 0, 14336, 0, 0, 0, 300), &[(-5440, -5440, 124992400)]),
    ((50, 7, 14336, 0, 0, 0, 300), &[(-1, -1, 91204)]),
    (
        (50, 0, 8570, 50, -3, 15, 32000),
        &[(16324, 16383, 419904), (-16384, -16335, 4182208900)],
    ),
    (
        (2, 15, -9000, 18000, 0, 1, -20001),
        &[
            (15609, 16383, 2623385961),
            (-16384, 16383, 1),
            (-16384, -15613, 126000625),
        ],
    ),
    ((63, 8, -12100, 100, 5, 35, -7), &[(8944, 9152, 320231025)]),
];

/// The box of a row.
fn box_of(row: Row) -> Bx
    ensures { IsTrue (is_brr_box result) }
{
    Bx {
        a: outputs(i32::from(row.2), row.3),
        b: outputs(i32::from(row.4), row.5),
    }
}

#[test]
fn pieces_as_a_program_that_tries_every_state(rt: HostRuntime) {
    for (row, want) in BOXES {
        let from = box_of(row);
        let pieces = Brr.box_step(
            u32::from(row.0) % 64,
            0,
            u32::from(row.1) % 16,
            from,
            i32::from(row.6),
        );
        let found = pieces.list.as_slice();
        assert_eq!(rt; found.len(), want.len(), "at {row:?}");
        for (piece, (lo, hi, cost)) in found.iter().zip(want) {
            assert_eq!(rt;
                (piece.bx.a.lo, piece.bx.a.hi, piece.cost),
                (*lo, *hi, *cost),
                "at {row:?}"
            );
            assert_eq!(rt; piece.bx.b, from.a);
        }
    }
}
