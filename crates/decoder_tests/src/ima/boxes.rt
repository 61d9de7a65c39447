use adpcm_nums::Span;
use ima_machine::Ima;
use machine_core::{Bx, Machine};
use std::test::*;

#[test]
fn pieces_by_hand(rt: HostRuntime) -> Result<(), Fail> {
    let ima = Ima::new(8).ok_or("eight bytes")?;
    let from = Bx {
        a: Span { lo: 0, hi: 10 },
        b: Span { lo: 0, hi: 0 },
    };
    // Code 7 adds 11 at index 0, and the next index is 8.
    let pieces = ima.box_step(3, 1, 7, from, 25);
    let piece = pieces.list.first().ok_or("a piece")?;
    assert_eq!(rt; piece.bx.a, Span { lo: 11, hi: 21 });
    assert_eq!(rt; piece.bx.b, Span { lo: 8, hi: 8 });
    assert_eq!(rt; piece.cost, 16);
    // A first output costs the square of its distance.
    let start = Bx {
        a: Span { lo: 0, hi: 0 },
        b: Span { lo: 0, hi: 0 },
    };
    let first = ima.box_step(3, 0, 32768, start, 25);
    assert_eq!(rt; first.list.first().ok_or("a piece")?.cost, 625);
    assert_eq!(rt;
        ima.symbol_span(0, 25, 630),
        Span {
            lo: 32768,
            hi: 32818
        }
    );
    assert_eq!(rt; ima.symbol_span(1, 25, 630), Span { lo: 0, hi: 15 });
    Ok(())
}
