//! Layers of cells that lie in an arena.
use box_layers::{Key, Layers, listed_value};
use bumpalo::Bump;
use machine_core::Cell;
use page_pool::Pool;
use std::test::*;

// Two layers of one block: the second begins at a later place.
#[test]
#[tactic(auto, unfolding(box_layers::specs::Keys::key_before))]
fn placed_layers_are_found(rt: HostRuntime) -> Result<(), Fail> {
    let arena = Bump::new(rt.alloc());
    let mut layers = Layers::new(rt.alloc());
    let mut cells = Pool::new(rt.alloc());
    let mut values = Pool::new(rt.alloc());
    let first = Key {
        block: 0,
        place: 0,
        lane: 65535,
    };
    let second = Key {
        block: 0,
        place: 3,
        lane: 2,
    };
    cells.push(Cell { a: -3, b: 4 })?;
    values.push(17)?;
    layers.place(&arena, first, &cells, &values)?;
    values.set(0, 5);
    layers.place(&arena, second, &cells, &values)?;
    assert_eq!(rt; layers.len(), 2);
    let wanted = Cell { a: -3, b: 4 };
    for (lane, value) in [(2, Some(5)), (3, None)] {
        let key = Key {
            block: 0,
            place: 3,
            lane,
        };
        let found = match layers.find(key) {
            Some(layer) => listed_value(&layer, wanted),
            None => None,
        };
        assert_eq!(rt; found, value, "value in lane {lane}");
    }
    Ok(())
}
