ghost use Rattle.std.specs.Prelude.{IsTrue, ◌≤ℤ◌, pos, negsuc};
ghost use Rattle.spu_machine.specs.Spu.{is_spu_state};

mod boxes;
mod floors;
mod nearest;
mod table;

use adpcm_nums::clamp16;
use machine_core::State;
use spu_machine::{BadFilter, decode_block, read_block, spell_block, spu_output};
use std::test::*;

/// A state of two outputs.
fn state(last: i64, older: i64) -> State
    ensures { IsTrue (is_spu_state result) }
{
    State {
        a: clamp16(last),
        b: clamp16(older),
    }
}

#[test]
fn decodes_as_another_decoder(rt: HostRuntime) -> Result<(), Fail> {
    for (bytes, last, older, outputs) in table::ROWS.iter() {
        let block = read_block(bytes).ok().ok_or("a block")?;
        let (found, _) = decode_block(&block, state(i64::from(*last), i64::from(*older)));
        assert_eq!(rt; found, *outputs, "at {bytes:?}");
        assert_eq!(rt; spell_block(&block), *bytes);
    }
    Ok(())
}

/// Shift 13 acts as 9; a negative share is floored; the sum is rounded; an output is clamped.
#[test]
fn single_outputs(rt: HostRuntime) {
    for (head, code, last, older, want) in [
        (13, 1, 0, 0, 8),
        (9, 1, 0, 0, 8),
        (16, 0, -1, 0, -1),
        (16, 0, 1, 0, 1),
        (76, 15, 32767, -32768, 32767),
    ] {
        let found = spu_output(head, code, state(last, older));
        assert_eq!(rt; found, want, "at head {head} and code {code}");
    }
}

#[test]
fn blocks(rt: HostRuntime) -> Result<(), Fail> {
    let mut bytes = [0x88u8; 16];
    bytes[0] = 0x80;
    bytes[1] = 0xF9;
    let block = read_block(&bytes).ok().ok_or("a block")?;
    assert_eq!(rt; block.flags, 1);
    assert!(rt; decode_block(&block, state(1, 2)) == ([-32768; 28], state(-32768, -32768)));
    bytes[0] = 0;
    bytes[1] = 1;
    assert_eq!(rt; spell_block(&block), bytes);
    assert!(rt; read_block(&bytes) == Ok(block));
    bytes[0] = 0x50;
    assert!(rt; read_block(&bytes) == Err(BadFilter { filter: 5 }));
    Ok(())
}

#[test]
fn the_low_nibble_comes_first(rt: HostRuntime) -> Result<(), Fail> {
    let mut bytes = [0u8; 16];
    bytes[0] = 12;
    bytes[2] = 0xF1;
    let block = read_block(&bytes).ok().ok_or("a block")?;
    let (outputs, _) = decode_block(&block, state(0, 0));
    assert_eq!(rt; &outputs[..3], [1, -1, 0].as_slice());
    Ok(())
}
