ghost use Rattle.std.specs.Prelude.{IsTrue};
ghost use Rattle.adpcm_nums.specs.Sample.{AreSamples};
ghost use Rattle.brr_machine.specs.Brr.{is_brr_state};

mod boxes;
mod floors;
mod nearest;
mod table;

use adpcm_nums::wrap15;
use brr_machine::{brr_output, decode_block, encode_zero, read_block, spell_block};
use machine_core::State;

/// A state of two outputs.
fn state(last: i32, older: i32) -> State
    ensures { IsTrue (is_brr_state result) }
{
    State {
        a: wrap15(last),
        b: wrap15(older),
    }
}

/// Sixteen times one target.
fn sixteen(target: i16) -> [i32; 16]
    ensures { AreSamples result }
{
    [i32::from(target); 16]
}

#[test]
fn decodes_as_another_decoder(rt: HostRuntime) {
    for (bytes, last, older, outputs) in table::ROWS.iter() {
        let (found, _) = decode_block(bytes, state(*last, *older));
        assert_eq!(rt; found, *outputs, "at {bytes:?}");
    }
}

/// The sum wraps to 15 bits after the clamp, and at shift 13 a code keeps its sign alone.
#[test]
fn single_outputs(rt: HostRuntime) {
    for (head, code, last, want) in [
        (50, 0, 14336, -5440),
        (50, 7, 14336, -1),
        (52, 7, 0, 0),
        (52, 8, 0, -2048),
    ] {
        let found = brr_output(head, code, state(last, 0));
        assert_eq!(rt; found, want, "at head {head} and code {code}");
    }
}

#[test]
fn falls_by_one(rt: HostRuntime) {
    let (found, _) = decode_block(&[0x04, 0, 0, 0, 0, 0, 0, 0, 0], state(16, 0));
    assert_eq!(rt;
        found,
        [15, 14, 13, 12, 11, 10, 9, 8, 7, 6, 5, 4, 3, 2, 1, 0]
    );
}

#[test]
fn encodes_constant_targets(rt: HostRuntime) {
    let rows: [(i16, u8, u8, u64); 4] = [
        (0, 0x01, 0x00, 0),
        (1, 0x01, 0x00, 16),
        (32767, 0xC1, 0x77, 268304400),
        (-32768, 0xC1, 0x88, 0),
    ];
    for (target, header, p, error) in rows {
        let (block, found) = encode_zero(&sixteen(target));
        assert_eq!(rt;
            spell_block(&block),
            [header, p, p, p, p, p, p, p, p],
            "at {target}"
        );
        assert_eq!(rt; found, error, "at {target}");
        assert_eq!(rt; read_block(&spell_block(&block)), block, "at {target}");
    }
}
