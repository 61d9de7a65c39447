//! WAVE files of this and of other makers.

use crate::other_makers::*;
use adpcm_nums::LoopAt;
use smpl_loops::first_loop;
use std::test::*;
use wave_form::read_wave;

// Three samples of 8 bits at 32000 frames per second, after a `LIST` of three bytes and its pad, with no pad
// at the end.
const EIGHT: [u8; 59] = [
    82, 73, 70, 70, 51, 0, 0, 0, 87, 65, 86, 69, 102, 109, 116, 32, 16, 0, 0, 0, 1, 0, 1, 0, 0,
    125, 0, 0, 0, 125, 0, 0, 1, 0, 8, 0, 76, 73, 83, 84, 3, 0, 0, 0, 1, 2, 3, 0, 100, 97, 116, 97,
    3, 0, 0, 0, 128, 129, 127,
];

// The same sound with the `LIST` first, and six bytes of a head at the end.
const LIST_FIRST: [u8; 66] = [
    82, 73, 70, 70, 58, 0, 0, 0, 87, 65, 86, 69, 76, 73, 83, 84, 3, 0, 0, 0, 1, 2, 3, 0, 102, 109,
    116, 32, 16, 0, 0, 0, 1, 0, 1, 0, 0, 125, 0, 0, 0, 125, 0, 0, 1, 0, 8, 0, 100, 97, 116, 97, 3,
    0, 0, 0, 128, 129, 127, 0, 100, 97, 116, 97, 9, 0,
];

const LEFT: [i32; 5] = [0, 1000, -1000, 32767, -32768];

const RIGHT: [i32; 5] = [5, -1, 32767, -32768, 256];

#[test]
fn sounds_of_other_makers(rt: HostRuntime) -> Result<(), Fail> {
    let cases = [
        (EIGHT.as_slice(), None, [0, 256, -256].as_slice()),
        (LIST_FIRST.as_slice(), None, [0, 256, -256].as_slice()),
        (PYTHON_MONO.as_slice(), Some(0), LEFT.as_slice()),
        (PYTHON_STEREO.as_slice(), Some(0), LEFT.as_slice()),
        (PYTHON_STEREO.as_slice(), Some(1), RIGHT.as_slice()),
        (
            SOX_BYTES.as_slice(),
            None,
            [0, 1024, -1024, 32512, -32768].as_slice(),
        ),
        (SNDFILE_LOOP.as_slice(), None, LEFT.as_slice()),
        (SNDFILE_EXTENSIBLE.as_slice(), Some(1), RIGHT.as_slice()),
    ];
    for (file, channel, samples) in cases {
        let wave = read_wave(rt.alloc(), file, channel).ok().ok_or("a sound")?;
        assert_eq!(rt; wave.samples.as_slice(), samples);
    }
    Ok(())
}

#[test]
fn the_loop_of_libsndfile(rt: HostRuntime) -> Result<(), Fail> {
    let wave = read_wave(rt.alloc(), &SNDFILE_LOOP, None)
        .ok()
        .ok_or("a sound")?;
    let sampler = wave.sampler.ok_or("a sampler")?;
    let at = first_loop(Some(sampler.as_slice()), 5);
    assert_eq!(rt; at, Ok(Some(LoopAt { start: 1, end: 3 })));
    Ok(())
}
