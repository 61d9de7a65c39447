//! Tracks and their players, by index and one output after another.

use adpcm_nums::LoopAt;
use ima_machine::Ima;
use player_model::{
    BrrPlayer, ImaPlayer, SpuPlayer, TrackFault, brr_track, ima_track, play_brr_at, play_ima_at,
    play_spu_at, spu_track,
};
use std::test::Fail;

/// Two blocks, the second of which repeats: codes 1 under shift 5, then zeros under filter 1.
const FADING: [u8; 18] = [
    0x50, 0x11, 0x11, 0x11, 0x11, 0x11, 0x11, 0x11, 0x11, 0x07, 0, 0, 0, 0, 0, 0, 0, 0,
];

#[test]
fn plays_on_with_the_history(rt: HostRuntime) -> Result<(), Fail> {
    let outputs = [
        16, 16, 16, 16, 16, 16, 16, 16, 16, 16, 16, 16, 16, 16, 16, 16, 15, 14, 13, 12,
    ];
    let track = brr_track(&FADING, 0, 9).map_err(|_| "a track")?;
    assert_eq!(rt; track.blocks(), 2);
    assert_eq!(rt; track.loop_block(), Some(1));
    assert_eq!(rt; track.bytes(), FADING.as_slice());
    for (i, output) in outputs.iter().enumerate() {
        assert_eq!(rt; play_brr_at(&track, i as u64), *output, "output {i}");
    }
    assert_eq!(rt; play_brr_at(&track, u64::MAX), 0);
    assert_eq!(rt;
        brr_track(&FADING, 0, 18).err(),
        Some(TrackFault::BadAgain { at: 18 })
    );
    let mut player = BrrPlayer::new(track);
    for (i, output) in outputs.iter().enumerate() {
        assert!(rt; player.count() == i as u64);
        assert_eq!(rt; player.next(), *output, "output {i}");
    }
    Ok(())
}

/// Two blocks of SPU-ADPCM, the second of which repeats: codes 1 under shift 12, then zeros under filter 1.
const HALF: [u8; 32] = [
    0x0C, 0x04, 0x11, 0x11, 0x11, 0x11, 0x11, 0x11, 0x11, 0x11, 0x11, 0x11, 0x11, 0x11, 0x11, 0x11,
    0x1C, 0x07, 0, 0, 0, 0, 0, 0, 0, 0, 0, 0, 0, 0, 0, 0,
];

#[test]
fn goes_back_to_the_last_start(rt: HostRuntime) -> Result<(), Fail> {
    let mut bytes = HALF;
    bytes[2] = 0x81;
    let track = spu_track(&bytes).map_err(|_| "a track")?;
    assert_eq!(rt; track.blocks(), 2);
    assert_eq!(rt; track.loop_block(), Some(1));
    assert_eq!(rt; play_spu_at(&track, 0), 1);
    assert_eq!(rt; play_spu_at(&track, 1), -8);
    assert_eq!(rt; play_spu_at(&track, 57), 1);
    bytes[17] = 0x03;
    let track = spu_track(&bytes).map_err(|_| "a track")?;
    assert_eq!(rt; track.loop_block(), Some(0));
    assert_eq!(rt; play_spu_at(&track, 57), -8);
    let mut player = SpuPlayer::new(track);
    assert_eq!(rt; player.next(), 1);
    assert_eq!(rt; player.next(), -8);
    Ok(())
}

/// A block of IMA ADPCM: 0, then eight codes 1 0 0 0 0 0 0 0 from the least step, which give 1 each.
const STEP: [u8; 8] = [0, 0, 0, 0, 0x01, 0, 0, 0];

#[test]
fn frames_go_round_their_loop(rt: HostRuntime) -> Result<(), Fail> {
    let machine = Ima::new(8).ok_or("a block of 8 bytes")?;
    let track = ima_track(machine, &STEP, 9, None).map_err(|_| "a track")?;
    assert_eq!(rt; (track.blocks(), track.frames()), (1, 9));
    let looped = Some(LoopAt { start: 0, end: 1 });
    let again = ima_track(machine, &STEP, 9, looped).map_err(|_| "a track")?;
    let mut once = ImaPlayer::new(ima_track(machine, &STEP, 9, None).map_err(|_| "a track")?);
    let mut round = ImaPlayer::new(ima_track(machine, &STEP, 9, looped).map_err(|_| "a track")?);
    for i in 0..12u64 {
        let plain = i32::from(0 < i && i < 9);
        assert!(rt; once.count() == i);
        assert!(rt; round.count() == i);
        assert_eq!(rt;
            (play_ima_at(&track, i), once.next()),
            (plain, plain),
            "output {i}"
        );
        let turned = i32::from(i % 2 == 1);
        assert_eq!(rt;
            (play_ima_at(&again, i), round.next()),
            (turned, turned),
            "output {i}"
        );
    }
    assert_eq!(rt; play_ima_at(&again, u64::MAX), 1);
    Ok(())
}
