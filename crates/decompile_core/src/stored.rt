ghost use Rattle.std.specs.Prelude.{◌≡◌, ◌*◌, ◌<◌, ◌≤◌, ◌*ℤ◌, ℕ, pos, IfOk, IfSome};
ghost use Rattle.adpcm_nums.specs.Sample.{AreSamples, IsSample};
ghost use Rattle.player_model.specs.Sound.{heard};
ghost use Rattle.decompile_core.specs.Recovered.{stored_recovered, with_loop};

use crate::playings::{play_on, settle};
use crate::recovered::{Recovered, Settles};
use adpcm_nums::{LoopAt, NoMemory, Samples};
use player_model::{StoredFormat, StoredPlayer, StoredTrack};
use std::alloc::Global;

/// The samples up to the end of a playing, with that playing as their loop; where none is told, the first pass with its loop.
fn with_loop(
    rate: u32,
    samples: Vec<i32>,
    points: LoopAt,
    trailing: u64,
    settled: Option<u32>,
) -> Recovered
    requires range { AreSamples samples.items }
    requires ordered { points.start ≤ points.end }
    requires few { points.end < 262144 }
    requires playings { IfSome settled (λ m. m < 64) }
    ensures { result ≡ with_loop rate samples.items points trailing settled }
{
    let samples = Samples::from_vec(samples);
    match settled {
        None => Recovered {
            rate,
            samples,
            loop_at: Some(points),
            settles: Settles::Unsettled,
            trailing,
        },
        Some(playing) => {
            let gone = playing * (points.end - points.start + 1);
            Recovered {
                rate,
                samples,
                loop_at: Some(LoopAt {
                    start: points.start + gone,
                    end: points.end + gone,
                }),
                settles: Settles::From { playing },
                trailing,
            }
        }
    }
}

/// What a track of blocks with flags sounds like for ever.
#[tactic(auto, unfolding(crate::specs::Recovered::recovered_of))]
pub(crate) fn recover<S: StoredFormat>(
    alloc: Global,
    track: StoredTrack<'_, S>,
    scale: i32,
    rate: u32,
    trailing: u64,
) -> Result<Recovered, NoMemory>
    requires scale { scale ≡ pos S.decoder.scale }
    requires some_scale { 0 < S.decoder.scale }
    requires range { (i : ℕ) → IsSample (pos S.decoder.scale *ℤ heard S.decoder S.format track i) }
    requires few { track.blocks * S.decoder.samples ≤ 262144 }
    ensures { IfOk result (λ entry. entry ≡ stored_recovered S.decoder S.format rate trailing track.entry) }
{
    let in_block = S::block_samples();
    let frames = track.blocks() * in_block;
    let loop_block = track.loop_block();
    let mut player = StoredPlayer::new(track);
    let mut samples = Vec::new(alloc);
    play_on(&mut player, scale, &mut samples, frames)?;
    match loop_block {
        None => Ok(Recovered {
            rate,
            samples: Samples::from_vec(samples),
            loop_at: None,
            settles: Settles::NoLoop,
            trailing,
        }),
        Some(block) => {
            let points = LoopAt {
                start: block * in_block,
                end: frames - 1,
            };
            let settled = settle(&mut player, scale, &mut samples, points)?;
            Ok(with_loop(rate, samples, points, trailing, settled))
        }
    }
}
