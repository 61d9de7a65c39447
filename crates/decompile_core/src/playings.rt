ghost use Rattle.std.specs.Prelude.{◌≡◌, ◌+◌, ◌*◌, ◌^◌, ◌<◌, ◌≤◌, ◌*ℤ◌, ℕ, pos, length, get_or, OnOk, IfOk, IfSome};
ghost use Rattle.adpcm_nums.specs.Sample.{IsSample};
ghost use Rattle.player_model.specs.Sound.{heard};
ghost use Rattle.decompile_core.specs.Playings.{end_of, is_again, kept_samples, samples_of, settled, settles_at};

use adpcm_nums::{LoopAt, NoMemory};
use player_model::{StoredFormat, StoredPlayer};

/// An output times the scale, which has 16 bits.
fn sample_of(scale: i32, output: i32) -> i32
    requires { IsSample (scale *ℤ output) }
    ensures { result ≡ scale *ℤ output }
{
    scale * output
}

/// Plays on by so many samples, each an output times the scale.
pub(crate) fn play_on<S: StoredFormat>(
    player: &mut StoredPlayer<'_, S>,
    scale: i32,
    samples: &mut Vec<i32>,
    count: u32,
) -> Result<(), NoMemory>
    requires scale { scale ≡ pos S.decoder.scale }
    requires range { (i : ℕ) → IsSample (pos S.decoder.scale *ℤ heard S.decoder S.format player.old.track i) }
    requires few { player.old.count < 2 ^ 32 }
    requires played { samples.old.items ≡ samples_of S.decoder.scale (heard S.decoder S.format player.old.track) player.old.count }
    ensures player { OnOk result (player.new ≡ record { track = player.old.track; count = player.old.count + count }) }
    ensures played { OnOk result (samples.new.items ≡ samples_of S.decoder.scale (heard S.decoder S.format player.old.track) (player.old.count + count)) }
{
    for _ in 0..count {
        let sample = sample_of(scale, player.next());
        match samples.push(sample) {
            Ok(()) => {}
            Err(_) => return Err(NoMemory),
        }
    }
    Ok(())
}

/// Whether the playing of `len` samples that begins at a place is given again right behind it.
#[tactic(auto, unfolding(crate::specs::Playings::is_again), using(adpcm_nums::proofs::FirstLaws::none_at_zero, adpcm_nums::proofs::FirstLaws::none_more, adpcm_nums::proofs::FirstLaws::first_found))]
fn is_again(samples: &[i32], at: u32, len: u32) -> bool
    requires { at + len + len ≤ length samples.now }
    ensures { result ≡ is_again (λ i. get_or samples.now i (pos 0)) at len }
{
    let at = at as usize;
    let next = at + len as usize;
    for k in 0..len {
        if samples[at + k as usize] != samples[next + k as usize] {
            return false;
        }
    }
    true
}

/// Plays on by one playing of the loop, and tells whether the playing before it, which is playing `m`, was given again.
fn play_again<S: StoredFormat>(
    player: &mut StoredPlayer<'_, S>,
    scale: i32,
    samples: &mut Vec<i32>,
    points: LoopAt,
    m: u32,
) -> Result<bool, NoMemory>
    requires scale { scale ≡ pos S.decoder.scale }
    requires some_scale { 0 < S.decoder.scale }
    requires range { (i : ℕ) → IsSample (pos S.decoder.scale *ℤ heard S.decoder S.format player.old.track i) }
    requires ordered { points.start ≤ points.end }
    requires few { points.end < 262144 }
    requires playing { m < 64 }
    requires count { player.old.count ≡ end_of points m }
    requires played { samples.old.items ≡ samples_of S.decoder.scale (heard S.decoder S.format player.old.track) (end_of points m) }
    ensures again { IfOk result (λ again. again ≡ settles_at (heard S.decoder S.format player.old.track) points m) }
    ensures player { IfOk result (λ again. player.new ≡ record { track = player.old.track; count = end_of points (m + 1) }) }
    ensures played { IfOk result (λ again. samples.new.items ≡ samples_of S.decoder.scale (heard S.decoder S.format player.old.track) (end_of points (m + 1))) }
{
    let len = points.end - points.start + 1;
    play_on(player, scale, samples, len)?;
    Ok(is_again(samples.as_slice(), points.start + m * len, len))
}

/// Plays the loop behind the first pass until a playing is given again by the next one, which is one of 0 to 63, and tells
/// which. The samples end with it; where there is none, with the first pass.
pub(crate) fn settle<S: StoredFormat>(
    player: &mut StoredPlayer<'_, S>,
    scale: i32,
    samples: &mut Vec<i32>,
    points: LoopAt,
) -> Result<Option<u32>, NoMemory>
    requires scale { scale ≡ pos S.decoder.scale }
    requires some_scale { 0 < S.decoder.scale }
    requires range { (i : ℕ) → IsSample (pos S.decoder.scale *ℤ heard S.decoder S.format player.old.track i) }
    requires ordered { points.start ≤ points.end }
    requires few { points.end < 262144 }
    requires count { player.old.count ≡ end_of points 0 }
    requires played { samples.old.items ≡ samples_of S.decoder.scale (heard S.decoder S.format player.old.track) (end_of points 0) }
    ensures settled { IfOk result (λ m. m ≡ settled (heard S.decoder S.format player.old.track) points) }
    ensures few { IfOk result (λ m. IfSome m (λ k. k < 64)) }
    ensures kept { IfOk result (λ m. samples.new.items ≡ samples_of S.decoder.scale (heard S.decoder S.format player.old.track) (kept_samples points m)) }
{
    for m in 0..64 {
        if play_again(player, scale, samples, points, m)? {
            samples.truncate((points.end + 1 + m * (points.end - points.start + 1)) as usize);
            return Ok(Some(m));
        }
    }
    samples.truncate(points.end as usize + 1);
    Ok(None)
}
