ghost use Rattle.std.specs.Prelude.{◌≡◌};
ghost use Rattle.player_model.specs.Limit.{is_much};

use adpcm_nums::{MOST_BLOCKS, MOST_SAMPLES};

/// Whether so many blocks of so many samples are more than are played: more than 4,096 blocks, or more than 262,144 samples in
/// them (this project's own choice).
pub fn is_much(blocks: u32, samples: u32) -> bool
    ensures { result ≡ is_much blocks samples }
{
    blocks > MOST_BLOCKS || u64::from(blocks) * u64::from(samples) > u64::from(MOST_SAMPLES)
}
