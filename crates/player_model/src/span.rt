ghost use Rattle.std.specs.Prelude.{◌≡◌, ◌*◌, ◌^◌, ◌<◌, ◌≤◌};

use crate::format::StoredFormat;

/// The bytes of so many blocks.
pub(crate) fn bytes_of<S: StoredFormat>(blocks: u32) -> usize
    ensures { result ≡ S.format.size * blocks }
{
    S::block_size() as usize * blocks as usize
}

/// The samples of so many blocks.
pub(crate) fn samples_of<S: StoredFormat>(blocks: u32) -> u64
    ensures { result ≡ S.decoder.samples * blocks }
{
    u64::from(S::block_samples()) * u64::from(blocks)
}
