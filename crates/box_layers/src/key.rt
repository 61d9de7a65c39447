ghost use Rattle.std.specs.Prelude.{◌≡◌};
ghost use Rattle.box_layers.specs.Keys.{key_before, key_same};

/// Where a layer of cells stands: before a place of a block, in a lane. Layers are ordered by block, then place, then lane.
#[derive(Clone, Copy, Debug, PartialEq, Eq, PartialOrd, Ord)]
pub struct Key {
    /// The block of the segment, from 0.
    pub block: u32,
    /// The place in the block, from 0.
    pub place: u32,
    /// The lane, 65535 at place 0.
    pub lane: u32,
}

/// Whether a layer stands before another.
#[tactic(auto, unfolding(crate::specs::Keys::key_before))]
pub fn is_key_before(j: Key, k: Key) -> bool
    ensures { result ≡ key_before j k }
{
    if j.block < k.block {
        true
    } else if k.block < j.block {
        false
    } else if j.place < k.place {
        true
    } else if k.place < j.place {
        false
    } else {
        j.lane < k.lane
    }
}

/// Whether two layers stand at the same place.
pub fn is_key_same(j: Key, k: Key) -> bool
    ensures { result ≡ key_same j k }
{
    j.block == k.block && j.place == k.place && j.lane == k.lane
}
