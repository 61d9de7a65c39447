ghost use Rattle.std.specs.Prelude.{◌≡◌, ◌^◌, pos, negsuc, false};
ghost use Rattle.adpcm_nums.specs.Ranges.{IsWithin};

use crate::row::Row;

/// The rows that one place may keep: `base` with its interval moved by any step of a list, and two rows apart.
#[derive(Clone, Copy, Debug, PartialEq, Eq)]
pub struct Layer {
    /// The row that steps move. Its error is free.
    pub base: Row,
    /// One row apart from the steps, as for an output of clamping.
    pub first: Row,
    /// Another one.
    pub second: Row,
    ghost low_is: { IsWithin base.low (negsuc (2 ^ 24)) (pos (2 ^ 24)) },
    ghost high_is: { IsWithin base.high (negsuc (2 ^ 24)) (pos (2 ^ 24)) },
    ghost free: { base.known ≡ false },
    ghost first_weighs: { first.weight ≡ base.weight },
    ghost second_weighs: { second.weight ≡ base.weight },
}
