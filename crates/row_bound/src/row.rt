ghost use Rattle.std.specs.Prelude.{◌≤◌, ◌^◌, pos, negsuc};
ghost use Rattle.adpcm_nums.specs.Ranges.{IsWithin};

/// What ties the error z of a place to the errors x and y of the two places before it:
/// `low <= d * z - a * x - b * y <= high`. An error is an output, or twice an output, less its target.
#[derive(Clone, Copy, Debug, PartialEq, Eq)]
pub struct Row {
    /// The factor of the place's own error.
    pub d: i64,
    /// The factor of the last error before it.
    pub a: i64,
    /// The factor of the error before that.
    pub b: i64,
    /// The least that the sum may be.
    pub low: i64,
    /// The most that the sum may be.
    pub high: i64,
    /// How often the square of the place's error is counted.
    pub weight: u64,
    /// Whether the place's error is known.
    pub known: bool,
    /// The place's error, where it is known.
    pub out: i64,
    ghost d_is: { IsWithin d (pos 0) (pos 64) },
    ghost a_is: { IsWithin a (pos 0) (pos 128) },
    ghost b_is: { IsWithin b (negsuc 63) (pos 0) },
    ghost low_is: { IsWithin low (negsuc (2 ^ 26)) (pos (2 ^ 26)) },
    ghost high_is: { IsWithin high (negsuc (2 ^ 26)) (pos (2 ^ 26)) },
    ghost weight_is: { 1 ≤ weight },
    ghost weight_most: { weight ≤ 2 },
    ghost out_is: { IsWithin out (negsuc (2 ^ 17)) (pos (2 ^ 17)) },
}
