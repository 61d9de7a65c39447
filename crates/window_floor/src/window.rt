ghost use Rattle.std.specs.Prelude.{◌≡◌, ◌≤◌, ◌+◌, pos, negsuc, unsigned_abs};
ghost use Rattle.adpcm_nums.specs.Nums.{square_of};
ghost use Rattle.adpcm_nums.specs.Ranges.{IsWithin};

/// The numbers of a filter: `d * prediction = ca * o + cb * r + bias - e` for some e in `0..=errs`, where o is the last
/// output and r the one before it.
#[derive(Clone, Copy, Debug, PartialEq, Eq)]
pub struct Window {
    /// The factor of the prediction.
    pub d: i64,
    /// The factor of the last output.
    pub ca: i64,
    /// The factor of the output before it; 0 for a window of two places.
    pub cb: i64,
    /// What is added before rounding.
    pub bias: i64,
    /// The most that rounding takes away.
    pub errs: i64,
    /// What an output is multiplied by when it is compared with a target: 1 or 2.
    pub scale: i64,
    /// `d² + ca² + cb²`.
    pub norm: i64,
    /// Whether an output may be 32768 above or below what the filter gives.
    pub wraps: bool,
    ghost d_is: { IsWithin d (pos 1) (pos 64) },
    ghost ca_is: { IsWithin ca (pos 0) (pos 128) },
    ghost cb_is: { IsWithin cb (negsuc 63) (pos 0) },
    ghost bias_is: { IsWithin bias (pos 0) (pos 64) },
    ghost errs_is: { IsWithin errs (pos 0) (pos 128) },
    ghost scale_is: { IsWithin scale (pos 1) (pos 2) },
    ghost norm_is: { IsWithin norm (pos 1) (pos 32767) },
    ghost norm_sum: { unsigned_abs norm ≡ square_of d + square_of ca + square_of cb },
}

impl Window {
    ghost use Rattle.window_floor.specs.Row.{size_of};
    ghost use Rattle.window_floor.specs.Numbers.{row_of};

    /// How many places in a row the filter ties together.
    #[tactic(auto, unfolding(crate::specs::Row::size_of))]
    pub(crate) fn size(self) -> usize
        ensures value { result ≡ size_of (row_of self) }
        ensures some { 1 ≤ result }
        ensures few { result ≤ 3 }
    {
        if self.cb != 0 {
            3
        } else if self.ca != 0 {
            2
        } else {
            1
        }
    }
}
