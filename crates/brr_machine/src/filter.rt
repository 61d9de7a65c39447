ghost use Rattle.std.specs.Prelude.{◌≡◌, ◌^◌, ◌≤◌, ◌<◌, ℤ, pos, negsuc, ◌≤ℤ◌, ◌*ℤ◌};
ghost use Rattle.adpcm_nums.specs.Nums.{floor_of};
ghost use Rattle.brr_machine.specs.Brr.{prediction_of};

use adpcm_nums::floor_shift;

/// `weight * x / 2^s`, rounded toward minus infinity.
fn share(weight: i64, x: i32, s: u32) -> i64
    requires shift { s ≤ 32 }
    requires weight_low { negsuc 15 ≤ℤ weight }
    requires weight_high { weight ≤ℤ pos 16 }
    requires low { negsuc 16383 ≤ℤ x }
    requires high { x ≤ℤ pos 16383 }
    ensures value { result ≡ floor_of (weight *ℤ x) (2 ^ s) }
    ensures at_least { negsuc 262143 ≤ℤ result }
    ensures at_most { result ≤ℤ pos 262144 }
{
    floor_shift(weight * i64::from(x), s)
}

/// What a filter predicts from the last output `o` and the one before it, `r` (fullsnes, BRR samples).
#[tactic(auto, unfolding(crate::specs::Brr::prediction_of))]
pub(crate) fn predict(filter: u32, o: i32, r: i32) -> i64
    requires filter { filter < 4 }
    requires o_low { negsuc 16383 ≤ℤ o }
    requires o_high { o ≤ℤ pos 16383 }
    requires r_low { negsuc 16383 ≤ℤ r }
    requires r_high { r ≤ℤ pos 16383 }
    ensures value { result ≡ prediction_of filter o r }
    ensures low { negsuc 1000000 ≤ℤ result }
    ensures high { result ≤ℤ pos 1000000 }
{
    match filter {
        0 => 0,
        // o * 0.9375
        1 => i64::from(o) + share(-1, o, 4),
        // o * 1.90625 - r * 0.9375
        2 => 2 * i64::from(o) + share(-3, o, 5) - i64::from(r) + share(1, r, 4),
        // o * 1.796875 - r * 0.8125
        _ => 2 * i64::from(o) + share(-13, o, 6) - i64::from(r) + share(3, r, 4),
    }
}
