ghost use Rattle.std.specs.Prelude.{◌≡◌, ◌<◌, ℤ, pos, negsuc, ◌≤ℤ◌, ◌*ℤ◌, ◌+ℤ◌};
ghost use Rattle.spu_machine.specs.Spu.{last_weight, older_weight, prediction_of};

use adpcm_nums::floor_shift;

/// The weight that a filter gives to the last output, in 64ths (PSX-SPX, SPU ADPCM samples).
fn last_weight(filter: u32) -> i64
    requires { filter < 5 }
    ensures value { result ≡ last_weight filter }
    ensures low { pos 0 ≤ℤ result }
    ensures high { result ≤ℤ pos 122 }
{
    match filter {
        0 => 0,
        1 => 60,
        2 => 115,
        3 => 98,
        _ => 122,
    }
}

/// The weight that it gives to the output before that one.
fn older_weight(filter: u32) -> i64
    requires { filter < 5 }
    ensures value { result ≡ older_weight filter }
    ensures low { negsuc 59 ≤ℤ result }
    ensures high { result ≤ℤ pos 0 }
{
    match filter {
        0 | 1 => 0,
        2 => -52,
        3 => -55,
        _ => -60,
    }
}

/// A weight's share of an output, in 64ths.
fn weighed(weight: i64, x: i32) -> i64
    requires weight_low { negsuc 127 ≤ℤ weight }
    requires weight_high { weight ≤ℤ pos 127 }
    requires low { negsuc 32767 ≤ℤ x }
    requires high { x ≤ℤ pos 32767 }
    ensures { result ≡ weight *ℤ x }
{
    weight * i64::from(x)
}

/// The same, with what is known of its size.
#[tactic(auto, using(crate::proofs::Products::share_low, crate::proofs::Products::share_high))]
fn share(weight: i64, x: i32) -> i64
    requires weight_low { negsuc 127 ≤ℤ weight }
    requires weight_high { weight ≤ℤ pos 127 }
    requires low { negsuc 32767 ≤ℤ x }
    requires high { x ≤ℤ pos 32767 }
    ensures value { result ≡ weight *ℤ x }
    ensures at_least { negsuc 4194303 ≤ℤ result }
    ensures at_most { result ≤ℤ pos 4194304 }
{
    weighed(weight, x)
}

/// The shares of both outputs, and half of one, in 64ths.
fn shares(filter: u32, o: i32, r: i32) -> i64
    requires filter { filter < 5 }
    requires o_low { negsuc 32767 ≤ℤ o }
    requires o_high { o ≤ℤ pos 32767 }
    requires r_low { negsuc 32767 ≤ℤ r }
    requires r_high { r ≤ℤ pos 32767 }
    ensures value { result ≡ last_weight filter *ℤ o +ℤ older_weight filter *ℤ r +ℤ pos 32 }
    ensures at_least { negsuc 16777215 ≤ℤ result }
    ensures at_most { result ≤ℤ pos 16777215 }
{
    share(last_weight(filter), o) + share(older_weight(filter), r) + 32
}

/// What a filter predicts from the last output `o` and the one before it, `r`: the sum of their shares, rounded (PSX-SPX,
/// SPU ADPCM samples). That it is floored where it is negative is this project's own choice.
#[tactic(auto, unfolding(crate::specs::Spu::prediction_of), using(adpcm_nums::proofs::FloorBounds::floor_above, adpcm_nums::proofs::FloorBounds::floor_below))]
pub(crate) fn predict(filter: u32, o: i32, r: i32) -> i64
    requires filter { filter < 5 }
    requires o_low { negsuc 32767 ≤ℤ o }
    requires o_high { o ≤ℤ pos 32767 }
    requires r_low { negsuc 32767 ≤ℤ r }
    requires r_high { r ≤ℤ pos 32767 }
    ensures value { result ≡ prediction_of filter o r }
    ensures low { negsuc 16777215 ≤ℤ result }
    ensures high { result ≤ℤ pos 16777215 }
{
    floor_shift(shares(filter, o, r), 6)
}
