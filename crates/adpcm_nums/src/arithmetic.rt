ghost use Rattle.std.specs.Prelude.{◌≡◌, ◌*◌, ◌^◌, ◌≤◌, ◌<◌, ℤ, pos, negsuc, ◌<ℤ◌, ◌≤ℤ◌, ◌*ℤ◌, ◌+ℤ◌, unsigned_abs};
ghost use Rattle.adpcm_nums.specs.Nums.{floor_of, clamp16_of, wrap15_of, square_of};

/// `x / y`, rounded toward minus infinity.
pub fn floor_div(x: i64, y: i64) -> i64
    requires { pos 0 <ℤ y }
    ensures { result ≡ floor_of x (unsigned_abs y) }
{
    x.div_euclid(y)
}

/// `x / 2^s`, rounded toward minus infinity.
pub fn floor_shift(x: i64, s: u32) -> i64
    requires { s ≤ 32 }
    ensures { result ≡ floor_of x (2 ^ s) }
{
    x >> s
}

/// The number of -32768..32767 that is nearest to `x`: what a 16-bit output saturates to.
pub fn clamp16(x: i64) -> i32
    ensures value { result ≡ clamp16_of x }
    ensures low { negsuc 32767 ≤ℤ result }
    ensures high { result ≤ℤ pos 32767 }
{
    x.min(32767).max(-32768) as i32
}

/// The number of -16384..16383 that differs from `x` by a multiple of 32768: what 15 bits keep of it
/// (fullsnes, BRR samples).
pub fn wrap15(x: i32) -> i32
    ensures value { result ≡ wrap15_of x }
    ensures low { negsuc 16383 ≤ℤ result }
    ensures high { result ≤ℤ pos 16383 }
    ensures multiple { (k : ℤ) × (x ≡ result +ℤ (k *ℤ pos 32768)) }
{
    ((i64::from(x) + 16384).rem_euclid(32768) - 16384) as i32
}

/// `x * x`.
pub fn square(x: i64) -> u64
    requires { unsigned_abs x ≤ 2 ^ 31 }
    ensures { result ≡ square_of x }
{
    x.unsigned_abs() * x.unsigned_abs()
}
