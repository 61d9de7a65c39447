ghost use Rattle.std.specs.Prelude.{◌≡◌, ◌≤◌, ◌+◌, ◌^◌, ℤ, pos, negsuc, ◌*ℤ◌, ◌+ℤ◌, ◌-ℤ◌, ◌≤ℤ◌};
ghost use Rattle.adpcm_nums.specs.Nums.{square_of};

/// `x * m`, for a factor of a row and a factor of the bound.
pub(crate) fn scaled(x: i64, m: i64) -> i64
    requires x_low { negsuc (2 ^ 7) ≤ℤ x }
    requires x_high { x ≤ℤ pos (2 ^ 7) }
    requires m_low { negsuc (2 ^ 28) ≤ℤ m }
    requires m_high { m ≤ℤ pos (2 ^ 28) }
    ensures value { result ≡ x *ℤ m }
    ensures low { negsuc (2 ^ 36) ≤ℤ result }
    ensures high { result ≤ℤ pos (2 ^ 36) }
{
    x * m
}

/// `q - x * m`.
pub(crate) fn lessened(q: i64, x: i64, m: i64) -> i64
    requires q_low { negsuc (2 ^ 40) ≤ℤ q }
    requires q_high { q ≤ℤ pos (2 ^ 40) }
    requires x_low { negsuc (2 ^ 7) ≤ℤ x }
    requires x_high { x ≤ℤ pos (2 ^ 7) }
    requires m_low { negsuc (2 ^ 28) ≤ℤ m }
    requires m_high { m ≤ℤ pos (2 ^ 28) }
    ensures value { result ≡ q -ℤ x *ℤ m }
    ensures low { (q +ℤ negsuc (2 ^ 36)) ≤ℤ result }
    ensures high { result ≤ℤ (q +ℤ pos (2 ^ 36 + 1)) }
{
    let product = scaled(x, m);
    q - product
}

/// `m * x`, for an end of an interval.
pub(crate) fn at_end(m: i64, x: i64) -> i64
    requires x_low { negsuc (2 ^ 26) ≤ℤ x }
    requires x_high { x ≤ℤ pos (2 ^ 26) }
    requires m_low { negsuc (2 ^ 28) ≤ℤ m }
    requires m_high { m ≤ℤ pos (2 ^ 28) }
    ensures value { result ≡ m *ℤ x }
    ensures low { negsuc (2 ^ 54 + 2 ^ 30) ≤ℤ result }
    ensures high { result ≤ℤ pos (2 ^ 54 + 2 ^ 30) }
{
    m * x
}

/// `l * out`, for an error that is known.
pub(crate) fn at_known(l: i64, out: i64) -> i64
    requires x_low { negsuc (2 ^ 28) ≤ℤ l }
    requires x_high { l ≤ℤ pos (2 ^ 28) }
    requires m_low { negsuc (2 ^ 17) ≤ℤ out }
    requires m_high { out ≤ℤ pos (2 ^ 17) }
    ensures value { result ≡ l *ℤ out }
    ensures low { negsuc (2 ^ 46) ≤ℤ result }
    ensures high { result ≤ℤ pos (2 ^ 46) }
{
    l * out
}

/// The square of a factor.
pub(crate) fn square(x: i64) -> u64
    requires low { negsuc (2 ^ 28) ≤ℤ x }
    requires high { x ≤ℤ pos (2 ^ 28) }
    ensures value { result ≡ square_of x }
    ensures most { result ≤ 2 ^ 57 }
{
    x.unsigned_abs() * x.unsigned_abs()
}

/// The square of a known error.
pub(crate) fn square_known(x: i64) -> u64
    requires low { negsuc (2 ^ 17) ≤ℤ x }
    requires high { x ≤ℤ pos (2 ^ 17) }
    ensures value { result ≡ square_of x }
    ensures most { result ≤ 2 ^ 35 }
{
    x.unsigned_abs() * x.unsigned_abs()
}
