ghost use Rattle.std.specs.Prelude.{◌≡◌, ◌<◌, ℕ};
ghost use Rattle.adpcm_nums.specs.Least.{first_least};
ghost use Rattle.adpcm_nums.specs.Picks.{first_of_two};

use adpcm_nums::cheaper;

/// Sixteen codes, each at its cost.
pub trait CodeCosts {
    /// The cost of a code, in squared 16-bit steps.
    ghost cost: { Self → ℕ → ℕ };

    /// The cost of a code, in squared 16-bit steps.
    fn cost(&self, code: u32) -> u64
        requires { code < 16 }
        ensures { result ≡ cost self.now code };
}

/// The first code of least cost, found by trying all.
pub fn least_of_all<C: CodeCosts>(costs: &C) -> u32
    ensures value { result ≡ first_least (C.cost costs.now) 16 }
    ensures range { result < 16 }
{
    let mut best = 0;
    let mut least = costs.cost(0);
    for code in 1..16u32 {
        let found = costs.cost(code);
        if found < least {
            best = code;
            least = found;
        }
    }
    best
}

/// The one of two codes that costs less, or the first of them.
pub fn least_of_two<C: CodeCosts>(costs: &C, a: u32, b: u32) -> u32
    requires a { a < 16 }
    requires b { b < 16 }
    ensures value { result ≡ first_of_two (C.cost costs.now) a b }
    ensures range { result < 16 }
{
    cheaper(a, b, costs.cost(a), costs.cost(b))
}
