ghost use Rattle.std.specs.Prelude.{◌≡◌, ◌≤◌, ◌<◌, ℤ, pos, List, length, All};
ghost use Rattle.adpcm_nums.specs.Sample.{IsSample, AreSamples};
ghost use Rattle.machine_core.specs.Blocks.{Blocks, IsLegal, first_only};
ghost use Rattle.machine_core.specs.Sums.{sum_of};
ghost use Rattle.brr_machine.specs.Brr.{brr};
ghost use Rattle.brr_machine.specs.Zero.{zero_head, nearest_codes, shift_sum, best_shift, zero_sum};

use crate::block::BrrBlock;
use crate::nearest::Codes;
use linear_machine::CodeCosts;

/// The codes of a shift under filter 0, which predicts 0.
fn zero_codes(shift: u32, target: i32) -> Codes
    requires shift { shift < 16 }
    requires target { IsSample target }
    ensures shift { result.shift ≡ shift }
    ensures prediction { result.prediction ≡ pos 0 }
    ensures target { result.target ≡ target }
{
    Codes {
        shift,
        prediction: 0,
        target,
    }
}

/// The nearest codes of sixteen targets under a shift, and their error.
fn nearest_block(shift: u32, targets: &[i32; 16]) -> ([u8; 16], u64)
    requires shift { shift < 16 }
    requires targets { AreSamples targets.now }
    ensures codes { result.0 ≡ nearest_codes shift targets.now }
    ensures sum { result.1 ≡ shift_sum targets.now shift }
    ensures range { All (λ c. c < 16) result.0 }
{
    let mut codes = [0u8; 16];
    let mut sum = 0u64;
    for (i, target) in targets.iter().enumerate() {
        let found = zero_codes(shift, *target);
        let code = found.nearest();
        codes[i] = code as u8;
        sum += found.cost(code);
    }
    (codes, sum)
}

/// The block of filter 0 with flags 1 that has the least error against sixteen targets, and that error in squared
/// 16-bit steps. A target is compared with twice the output.
///
/// Of several shifts of least error the first is taken, and of several nearest codes the first (this project's own
/// choice).
pub fn encode_zero(targets: &[i32; 16]) -> (BrrBlock, u64)
    requires { AreSamples targets.now }
    ensures head { result.0.head ≡ zero_head (best_shift targets.now) }
    ensures flags { result.0.flags ≡ 1 }
    ensures codes { result.0.codes ≡ nearest_codes (best_shift targets.now) targets.now }
    ensures sum { result.1 ≡ zero_sum targets.now }
    // No block of filter 0 has a smaller sum.
    ensures least { (list : Blocks) → IsLegal brr 1 first_only list → result.1 ≤ sum_of brr list targets.now 1 }
{
    let (mut codes, mut least) = nearest_block(0, targets);
    let mut best = 0;
    for shift in 1..16u32 {
        let (found, sum) = nearest_block(shift, targets);
        if sum < least {
            codes = found;
            least = sum;
            best = shift;
        }
    }
    let block = BrrBlock {
        head: 4 * best,
        flags: 1,
        codes,
    };
    (block, least)
}

/// No block of filter 0 has a smaller error than the one that `encode_zero` makes, whatever the sixteen targets.
pub fn zero_is_least()
    ensures { (targets : List ℤ) (list : Blocks) → length targets ≡ 16 → IsLegal brr 1 first_only list → zero_sum targets ≤ sum_of brr list targets 1 }
{}
