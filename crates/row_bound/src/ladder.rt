ghost use Rattle.std.specs.Prelude.{◌≡◌, ◌≤◌, ◌<◌, ◌^◌, ℕ, ℤ, pos, negsuc, ◌≤ℤ◌, length, get_or, true};
ghost use Rattle.row_bound.specs.Ladder.{IsLadder};

/// Whether a step may follow the last one.
fn follows(last: i64, step: i64) -> bool
    ensures rises { result ≡ true → last ≤ℤ step }
    ensures high { result ≡ true → step ≤ℤ pos (2 ^ 24) }
{
    last <= step && step <= 16_777_216
}

/// Whether steps rise and are within ±2^24.
pub fn is_ladder(steps: &[i64]) -> bool
    ensures { result ≡ true → IsLadder steps.now }
{
    let mut last = -16_777_216;
    for step in steps {
        if !follows(last, *step) {
            return false;
        }
        last = *step;
    }
    true
}

/// The first step from `aim` on, or the end: where the search begins.
pub(crate) fn first_from(steps: &[i64], aim: i64) -> usize
    ensures { result ≤ length steps.now }
{
    let mut low = 0;
    let mut high = steps.len();
    while low < high {
        let middle = low + (high - low) / 2;
        if steps[middle] < aim {
            low = middle + 1;
        } else {
            high = middle;
        }
    }
    low
}
