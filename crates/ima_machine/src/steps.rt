ghost use Rattle.std.specs.Prelude.{◌≡◌, ◌<◌, ◌≤◌, ℤ, pos, negsuc, ◌≤ℤ◌};
ghost use Rattle.ima_machine.specs.Steps.{step_size, share_of, distance_of, difference_of, next_index};

/// The step sizes of the 89 indices (IMA recommended practices, 1992).
static STEP_SIZES: [u32; 89] = [
    7, 8, 9, 10, 11, 12, 13, 14, 16, 17, 19, 21, 23, 25, 28, 31, 34, 37, 41, 45, 50, 55, 60, 66,
    73, 80, 88, 97, 107, 118, 130, 143, 157, 173, 190, 209, 230, 253, 279, 307, 337, 371, 408, 449,
    494, 544, 598, 658, 724, 796, 876, 963, 1060, 1166, 1282, 1411, 1552, 1707, 1878, 2066, 2272,
    2499, 2749, 3024, 3327, 3660, 4026, 4428, 4871, 5358, 5894, 6484, 7132, 7845, 8630, 9493,
    10442, 11487, 12635, 13899, 15289, 16818, 18500, 20350, 22385, 24623, 27086, 29794, 32767,
];

/// The step size of an index.
#[tactic(auto, using(crate::proofs::StepSizes::table_at, crate::proofs::StepSizes::step_small))]
pub(crate) fn step_size(index: u32) -> u32
    requires { index < 89 }
    ensures value { result ≡ step_size index }
    ensures large { 7 ≤ result }
    ensures small { result ≤ 32767 }
{
    STEP_SIZES[index as usize]
}

/// A part of the step, where its bit is set.
fn share(bit: u32, part: u32) -> u32
    ensures value { result ≡ share_of bit part }
    ensures small { result ≤ part }
{
    if bit == 0 { 0 } else { part }
}

/// How far a code moves the output under a step.
#[tactic(auto, unfolding(crate::specs::Steps::distance_of))]
pub(crate) fn distance(step: u32, code: u32) -> u32
    requires { step ≤ 32767 }
    ensures value { result ≡ distance_of step code }
    ensures small { result ≤ 65535 }
{
    step / 8 + share(code / 4 % 2, step) + share(code / 2 % 2, step / 2) + share(code % 2, step / 4)
}

/// What a code adds to the output at an index.
#[tactic(auto, unfolding(crate::specs::Steps::difference_of))]
pub(crate) fn difference(index: u32, code: u32) -> i64
    requires { index < 89 }
    ensures value { result ≡ difference_of index code }
    ensures low { negsuc 65535 ≤ℤ result }
    ensures high { result ≤ℤ pos 65535 }
{
    let distance = i64::from(distance(step_size(index), code));
    if code < 8 { distance } else { -distance }
}

/// The index after a code.
#[tactic(auto, unfolding(crate::specs::Steps::next_index))]
pub(crate) fn next_index(index: u32, code: u32) -> u32
    requires { index < 89 }
    ensures value { result ≡ next_index index code }
    ensures range { result < 89 }
{
    if code % 8 < 4 {
        index.saturating_sub(1)
    } else {
        (index + 2 * (code % 8 - 3)).min(88)
    }
}
