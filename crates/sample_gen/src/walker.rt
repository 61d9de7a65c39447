ghost use Rattle.std.specs.Prelude.{◌≡◌};
ghost use Rattle.adpcm_nums.specs.Sample.{IsSample};
ghost use Rattle.sample_gen.specs.Walk.{number_after, frame_after, walker_after};

use adpcm_nums::clamp16;

/// Where the sound stands: a number of 32 bits that jumps about, and the last frame, which the number moves.
#[derive(Clone, Copy)]
pub(crate) struct Walker {
    pub(crate) number: u32,
    pub(crate) frame: i32,
}

impl Walker {
    /// One frame later.
    pub(crate) fn after(self) -> Walker
        requires { IsSample self.frame }
        ensures value { result ≡ walker_after self }
        ensures range { IsSample result.frame }
    {
        let number = next_number(self.number);
        Walker {
            number,
            frame: next_frame(number, self.frame),
        }
    }
}

// The number that follows: the quick linear congruential generator of Numerical Recipes.
fn next_number(number: u32) -> u32
    ensures { result ≡ number_after number }
{
    ((u64::from(number) * 1664525 + 1013904223) % 4294967296) as u32
}

// The frame that follows, which the number's ten highest bits move by -512 to 511.
fn next_frame(number: u32, frame: i32) -> i32
    requires { IsSample frame }
    ensures value { result ≡ frame_after number frame }
    ensures range { IsSample result }
{
    clamp16(i64::from(frame) + i64::from(number / 4194304) - 512)
}
