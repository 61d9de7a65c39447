ghost use Rattle.std.specs.Prelude.{◌≡◌, ◌≤◌, ◌<◌, ◌^◌, ℕ, Some, Ok};
ghost use Rattle.adpcm_nums.specs.declared.loop_at.LoopAt.{LoopAt};
ghost use Rattle.smpl_loops.specs.Loops.{first_loop_of};
ghost use Rattle.smpl_loops.specs.Sampler.{sampler_of};

/// The sampler that is written for a loop is read as that loop, at every rate and in every sound that has
/// its last frame.
pub fn written_loop_is_read()
    ensures { (rate frames : ℕ) (at : LoopAt) → at.start ≤ at.end → at.end < frames → frames < 2 ^ 32
        → first_loop_of (Some (sampler_of rate at)) frames ≡ Ok (Some at) }
{}
