ghost use Rattle.std.specs.Prelude.{◌≡◌, ℕ, length, Some, None, Ok};
ghost use Rattle.adpcm_nums.specs.Sample.{AreSamples};
ghost use Rattle.smpl_loops.specs.Loops.{first_loop_of};
ghost use Rattle.smpl_loops.specs.Sampler.{sampler_of};
ghost use Rattle.wave_form.specs.Reading.{read_of};
ghost use Rattle.sample_gen.specs.Walk.{frames_of, second_half, wave_of};

/// The file that a number gives is read as its frames at 32,000 a second, with a sampler whose first loop is the
/// second half.
pub fn made_wave_is_read()
    ensures sound { (number : ℕ) → read_of (wave_of number) None
        ≡ Ok (record { rate = 32000; samples = frames_of number; sampler = Some (sampler_of 32000 second_half) }) }
    ensures first_loop { first_loop_of (Some (sampler_of 32000 second_half)) 1024 ≡ Ok (Some second_half) }
    ensures count { (number : ℕ) → length (frames_of number) ≡ 1024 }
    ensures range { (number : ℕ) → AreSamples (frames_of number) }
{
    wave_form::written_loop_is_read();
}
