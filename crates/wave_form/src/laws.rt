ghost use Rattle.std.specs.Prelude.{◌≡◌, ◌≤◌, ◌<◌, ◌+◌, ◌%◌, ◌^◌, ℕ, ℤ, List, length, Some, None, Ok};
ghost use Rattle.adpcm_nums.specs.Sample.{AreSamples};
ghost use Rattle.adpcm_nums.specs.declared.loop_at.LoopAt.{LoopAt};
ghost use Rattle.smpl_loops.specs.Loops.{first_loop_of};
ghost use Rattle.smpl_loops.specs.Sampler.{sampler_of};
ghost use Rattle.wave_form.specs.declared.chunks.Chunks.{Chunks};
ghost use Rattle.wave_form.specs.Walk.{walk_of};
ghost use Rattle.wave_form.specs.Reading.{read_of};
ghost use Rattle.wave_form.specs.Riff.{Chunk, chunk_bytes, riff_file, AreChunks, FindsBodies};
ghost use Rattle.wave_form.specs.Written.{wave_file, wave_loop_file};

/// A file of chunks that was written is walked again: of each kind the walk finds the body of the first chunk.
pub fn written_chunks_are_found()
    ensures { (chunks : List Chunk) → AreChunks chunks
        → (found : Chunks) × (walk_of (riff_file chunks) ≡ Ok found) × FindsBodies (riff_file chunks) found chunks }
{}

/// A chunk takes its head of eight bytes, its body, and a pad byte after an odd body.
pub fn length_of_a_chunk()
    ensures { (chunk : Chunk) → length chunk.id ≡ 4 → length (chunk_bytes chunk) ≡ 8 + length chunk.body + length chunk.body % 2 }
{}

/// A sound that was written is read again.
pub fn written_sound_is_read()
    ensures { (rate : ℕ) (samples : List ℤ) → 1 ≤ rate → rate ≤ 1000000 → length samples ≤ 2 ^ 24 → AreSamples samples
        → read_of (wave_file rate samples) None ≡ Ok (record { rate = rate; samples = samples; sampler = None }) }
{}

/// A sound that was written with a loop is read again, with a sampler that has this loop.
pub fn written_loop_is_read()
    ensures sound { (rate : ℕ) (samples : List ℤ) (at : LoopAt) → 1 ≤ rate → rate ≤ 1000000 → length samples ≤ 2 ^ 24 → AreSamples samples
        → read_of (wave_loop_file rate samples at) None ≡ Ok (record { rate = rate; samples = samples; sampler = Some (sampler_of rate at) }) }
    ensures first_loop { (rate frames : ℕ) (at : LoopAt) → at.start ≤ at.end → at.end < frames → frames < 2 ^ 32
        → first_loop_of (Some (sampler_of rate at)) frames ≡ Ok (Some at) }
{
    smpl_loops::written_loop_is_read();
}
