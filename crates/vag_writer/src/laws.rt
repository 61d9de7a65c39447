ghost use Rattle.std.specs.Prelude.{◌≡◌, ℕ, ◌+◌, ◌^◌, ◌<◌, ◌≤◌, List, length, Ok};
ghost use Rattle.vag_writer.specs.Spelling.{filled, vag_file};
ghost use Rattle.vag_writer.specs.Reading.{vag_of};

/// What was written is read again: the rate, the name, filled with zeros, and the blocks.
pub fn written_is_read()
    ensures { (name : List ℕ) (rate : ℕ) (blocks : List ℕ) → length name ≤ 16 → 1 ≤ rate → rate ≤ 1000000 → length blocks < 2 ^ 30
        → vag_of (vag_file name rate blocks) ≡ Ok (record { rate = rate; name = filled name; blocks = blocks }) }
{}
