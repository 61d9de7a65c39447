ghost use Rattle.std.specs.Prelude.{ℕ, ℤ, List, length, ◌≡◌, ◌<◌};
ghost use Rattle.machine_core.specs.Decoder.{Decoder};
ghost use Rattle.beam_encoder.specs.declared.node.Node.{Node};
ghost use Rattle.beam_encoder.specs.Kept.{Rises, kept, sorted};
ghost use Rattle.beam_encoder.specs.Near.{AreTargets};
ghost use Rattle.beam_encoder.specs.Beam.{AreWhole, block_count};

/// The sums of a sorted list rise, and it is as long as what was made; so do those of what is kept.
pub fn sorted_rises()
    ensures sorted { (made : List Node) → Rises 0 (sorted made) }
    ensures whole { (made : List Node) → length (sorted made) ≡ length made }
    ensures kept { (d : Decoder) (width : ℕ) (targets : List ℤ) (b : ℕ) → Rises 0 (kept d width targets b) }
{}

/// Targets of so many blocks are whole blocks, and so many are counted.
pub fn blocks_are_counted()
    ensures count { (d : Decoder) (blocks : ℕ) (targets : List ℤ) → 0 < d.samples → AreTargets d blocks targets → block_count d targets ≡ blocks }
    ensures whole { (d : Decoder) (blocks : ℕ) (targets : List ℤ) → 0 < d.samples → AreTargets d blocks targets → AreWhole d targets }
{}
