ghost use Rattle.std.specs.Prelude.{◌≡◌, ℕ, ◌+◌, ◌*◌, ◌<◌, ◌≤◌, ℤ, true, List, Some, Bool};
ghost use Rattle.machine_core.specs.declared.state.State.{State};
ghost use Rattle.machine_core.specs.Decoder.{Decoder, Forgets, miss};
ghost use Rattle.machine_core.specs.Blocks.{Blocks, IsInRange, IsLegal, is_first, first_only};
ghost use Rattle.machine_core.specs.Sums.{sum_after, sum_of};
ghost use Rattle.machine_core.specs.Rules.{Rules};
ghost use Rattle.machine_core.specs.Floors.{floors_from, floor_of_blocks};
ghost use Rattle.machine_core.specs.Segments.{part_of, part_targets, IsSegment, AreSegments, AreLegal, segment_sums, segment_floors};

/// A sample without a loop is one segment; with a loop block it is the blocks before that block, and those from it on.
/// Where every block must forget, as in IMA ADPCM, each block is one.
pub fn samples_have_segments()
    ensures whole { (count : ℕ) → IsSegment first_only 0 count }
    ensures front { (loop_block : ℕ) → IsSegment (is_first (Some loop_block)) 0 loop_block }
    ensures looped { (loop_block count : ℕ) → IsSegment (is_first (Some loop_block)) loop_block count }
    ensures each { (fixed : ℕ → Bool) (b : ℕ) → ((k : ℕ) → fixed k ≡ true) → IsSegment fixed b 1 }
{}

/// A segment of a legal list is legal as a list of its own, and costs alone what it costs in the whole, from whatever state the whole comes to it.
pub fn segments_stand_alone()
    ensures legal { (d : Decoder) (blocks : ℕ) (fixed : ℕ → Bool) (list : Blocks) (b count : ℕ) → 0 < d.samples → IsLegal d blocks fixed list
        → b + count ≤ blocks → IsSegment fixed b count → IsLegal d count first_only (part_of d list b count) }
    ensures sum { (d : Decoder) (blocks : ℕ) (fixed : ℕ → Bool) (list : Blocks) (targets : List ℤ) (b count : ℕ) (at : State) → Forgets d → IsLegal d blocks fixed list
        → b + count ≤ blocks → IsSegment fixed b count
        → sum_of d (part_of d list b count) (part_targets d targets b count) count ≡ sum_after d (miss d targets) list at (b * d.samples) (count * d.samples) }
    ensures floor { (r : Rules) (fixed : ℕ → Bool) (targets : List ℤ) (b count : ℕ) → IsSegment fixed b count
        → floor_of_blocks r first_only (part_targets r.decoder targets b count) count ≡ floors_from r fixed targets b count }
{}

/// The segments of a sample make up the whole: a list is legal exactly where each of its segments is, and its error and its floor are the sums of theirs.
pub fn segments_make_the_whole()
    ensures legal { (d : Decoder) (blocks : ℕ) (fixed : ℕ → Bool) (list : Blocks) (counts : List ℕ) → 0 < d.samples → IsLegal d blocks fixed list
        → AreSegments fixed 0 counts blocks → AreLegal d list 0 counts }
    ensures whole { (d : Decoder) (blocks : ℕ) (fixed : ℕ → Bool) (list : Blocks) (counts : List ℕ) → IsInRange d blocks list
        → AreSegments fixed 0 counts blocks → AreLegal d list 0 counts → IsLegal d blocks fixed list }
    ensures sum { (d : Decoder) (blocks : ℕ) (fixed : ℕ → Bool) (list : Blocks) (targets : List ℤ) (counts : List ℕ) → Forgets d → IsLegal d blocks fixed list
        → AreSegments fixed 0 counts blocks → sum_of d list targets blocks ≡ segment_sums d list targets 0 counts }
    ensures floor { (r : Rules) (blocks : ℕ) (fixed : ℕ → Bool) (targets : List ℤ) (counts : List ℕ)
        → AreSegments fixed 0 counts blocks → floor_of_blocks r fixed targets blocks ≡ segment_floors r targets 0 counts }
{}
