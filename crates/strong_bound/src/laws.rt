ghost use Rattle.std.specs.Prelude.{◌≡◌, ℕ, ◌*◌, ◌<◌, ℤ, pos, Bool, List, drop, get_or};
ghost use Rattle.machine_core.specs.Decoder.{start};
ghost use Rattle.machine_core.specs.Blocks.{Blocks, IsInRange, state_at};
ghost use Rattle.machine_core.specs.Sums.{cost_at};
ghost use Rattle.linear_machine.specs.Linear.{Linear, IsLinear};
ghost use Rattle.block_bounds.specs.Outputs.{Outputs};
ghost use Rattle.strong_bound.specs.Counted.{own_count, AreTargets};

/// The outputs of a block of a list come one after another under the block's head, at what its window counts of their
/// samples.
pub fn blocks_give_outputs()
    ensures { (l : Linear) (list : Blocks) (targets block : List ℤ) (leaving : Bool) (blocks b : ℕ) → IsLinear l → IsInRange l.decoder blocks list → b < blocks
        → AreTargets l.decoder.samples targets b block
        → Outputs (l.windows (get_or list.heads b 0)) leaving (drop 2 block) (get_or block 0 (pos 0)) (get_or block 1 (pos 0))
        (state_at l.decoder list start (b * l.decoder.samples)).b (state_at l.decoder list start (b * l.decoder.samples)).a
        (own_count leaving (cost_at l.decoder list targets) (b * l.decoder.samples) l.decoder.samples) }
{}
