ghost use Rattle.std.specs.Prelude.{◌≡◌, ℕ, ◌*◌, ◌%◌, ◌<◌, ◌≤◌, ℤ, List, Option};
ghost use Rattle.std.specs.Int.{IsGcd};
ghost use Rattle.adpcm_nums.specs.declared.loop_at.LoopAt.{LoopAt};
ghost use Rattle.loop_fit.specs.Align.{loop_target, unroll_of};
ghost use Rattle.loop_fit.specs.Fit.{GoesRound, HasTargets, IsWhole, fit_of};
ghost use Rattle.loop_fit.specs.Source.{IsSource};
ghost use Rattle.loop_fit.specs.declared.fitted.Fitted.{Fitted};
ghost use Rattle.loop_fit.specs.declared.rule.FitRule.{FitRule};

/// What a fit keeps, for any sound that is fitted: its targets go round as the sound does, in whole blocks.
pub fn fit_keeps()
    ensures round { (samples : List ℤ) (at : Option LoopAt) (rule : FitRule) (fitted : Fitted) → IsSource samples at rule → fit_of samples at rule ≡ Ok fitted → GoesRound samples at rule fitted }
    ensures targets { (samples : List ℤ) (at : Option LoopAt) (rule : FitRule) (fitted : Fitted) → fit_of samples at rule ≡ Ok fitted → HasTargets samples at rule fitted }
    ensures whole { (samples : List ℤ) (at : Option LoopAt) (rule : FitRule) (fitted : Fitted) → IsSource samples at rule → fit_of samples at rule ≡ Ok fitted → IsWhole rule.block fitted }
{}

/// A loop is repeated as often as a block has samples, divided by what that number and the loop's length have in common.
pub fn unroll_is_quotient()
    ensures { (block len common : ℕ) → 0 < block → IsGcd len block common → unroll_of block len * common ≡ block }
{}

/// The first target of a loop is the least multiple of a block's samples that is not before the loop's first frame.
pub fn loop_target_is_least()
    ensures whole { (block : ℕ) (at : LoopAt) → 0 < block → loop_target block at % block ≡ 0 }
    ensures behind { (block : ℕ) (at : LoopAt) → at.start ≤ loop_target block at }
    ensures least { (block place : ℕ) (at : LoopAt) → 0 < block → at.start ≤ place → place % block ≡ 0 → loop_target block at ≤ place }
{}
