ghost use Rattle.std.specs.Prelude.{◌≡◌, ℕ, ℤ, IsTrue, List, Option, Ok};
ghost use Rattle.adpcm_nums.specs.declared.loop_at.LoopAt.{LoopAt};
ghost use Rattle.machine_core.specs.declared.state.Kind.{Kind};
ghost use Rattle.loop_fit.specs.declared.rule.FitRule.{FitRule};
ghost use Rattle.loop_fit.specs.declared.fitted.Fitted.{Fitted};
ghost use Rattle.loop_fit.specs.Source.{IsSource};
ghost use Rattle.loop_fit.specs.Fit.{fit_of};
ghost use Rattle.ima_machine.specs.Ima.{is_align};
ghost use Rattle.bank_kinds.specs.Bound.{IsBound};
ghost use Rattle.bank_kinds.specs.Certified.{IsCertified};
ghost use Rattle.bank_kinds.specs.Codec.{Codec, IsCodec};
ghost use Rattle.bank_kinds.specs.Kinds.{codec_for};
ghost use Rattle.bank_kinds.specs.Fits.{IsFit};

use box_layers::accepted_values_hold;
use machine_core::{floors_hold, segments_make_the_whole};

/// A sound that a rule for blocks of a kind has fitted can be compiled.
pub fn fit_is_ready()
    ensures { (samples : List ℤ) (at : Option LoopAt) (rule : FitRule) (block : ℕ) (fitted : Fitted)
        → rule.block ≡ (codec_for rule.kind block).rules.decoder.samples → IsSource samples at rule → fit_of samples at rule ≡ Ok fitted → IsFit (codec_for rule.kind block) fitted }
{}

/// The codec of each kind keeps the laws of codecs.
pub fn kinds_encode()
    ensures { (kind : Kind) (block : ℕ) → IsTrue (is_align block) → IsCodec (codec_for kind block) }
{}

/// Whoever made a certificate: the bound that its bytes show of a fitted sound is at most the error of every list of blocks that may be stored for it.
pub fn certified_bounds_hold()
    ensures { (c : Codec) (fitted : Fitted) (bytes : List ℕ) (bound : ℕ) (levels : List ℕ) → IsCodec c → IsFit c fitted → IsCertified c bytes fitted bound levels → IsBound c fitted bound }
{
    accepted_values_hold();
    floors_hold();
    segments_make_the_whole();
}
