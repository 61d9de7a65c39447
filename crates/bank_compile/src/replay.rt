ghost use Rattle.std.specs.Prelude.{◌≡◌, ◌≤◌, ℕ, IsTrue, List, All, length, slice_get, Some, Ok};
ghost use Rattle.host_files.specs.declared.named_file.NamedFile.{NamedFile};
ghost use Rattle.machine_core.specs.declared.state.Kind.{Kind};
ghost use Rattle.loop_fit.specs.declared.fitted.Fitted.{Fitted};
ghost use Rattle.ima_machine.specs.Ima.{is_align};
ghost use Rattle.manifest_reader.specs.Stored.{cert_name_of};
ghost use Rattle.bank_kinds.specs.Certified.{IsCertified};
ghost use Rattle.bank_compile.specs.declared.sample.SampleOut.{SampleOut};
ghost use Rattle.bank_kinds.specs.Kinds.{codec_for};
ghost use Rattle.manifest_reader.specs.declared.effort.Effort.{Effort};
ghost use Rattle.bank_compile.specs.Sample.{IsCompiled};
ghost use Rattle.bank_compile.specs.Bank.{IsOut, bank_of};
ghost use Rattle.bank_kinds.specs.Replay.{IsHeld, SampleReplays};

/// A stored bank sounds as its samples were fitted: whatever was found for sample j, where each file of the bank is held under its name, the
/// files replay the sound that was fitted, with its rate and with the error that is told of it; and its certificate shows the bound that is told.
pub fn stored_bank_replays()
    ensures replays { (kind : Kind) (block : ℕ) (content : List ℕ → List ℕ) (bank : List ℕ) (base : ℕ) (outs : List SampleOut) (files : List NamedFile)
        (j : ℕ) (out : SampleOut) (effort : Effort) (name : List ℕ) (rate : ℕ) (fitted : Fitted)
        → IsTrue (is_align block) → length outs ≤ 64 → All (IsOut (codec_for kind block)) outs → bank_of kind block bank base outs ≡ Ok files
        → All (IsHeld content) files → slice_get outs j ≡ Some out → IsCompiled (codec_for kind block) effort name rate fitted out
        → SampleReplays kind block content bank name j rate fitted out.report.error }
    ensures certified { (kind : Kind) (block : ℕ) (content : List ℕ → List ℕ) (bank : List ℕ) (base : ℕ) (outs : List SampleOut) (files : List NamedFile)
        (j : ℕ) (out : SampleOut) (effort : Effort) (name : List ℕ) (rate : ℕ) (fitted : Fitted)
        → IsTrue (is_align block) → All (IsOut (codec_for kind block)) outs → bank_of kind block bank base outs ≡ Ok files
        → All (IsHeld content) files → slice_get outs j ≡ Some out → IsCompiled (codec_for kind block) effort name rate fitted out
        → IsCertified (codec_for kind block) (content (cert_name_of bank name)) fitted out.report.bound out.report.levels }
{}
