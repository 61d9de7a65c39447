ghost use Rattle.std.specs.Prelude.{◌≡◌, ◌<◌, ℕ, List, length, get_or, Ok};
ghost use Rattle.machine_core.specs.declared.state.Kind.{Kind};
ghost use Rattle.machine_core.specs.declared.state.Kind.TheVariants.{Brr, Spu, Ima};
ghost use Rattle.loop_fit.specs.declared.fitted.Fitted.{Fitted};
ghost use Rattle.snes_directory.specs.declared.image.Image.{Image};
ghost use Rattle.snes_directory.specs.Reading.{image_of};
ghost use Rattle.manifest_reader.specs.Stored.{first_pass_of};
ghost use Rattle.bank_kinds.specs.Replay.{SampleReplays};
ghost use Rattle.decompile_core.specs.declared.recovered.Recovered.{Recovered};
ghost use Rattle.decompile_core.specs.Decompiled.{decompiled};
ghost use Rattle.tool_decompile.specs.Decompile.{form_of};
ghost use Rattle.bank_tool.specs.GivenBack.{file_with, place_in, IsCompiledAt, IsFirstPass};

use decompile_core::{entries_are, given_back};

/// A sample of a bank that was compiled is taken apart into just its stored first pass, with its rate and loop. It settles at
/// playing 0, or has no loop.
pub fn compiled_is_given_back()
    ensures image { (block : ℕ) (content : List ℕ → List ℕ) (bank name : List ℕ) (j rate : ℕ) (fitted : Fitted) (error : ℕ) (entries : List Recovered) (other : Recovered)
        → SampleReplays Brr block content bank name j rate fitted error → decompiled (form_of Brr) (content (file_with Brr bank name)) ≡ Ok entries
        → IsFirstPass (content (first_pass_of bank name)) rate (get_or entries (place_in Brr j) other) }
    ensures vag { (block : ℕ) (content : List ℕ → List ℕ) (bank name : List ℕ) (j rate : ℕ) (fitted : Fitted) (error : ℕ) (entries : List Recovered) (other : Recovered)
        → SampleReplays Spu block content bank name j rate fitted error → decompiled (form_of Spu) (content (file_with Spu bank name)) ≡ Ok entries
        → IsFirstPass (content (first_pass_of bank name)) rate (get_or entries (place_in Spu j) other) }
    ensures ima { (block : ℕ) (content : List ℕ → List ℕ) (bank name : List ℕ) (j rate : ℕ) (fitted : Fitted) (error : ℕ) (entries : List Recovered) (other : Recovered)
        → SampleReplays Ima block content bank name j rate fitted error → decompiled (form_of Ima) (content (file_with Ima bank name)) ≡ Ok entries
        → IsFirstPass (content (first_pass_of bank name)) rate (get_or entries (place_in Ima j) other) }
    // And it is taken apart: no sample that was compiled is too long.
    ensures image_comes { (block : ℕ) (content : List ℕ → List ℕ) (bank : List ℕ) (image : Image) → image_of (content bank) ≡ Ok image
        → ((j : ℕ) → j < length image.starts → IsCompiledAt Brr block content bank j) → (entries : List Recovered) × (decompiled (form_of Brr) (content bank) ≡ Ok entries) × (length entries ≡ length image.starts) }
    ensures vag_comes { (block : ℕ) (content : List ℕ → List ℕ) (bank : List ℕ) (j : ℕ) (sample : IsCompiledAt Spu block content bank j)
        → (entries : List Recovered) × (decompiled (form_of Spu) (content (file_with Spu bank sample.name)) ≡ Ok entries) × (length entries ≡ 1) }
    ensures ima_comes { (block : ℕ) (content : List ℕ → List ℕ) (bank : List ℕ) (j : ℕ) (sample : IsCompiledAt Ima block content bank j)
        → (entries : List Recovered) × (decompiled (form_of Ima) (content (file_with Ima bank sample.name)) ≡ Ok entries) × (length entries ≡ 1) }
{
    entries_are();
    given_back();
}
