ghost use Rattle.std.specs.Prelude.{◌≡◌, ◌-◌, ◌*◌, ◌<◌, ◌∷◌, [], ℕ, ℤ, pos, false, List, length, get_or, IfSome, Ok};
ghost use Rattle.machine_core.specs.Decoder.{Decoder, start};
ghost use Rattle.machine_core.specs.Blocks.{output_at};
ghost use Rattle.spu_machine.specs.Spu.{spu};
ghost use Rattle.ima_machine.specs.Ima.{samples_in};
ghost use Rattle.player_model.specs.Format.{Format};
ghost use Rattle.player_model.specs.SpuFormat.{spu_format};
ghost use Rattle.player_model.specs.SpuTrack.{spu_track_of};
ghost use Rattle.player_model.specs.ImaTrack.{ImaSound, blocks_of, decoder_of, list_of, ima_track_of};
ghost use Rattle.player_model.specs.Looped.{loop_points};
ghost use Rattle.player_model.specs.Sound.{heard};
ghost use Rattle.player_model.specs.Track.{Track, loop_block_of};
ghost use Rattle.snes_directory.specs.declared.image.Image.{Image};
ghost use Rattle.snes_directory.specs.Reading.{image_of};
ghost use Rattle.vag_writer.specs.declared.vag.Vag.{Vag as VagFile};
ghost use Rattle.vag_writer.specs.Reading.{vag_of};
ghost use Rattle.ima_wave.specs.declared.file.ImaFile.{ImaFile};
ghost use Rattle.ima_wave.specs.Reading.{ima_of};
ghost use Rattle.decompile_core.specs.declared.form.Form.{Form};
ghost use Rattle.decompile_core.specs.declared.form.Form.TheVariants.{Brr, Vag, Ima};
ghost use Rattle.decompile_core.specs.declared.recovered.Recovered.{Recovered};
ghost use Rattle.player_model.specs.Limit.{is_much};
ghost use Rattle.decompile_core.specs.Recovered.{stored_recovered, sound_recovered};
ghost use Rattle.decompile_core.specs.Decompiled.{decompiled};
ghost use Rattle.decompile_core.specs.Heard.{AreEntries, IsHeard, IsShort, SoundsAs, first_pass, sound_of};

/// An entry that was taken apart sounds as its player for ever, where it settles or has no loop.
pub fn sounds_for_ever()
    ensures { (form : Form) (bytes : List ℕ) (entries : List Recovered) (j : ℕ) (other : Recovered) → decompiled form bytes ≡ Ok entries → j < length entries → IsHeard form bytes j (get_or entries j other) }
{}

/// A player that gives a first pass and then its loop for ever is taken apart into that first pass with that loop, and settles
/// at playing 0. Frames of IMA ADPCM are taken apart into just those frames with their loop.
pub fn given_back()
    ensures stored { (d : Decoder) (f : Format) (rate trailing : ℕ) (t : Track) (first : List ℤ) → 0 < d.scale → 0 < d.samples → IfSome (loop_block_of f t) (λ l. l < t.blocks) → length first ≡ t.blocks * d.samples → SoundsAs first (loop_points d t.blocks (loop_block_of f t)) d.scale (heard d f t) → stored_recovered d f rate trailing t ≡ first_pass rate first (loop_points d t.blocks (loop_block_of f t)) trailing }
    ensures frames { (rate : ℕ) (t : ImaSound) (first : List ℤ) → length first ≡ t.frames → ((k : ℕ) → k < t.frames → get_or first k (pos 0) ≡ output_at (decoder_of t) (list_of t) start k) → sound_recovered rate t.loop_at t ≡ first_pass rate first t.loop_at 0 }
{}

/// What the entries of a file are, one by one, and that they come where none is too long.
pub fn entries_are()
    ensures image { (bytes : List ℕ) (image : Image) (entries : List Recovered) → image_of bytes ≡ Ok image → decompiled Brr bytes ≡ Ok entries → AreEntries image (length image.starts) entries }
    ensures image_comes { (bytes : List ℕ) (image : Image) → image_of bytes ≡ Ok image → ((j : ℕ) → j < length image.starts → IsShort image j) → (entries : List Recovered) × (decompiled Brr bytes ≡ Ok entries) }
    ensures vag { (bytes : List ℕ) (vag : VagFile) (t : Track) → vag_of bytes ≡ Ok vag → spu_track_of vag.blocks ≡ Ok t → is_much t.blocks spu.samples ≡ false → decompiled Vag bytes ≡ Ok (stored_recovered spu spu_format vag.rate (length vag.blocks - 16 * t.blocks) t ∷ []) }
    ensures ima { (bytes : List ℕ) (file : ImaFile) (t : ImaSound) → ima_of bytes ≡ Ok file → ima_track_of (sound_of file) ≡ Ok t → is_much (blocks_of t) (samples_in file.align) ≡ false → decompiled Ima bytes ≡ Ok (sound_recovered file.rate file.at t ∷ []) }
{}
