ghost use Rattle.std.specs.Prelude.{◌≡◌, ◌%◌, ◌<◌, ℕ, ℤ, true, length, List, Option, IfSome, IsTrue, Ok};
ghost use Rattle.adpcm_nums.specs.Round.{round_of};
ghost use Rattle.machine_core.specs.declared.state.State.{State};
ghost use Rattle.machine_core.specs.Decoder.{Decoder};
ghost use Rattle.machine_core.specs.Blocks.{Blocks, IsInRange, IsLegal, is_first};
ghost use Rattle.brr_machine.specs.Brr.{brr};
ghost use Rattle.block_flags.specs.Flags.{tells_end};
ghost use Rattle.player_model.specs.Format.{Format};
ghost use Rattle.player_model.specs.FormatLaws.{IsStoredFormat};
ghost use Rattle.player_model.specs.BrrFormat.{brr_format};
ghost use Rattle.player_model.specs.Player.{play};
ghost use Rattle.player_model.specs.Track.{loop_block_of};
ghost use Rattle.player_model.specs.BrrTrack.{track_of};
ghost use Rattle.spu_machine.specs.Spu.{spu};
ghost use Rattle.player_model.specs.SpuFormat.{spu_format};
ghost use Rattle.ima_machine.specs.Ima.{ima, is_align, samples_in};
ghost use Rattle.player_model.specs.ImaFormat.{ima_format};
ghost use Rattle.player_model.specs.SpuTrack.{spu_track_of};
ghost use Rattle.player_model.specs.Stored.{blocks_in};
ghost use Rattle.player_model.specs.Sound.{IsTrack};
ghost use Rattle.player_model.specs.Looped.{IsStoredAt, BeginsAnew, AreOutputs, loop_points, round_output};

/// The bytes of a list are a track of its blocks and with its loop block, and are read as the list.
pub fn stored_is_track()
    ensures track { (d : Decoder) (f : Format) (memory : List ℕ) (start again : ℕ) (list : Blocks) (blocks : ℕ) (loop_block : Option ℕ) → IsStoredFormat d f → tells_end f.kind ≡ true → IsInRange d blocks list → IsStoredAt d f memory start again list blocks loop_block → IsTrack d f (record { memory = memory; start = start; again = again; blocks = blocks }) }
    ensures loop_block { (d : Decoder) (f : Format) (memory : List ℕ) (start again : ℕ) (list : Blocks) (blocks : ℕ) (loop_block : Option ℕ) → IsStoredFormat d f → tells_end f.kind ≡ true → IsInRange d blocks list → IsStoredAt d f memory start again list blocks loop_block → loop_block_of f (record { memory = memory; start = start; again = again; blocks = blocks }) ≡ loop_block }
    ensures read { (d : Decoder) (f : Format) (memory : List ℕ) (start again : ℕ) (list : Blocks) (blocks : ℕ) (loop_block : Option ℕ) → IsStoredFormat d f → IsInRange d blocks list → IsStoredAt d f memory start again list blocks loop_block → blocks_in d f memory start blocks ≡ list }
{}

/// The bytes of a list of BRR are read as the track of its blocks.
pub fn stored_is_brr_track()
    ensures { (memory : List ℕ) (start again : ℕ) (list : Blocks) (blocks : ℕ) (loop_block : Option ℕ) → IsInRange brr blocks list → IsStoredAt brr brr_format memory start again list blocks loop_block → track_of memory start again ≡ Ok (record { memory = memory; start = start; again = again; blocks = blocks }) }
{}

/// The bytes of a list of SPU-ADPCM, and then whole blocks of any bytes, are read as the track of its blocks.
pub fn stored_is_spu_track()
    ensures { (bytes : List ℕ) (list : Blocks) (blocks : ℕ) (loop_block : Option ℕ) → IsInRange spu blocks list → length bytes % 16 ≡ 0 → IsStoredAt spu spu_format bytes 0 0 list blocks loop_block → spu_track_of bytes ≡ Ok (record { memory = bytes; start = 0; again = 0; blocks = blocks }) }
{}

/// The player of the bytes of a list, whose first block and loop block forget what was played before, gives the outputs
/// of the list, and then its loop for ever, or silence, whatever the history at the player's start and at the list's.
pub fn stored_plays_round()
    ensures outputs { (d : Decoder) (f : Format) (memory : List ℕ) (start again : ℕ) (list : Blocks) (blocks : ℕ) (loop_block : Option ℕ) (history from : State) (i : ℕ) → IsStoredFormat d f → tells_end f.kind ≡ true → IsInRange d blocks list → BeginsAnew d list loop_block → IsStoredAt d f memory start again list blocks loop_block → play d f memory start again history i ≡ round_output d list from blocks loop_block i }
    ensures listed { (d : Decoder) (f : Format) (memory : List ℕ) (start again : ℕ) (list : Blocks) (blocks : ℕ) (loop_block : Option ℕ) (history from : State) (outputs : List ℤ) (i : ℕ) → IsStoredFormat d f → tells_end f.kind ≡ true → IsInRange d blocks list → BeginsAnew d list loop_block → IsStoredAt d f memory start again list blocks loop_block → AreOutputs d list from blocks outputs → play d f memory start again history i ≡ round_of outputs (loop_points d blocks loop_block) i }
{}

/// A legal list, whose first block and loop block must forget what was played before, does.
pub fn legal_begins_anew()
    ensures { (d : Decoder) (list : Blocks) (blocks : ℕ) (loop_block : Option ℕ) → IsLegal d blocks (is_first loop_block) list → 0 < blocks → IfSome loop_block (λ l. l < blocks) → BeginsAnew d list loop_block }
{}

/// IMA ADPCM is a stored format, whatever the size of its blocks: what is stored is read again.
pub fn ima_is_stored()
    ensures { (align : ℕ) → IsTrue (is_align align) → IsStoredFormat (ima (samples_in align)) (ima_format align) }
{}
