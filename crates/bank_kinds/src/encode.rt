ghost use Rattle.std.specs.Prelude.{◌≡◌, ◌<◌, ◌++◌, ℕ, List, Option, OnOk, IfOk, IfSome, pos};
ghost use Rattle.block_flags.specs.Flags.{flag_bound};
ghost use Rattle.machine_core.specs.Blocks.{Blocks, IsInRange};
ghost use Rattle.player_model.specs.Format.{Format};
ghost use Rattle.player_model.specs.FormatLaws.{FitsBlock};
ghost use Rattle.bank_kinds.specs.Chosen.{list_of};
ghost use Rattle.bank_kinds.specs.Codec.{codec_of, IsCodec, IsStoredCodec};

use crate::spell::spell_blocks;
use adpcm_nums::{Bytes, NoMemory};
use machine_core::{Choice, Machine};
use std::alloc::Global;

/// A decoder whose blocks can be stored in a bank.
pub trait Encode: Machine {
    /// The bytes that are stored of a list, of so many blocks and with this loop block.
    ghost bytes: { Self → Blocks → ℕ → Option ℕ → List ℕ };

    /// What an output is multiplied by to be a sample of 16 bits.
    fn scale(&self) -> i32
        ensures { result ≡ pos (Self.rules self.now).decoder.scale };

    /// The stored bytes of a list of blocks.
    fn spell(
        &self,
        alloc: Global,
        choice: &Choice,
        blocks: u32,
        loop_block: Option<u32>,
    ) -> Result<Bytes, NoMemory>
        requires in_range { IsInRange (Self.rules self.now).decoder blocks (list_of choice.now) }
        requires loop_block { IfSome loop_block (λ l. l < blocks) }
        ensures { IfOk result (λ all. all ≡ bytes self.now (list_of choice.now) blocks loop_block) };

    /// It keeps the laws of codecs.
    ghost encodes: { (m : Self) → IsCodec (codec_of (Self.rules m) (bytes m)) };
}

/// A decoder whose blocks are stored in a format.
pub trait Stored: Machine {
    /// How its blocks are stored.
    ghost format: { Self → Format };

    /// What an output is multiplied by to be a sample of 16 bits.
    fn output_scale(&self) -> i32
        ensures { result ≡ pos (Self.rules self.now).decoder.scale };

    /// Bytes in a stored block.
    fn block_size(&self) -> u32
        ensures { result ≡ (format self.now).size };

    /// Adds the bytes of a block.
    fn push_block(
        &self,
        bytes: &mut Vec<u8>,
        head: u32,
        flags: u8,
        symbols: &[u32],
    ) -> Result<(), NoMemory>
        requires fits { FitsBlock (Self.rules self.now).decoder head symbols.now }
        requires flags { flags < flag_bound (format self.now).kind }
        ensures { OnOk result (bytes.new.items ≡ bytes.old.items ++ (format self.now).spelling head flags symbols.now) };

    /// It keeps the laws of codecs whose blocks are stored in a format.
    ghost stored: { (m : Self) → IsStoredCodec (Self.rules m) (format m) };
}

// Blocks that are stored in a format are spelled one after another.
impl<S: Stored> Encode for S {
    ghost use Rattle.bank_kinds.specs.Codec.{stored_codec};

    ghost bytes = { λ m. (stored_codec (S.rules m) (S.format m)).bytes };

    fn scale(&self) -> i32 {
        self.output_scale()
    }

    fn spell(
        &self,
        alloc: Global,
        choice: &Choice,
        blocks: u32,
        loop_block: Option<u32>,
    ) -> Result<Bytes, NoMemory> {
        spell_blocks(alloc, self, choice, blocks, loop_block)
    }

    ghost encodes = { λ m. (S.stored m).codec };
}
