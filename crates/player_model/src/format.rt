ghost use Rattle.std.specs.Prelude.{◌≡◌, ◌+◌, ◌^◌, ◌<◌, ◌≤◌, true, length, IsTrue};
ghost use Rattle.machine_core.specs.Decoder.{Decoder};
ghost use Rattle.block_flags.specs.Flags.{tells_end};
ghost use Rattle.player_model.specs.Format.{Format, ends, repeats, starts};
ghost use Rattle.player_model.specs.FormatLaws.{IsStoredFormat};

use block_flags::FlagSet;
use machine_core::State;

/// How the blocks of a decoder are stored, as a player reads them: one block at an address of a memory of bytes.
pub trait StoredFormat {
    /// What the decoder means.
    ghost decoder: { Decoder };

    /// How its blocks lie in a memory.
    ghost format: { Format };

    /// Bytes in a block.
    fn block_size() -> u32
        ensures value { result ≡ format.size }
        ensures some { 0 < result }
        ensures few { result ≤ 65536 };

    /// Samples in a block.
    fn block_samples() -> u32
        ensures value { result ≡ decoder.samples }
        ensures some { 0 < result }
        ensures few { result ≤ 65536 };

    /// The flags of the block at an address.
    fn flags_at(memory: &[u8], address: usize) -> FlagSet
        requires { address + format.size ≤ length memory.now }
        ensures end { result.end ≡ ends format memory.now address }
        ensures repeat { result.repeat ≡ repeats format memory.now address }
        ensures start { result.start ≡ starts format memory.now address };

    /// The state after the sample at a place of the block at an address.
    fn step_at(memory: &[u8], address: usize, place: u32, at: State) -> State
        requires fits { address + format.size ≤ length memory.now }
        requires head { format.head_in memory.now address < decoder.heads }
        requires place { place < decoder.samples }
        requires at { IsTrue (decoder.is_state at) }
        ensures value { result ≡ decoder.step (format.head_in memory.now address) place (format.symbol_in memory.now address place) at }
        ensures range { IsTrue (decoder.is_state result) };

    /// It keeps the laws of stored formats.
    ghost lawful: { IsStoredFormat decoder format };

    /// Its blocks tell where a sample ends.
    ghost has_ends: { tells_end format.kind ≡ true };
}
