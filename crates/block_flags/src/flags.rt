ghost use Rattle.std.specs.Prelude.{◌≡◌, ◌≢◌};
ghost use Rattle.machine_core.specs.declared.state.Kind.{Kind};
ghost use Rattle.machine_core.specs.declared.state.Kind.TheVariants.{Ima};
ghost use Rattle.block_flags.specs.Flags.{flags_of_block, has_end, has_repeat, has_start};

use machine_core::Kind;

/// The written flags of a block of a sample, from its number, the number of blocks and the loop block (fullsnes, BRR
/// samples; PSX-SPX, SPU ADPCM samples).
///
/// The last block has the end flag, 1, and where there is a loop the repeat flag too, 2. In SPU-ADPCM the loop block
/// has the start flag, 4.
pub fn flagged(kind: Kind, block: u32, blocks: u32, loop_block: Option<u32>) -> u8
    requires { kind ≢ Ima }
    ensures { result ≡ flags_of_block kind block blocks loop_block }
{
    let end = if blocks == 0 || block != blocks - 1 {
        0
    } else if loop_block.is_some() {
        3
    } else {
        1
    };
    if kind == Kind::Spu && loop_block == Some(block) {
        end + 4
    } else {
        end
    }
}

/// The flags of a stored block.
#[derive(Clone, Copy, Debug, PartialEq, Eq)]
pub struct FlagSet {
    /// The sample ends after this block.
    pub end: bool,
    /// A sample that ends here goes on at its loop.
    pub repeat: bool,
    /// The loop begins at this block. BRR has no such flag.
    pub start: bool,
}

/// The flags in a byte: in BRR bits 0 and 1 of the header (fullsnes, BRR samples), in SPU-ADPCM bits 0, 1 and 2 of the
/// flag byte (PSX-SPX, SPU ADPCM samples).
pub fn flags_of(kind: Kind, byte: u8) -> FlagSet
    requires { kind ≢ Ima }
    ensures end { result.end ≡ has_end byte }
    ensures repeat { result.repeat ≡ has_repeat byte }
    ensures start { result.start ≡ has_start kind byte }
{
    FlagSet {
        end: byte % 2 == 1,
        repeat: byte / 2 % 2 == 1,
        start: kind == Kind::Spu && byte / 4 % 2 == 1,
    }
}
