ghost use Rattle.std.specs.Prelude.{◌≡◌, ◌<◌, All, length};

use crate::encode::Stored;
use adpcm_nums::NoMemory;
use ima_machine::Ima;

/// Writes codes as bytes.
fn put_codes(symbols: &[u32], codes: &mut [u8])
    requires count { length symbols.now ≡ length codes.old }
    requires range { All (λ c. c < 16) symbols.now }
    ensures { codes.new ≡ symbols.now }
{
    for place in 0..symbols.len() {
        codes[place] = symbols[place] as u8;
    }
}

impl Stored for Ima {
    ghost use Rattle.player_model.specs.ImaFormat.{ima_format};
    ghost use Rattle.bank_kinds.specs.Laws.{ima_is_stored};

    ghost format = { λ m. ima_format m.align };

    fn output_scale(&self) -> i32 {
        1
    }

    fn block_size(&self) -> u32 {
        self.align
    }

    // Blocks have no flags; the first symbol is the first output, counted from -32768.
    fn push_block(
        &self,
        bytes: &mut Vec<u8>,
        head: u32,
        _flags: u8,
        symbols: &[u32],
    ) -> Result<(), NoMemory> {
        let align = self.align as usize;
        let mut codes = [0u8; 2040];
        let mut block = [0u8; 1024];
        put_codes(&symbols[1..], &mut codes[..2 * (align - 4)]);
        let first = symbols[0] as i32 - 32768;
        self.spell_block(first, head, &codes[..2 * (align - 4)], &mut block[..align]);
        match bytes.extend_from_slice(&block[..align]) {
            Ok(()) => Ok(()),
            Err(_) => Err(NoMemory),
        }
    }

    ghost stored = { λ m. ima_is_stored m.align m.fits };
}
