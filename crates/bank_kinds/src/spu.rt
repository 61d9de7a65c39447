use crate::codes::codes_of;
use crate::encode::Stored;
use adpcm_nums::NoMemory;
use spu_machine::{Spu, SpuBlock, spell_block};

impl Stored for Spu {
    ghost use Rattle.player_model.specs.SpuFormat.{spu_format};
    ghost use Rattle.bank_kinds.specs.Laws.{spu_is_stored};

    ghost format = { λ _. spu_format };

    fn output_scale(&self) -> i32 {
        1
    }

    fn block_size(&self) -> u32 {
        16
    }

    fn push_block(
        &self,
        bytes: &mut Vec<u8>,
        head: u32,
        flags: u8,
        symbols: &[u32],
    ) -> Result<(), NoMemory> {
        let codes = codes_of(symbols);
        match bytes.extend_from_slice(&spell_block(&SpuBlock { head, flags, codes })) {
            Ok(()) => Ok(()),
            Err(_) => Err(NoMemory),
        }
    }

    ghost stored = { λ _. spu_is_stored };
}
