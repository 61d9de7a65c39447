use crate::codes::codes_of;
use crate::encode::Stored;
use adpcm_nums::NoMemory;
use brr_machine::{Brr, BrrBlock, spell_block};

impl Stored for Brr {
    ghost use Rattle.player_model.specs.BrrFormat.{brr_format};
    ghost use Rattle.bank_kinds.specs.Laws.{brr_is_stored};

    ghost format = { λ _. brr_format };

    fn output_scale(&self) -> i32 {
        2
    }

    fn block_size(&self) -> u32 {
        9
    }

    fn push_block(
        &self,
        bytes: &mut Vec<u8>,
        head: u32,
        flags: u8,
        symbols: &[u32],
    ) -> Result<(), NoMemory> {
        let codes = codes_of(symbols);
        match bytes.extend_from_slice(&spell_block(&BrrBlock { head, flags, codes })) {
            Ok(()) => Ok(()),
            Err(_) => Err(NoMemory),
        }
    }

    ghost stored = { λ _. brr_is_stored };
}
