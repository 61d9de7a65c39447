ghost use Rattle.std.specs.Prelude.{◌≡◌, ◌+◌, ◌^◌, ◌<◌, ◌≤◌, refl, length};

use crate::format::StoredFormat;
use block_flags::{FlagSet, flags_of};
use machine_core::{Kind, State};
use spu_machine::{Spu, code_at, flags_at, head_at, spu_output};

impl StoredFormat for Spu {
    ghost use Rattle.spu_machine.specs.Spu.{spu};
    ghost use Rattle.player_model.specs.SpuFormat.{spu_format};
    ghost use Rattle.player_model.specs.SpuLaws.{spu_stored};

    ghost decoder = { spu };

    ghost format = { spu_format };

    ghost lawful = { spu_stored };

    ghost has_ends = { refl };

    fn block_size() -> u32 {
        16
    }

    fn block_samples() -> u32 {
        28
    }

    fn flags_at(memory: &[u8], address: usize) -> FlagSet {
        flags_of(Kind::Spu, flags_at(memory, address))
    }

    #[tactic(auto, unfolding(spu_machine::specs::Spu::spu_step))]
    fn step_at(memory: &[u8], address: usize, place: u32, at: State) -> State {
        let code = code_at(memory, address, place as usize);
        State {
            a: spu_output(head_at(memory, address), u32::from(code), at),
            b: at.a,
        }
    }
}
