ghost use Rattle.std.specs.Prelude.{◌≡◌, ◌+◌, ◌^◌, ◌<◌, ◌≤◌, refl, length};

use crate::format::StoredFormat;
use block_flags::{FlagSet, flags_of};
use brr_machine::{Brr, brr_output, code_at, flags_at, head_at};
use machine_core::{Kind, State};

impl StoredFormat for Brr {
    ghost use Rattle.brr_machine.specs.Brr.{brr};
    ghost use Rattle.player_model.specs.BrrFormat.{brr_format};
    ghost use Rattle.player_model.specs.BrrLaws.{brr_stored};

    ghost decoder = { brr };

    ghost format = { brr_format };

    ghost lawful = { brr_stored };

    ghost has_ends = { refl };

    fn block_size() -> u32 {
        9
    }

    fn block_samples() -> u32 {
        16
    }

    fn flags_at(memory: &[u8], address: usize) -> FlagSet {
        flags_of(Kind::Brr, flags_at(memory, address))
    }

    #[tactic(auto, unfolding(brr_machine::specs::Brr::brr_step))]
    fn step_at(memory: &[u8], address: usize, place: u32, at: State) -> State {
        let code = code_at(memory, address, place as usize);
        State {
            a: brr_output(head_at(memory, address), u32::from(code), at),
            b: at.a,
        }
    }
}
