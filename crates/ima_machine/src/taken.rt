ghost use Rattle.std.specs.Prelude.{◌≡◌, ◌<◌, ◌+ℤ◌, ◌*ℤ◌, ◌-ℤ◌, IsTrue, pos};
ghost use Rattle.adpcm_nums.specs.Nums.{square_of};
ghost use Rattle.adpcm_nums.specs.Sample.{IsSample};
ghost use Rattle.ima_machine.specs.Ima.{first_state, is_ima_state};
ghost use Rattle.ima_machine.specs.Nearest.{later_taken};

use crate::costs::output_cost;
use crate::nearest::nearest_code;
use crate::step::{first_state, later_state, own_symbol};
use machine_core::{State, Taken};

/// The target as a block's first output, which costs nothing.
pub(crate) fn take_first(head: u32, target: i32) -> Taken
    requires head { head < 89 }
    requires target { IsSample target }
    ensures symbol { pos result.symbol ≡ target +ℤ pos 32768 }
    ensures range { result.symbol < 65536 }
    ensures state { result.state ≡ first_state head result.symbol }
    ensures cost { result.cost ≡ square_of (pos 1 *ℤ (first_state head result.symbol).a -ℤ target) }
{
    let symbol = own_symbol(target);
    let state = first_state(head, symbol);
    Taken {
        symbol,
        state,
        cost: output_cost(state.a, target),
    }
}

/// The first code of least cost after a state, the state that it leads to and its cost.
#[tactic(auto, unfolding(crate::specs::Nearest::later_cost))]
pub(crate) fn take_later(from: State, target: i32) -> Taken
    requires from { IsTrue (is_ima_state from) }
    requires target { IsSample target }
    ensures { result ≡ later_taken from target }
{
    let symbol = nearest_code(from, target);
    let state = later_state(symbol, from);
    Taken {
        symbol,
        state,
        cost: output_cost(state.a, target),
    }
}
