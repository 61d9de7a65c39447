ghost use Rattle.std.specs.Prelude.{◌≡◌, ◌<◌, IsTrue};
ghost use Rattle.adpcm_nums.specs.Sample.{IsSample};
ghost use Rattle.machine_core.specs.Nearest.{taken};
ghost use Rattle.brr_machine.specs.Brr.{brr, is_brr_state, shift_of, filter_of, prediction_of};

use crate::filter::predict;
use crate::nearest::{Codes, output_cost};
use machine_core::{State, Taken};

/// The codes of a head after a state.
pub(crate) fn codes_after(head: u32, from: State, target: i32) -> Codes
    requires head { head < 64 }
    requires from { IsTrue (is_brr_state from) }
    requires target { IsSample target }
    ensures shift { result.shift ≡ shift_of head }
    ensures prediction { result.prediction ≡ prediction_of (filter_of head) from.a from.b }
    ensures target { result.target ≡ target }
{
    Codes {
        shift: head / 4,
        prediction: predict(head % 4, from.a, from.b),
        target,
    }
}

/// The first code of least cost after a state, the state that it leads to and its cost, from one prediction.
pub(crate) fn taken_from(head: u32, from: State, target: i32) -> Taken
    requires head { head < 64 }
    requires from { IsTrue (is_brr_state from) }
    requires target { IsSample target }
    ensures { result ≡ taken brr head 0 from target }
{
    let codes = codes_after(head, from, target);
    let symbol = codes.nearest();
    let output = codes.output(symbol);
    Taken {
        symbol,
        state: State {
            a: output,
            b: from.a,
        },
        cost: output_cost(output, target),
    }
}
