ghost use Rattle.std.specs.Prelude.{◌≡◌, ◌<◌, ℕ, suc, pos, get_or, IsTrue};
ghost use Rattle.machine_core.specs.Decoder.{run};
ghost use Rattle.brr_machine.specs.Brr.{brr, is_brr_state};
ghost use Rattle.brr_machine.specs.Spelling.{head_in, code_in};

use crate::step::brr_output;
use crate::stored::{code_at, head_at};
use machine_core::State;

/// The sixteen outputs of a stored block, from the state before it, and the state after it (fullsnes, BRR samples).
///
/// An output has 15 bits; it stands for a 16-bit sample of twice its value. The flags do not count.
pub fn decode_block(bytes: &[u8; 9], from: State) -> ([i32; 16], State)
    requires { IsTrue (is_brr_state from) }
    ensures outputs { (k : ℕ) → k < 16 → get_or result.0 k (pos 0) ≡ (run brr (head_in bytes.now 0) (code_in bytes.now 0) from (suc k)).a }
    ensures after { result.1 ≡ run brr (head_in bytes.now 0) (code_in bytes.now 0) from 16 }
    ensures range { IsTrue (is_brr_state result.1) }
{
    let head = head_at(bytes, 0);
    let mut outputs = [0i32; 16];
    let mut state = from;
    for place in 0..16 {
        let output = brr_output(head, u32::from(code_at(bytes, 0, place)), state);
        outputs[place] = output;
        state = State {
            a: output,
            b: state.a,
        };
    }
    (outputs, state)
}
