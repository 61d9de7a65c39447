ghost use Rattle.std.specs.Prelude.{◌≡◌, ◌<◌, ℕ, suc, pos, get_or, IsTrue};
ghost use Rattle.machine_core.specs.Decoder.{run};
ghost use Rattle.spu_machine.specs.Spu.{spu, is_spu_state};

use crate::block::SpuBlock;
use crate::step::spu_output;
use machine_core::State;

/// The 28 outputs of a block, from the state before it, and the state after it (PSX-SPX, SPU ADPCM samples).
///
/// The flags do not count.
pub fn decode_block(block: &SpuBlock, from: State) -> ([i32; 28], State)
    requires { IsTrue (is_spu_state from) }
    ensures outputs { (k : ℕ) → k < 28 → get_or result.0 k (pos 0) ≡ (run spu block.now.head (λ p. get_or block.now.codes p 0) from (suc k)).a }
    ensures after { result.1 ≡ run spu block.now.head (λ p. get_or block.now.codes p 0) from 28 }
    ensures range { IsTrue (is_spu_state result.1) }
{
    let mut outputs = [0i32; 28];
    let mut state = from;
    for place in 0..28 {
        let output = spu_output(block.head, u32::from(block.codes[place]), state);
        outputs[place] = output;
        state = State {
            a: output,
            b: state.a,
        };
    }
    (outputs, state)
}
