ghost use Rattle.std.specs.Prelude.{◌≡◌, ◌-◌, ◌*◌, ◌<◌, ℕ, suc, pos, length, get_or, All, IfOk, IfErr, Some, None};
ghost use Rattle.adpcm_nums.specs.Sample.{IsSample};
ghost use Rattle.machine_core.specs.Decoder.{run, start};
ghost use Rattle.ima_machine.specs.Ima.{ima, samples_in};
ghost use Rattle.ima_machine.specs.Spelling.{word_of, symbol_of, spelling, head_in, symbol_in};
ghost use Rattle.ima_machine.specs.Faults.{fault_in};

use crate::fault::ImaFault;
use crate::head::check_head;
use crate::machine::Ima;
use crate::step::{first_state, later_state, own_symbol};
use crate::stored::{code_at, first_at, head_at};
use byteorder::{ByteOrder, LittleEndian};

/// A block's first output as 16 bits hold it.
fn word(predictor: i32) -> u16
    requires { IsSample predictor }
    ensures { result ≡ word_of (symbol_of predictor) }
{
    ((own_symbol(predictor) + 32768) % 65536) as u16
}

impl Ima {
    /// The outputs of a block whose head is in range.
    fn decode_outputs(&self, bytes: &[u8], out: &mut [i32])
        requires bytes { length bytes.now ≡ self.now.align }
        requires out { length out.old ≡ samples_in self.now.align }
        requires head { head_in bytes.now 0 < 89 }
        ensures { (p : ℕ) → p < samples_in self.now.align → get_or out.new p (pos 0) ≡ (run (ima (samples_in self.now.align)) (head_in bytes.now 0) (symbol_in bytes.now 0) start (suc p)).a }
    {
        let mut state = first_state(head_at(bytes, 0), first_at(bytes, 0));
        out[0] = state.a;
        for place in 1..out.len() {
            state = later_state(u32::from(code_at(bytes, 0, place - 1)), state);
            out[place] = state.a;
        }
    }

    /// Writes the outputs of a stored block of `align` bytes to `out`, one for each of its `2*(align - 4) + 1` samples (IMA
    /// recommended practices, 1992). No block depends on what was played before it.
    ///
    /// # Errors
    /// An index above 88, then a fourth byte that is not 0; `out` is as it was.
    pub fn decode_block(&self, bytes: &[u8], out: &mut [i32]) -> Result<(), ImaFault>
        requires bytes { length bytes.now ≡ self.now.align }
        requires out { length out.old ≡ samples_in self.now.align }
        ensures outputs { IfOk result (λ _. (p : ℕ) → p < samples_in self.now.align → get_or out.new p (pos 0) ≡ (run (ima (samples_in self.now.align)) (head_in bytes.now 0) (symbol_in bytes.now 0) start (suc p)).a) }
        ensures sound { IfOk result (λ _. fault_in bytes.now 0 ≡ None) }
        ensures fault { IfErr result (λ e. fault_in bytes.now 0 ≡ Some e) }
        ensures same { IfErr result (λ _. out.new ≡ out.old) }
    {
        check_head(bytes, 0)?;
        self.decode_outputs(bytes, out);
        Ok(())
    }

    /// Writes the bytes of a block with this first output, this step index and these codes to `out` (IMA recommended
    /// practices, 1992): two codes for each byte of `align` behind the first four.
    pub fn spell_block(&self, predictor: i32, index: u32, codes: &[u8], out: &mut [u8])
        requires predictor { IsSample predictor }
        requires index { index < 89 }
        requires count { length codes.now ≡ 2 * (self.now.align - 4) }
        requires codes { All (λ c. c < 16) codes.now }
        requires out { length out.old ≡ self.now.align }
        ensures { out.new ≡ spelling index (symbol_of predictor) codes.now }
    {
        LittleEndian::write_u16(out, word(predictor));
        out[2] = index as u8;
        out[3] = 0;
        for k in 0..codes.len() / 2 {
            out[4 + k] = codes[2 * k] + 16 * codes[2 * k + 1];
        }
    }
}
