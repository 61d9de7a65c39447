ghost use Rattle.std.specs.Prelude.{◌≡◌, ◌^◌, ◌<◌, IfOk, IsTrue, length};
ghost use Rattle.ima_machine.specs.Ima.{ima, is_align, samples_in};
ghost use Rattle.ima_wave.specs.Files.{IsImaFile};
ghost use Rattle.loop_fit.specs.Fit.{IsWhole};
ghost use Rattle.bank_kinds.specs.Kinds.{ima_codec};
ghost use Rattle.bank_check.specs.Errors.{error_in, framed_list, IsStoredError};

use crate::hearing::stored_error;
use crate::shape::framed_shape;
use command_faults::InputFault;
use ima_machine::Ima;
use ima_wave::ImaFile;
use loop_fit::Fitted;

/// The error of a WAVE file of IMA ADPCM with these blocks, where it has the shape of a fitted sound with blocks of so many bytes.
#[tactic(auto, unfolding(crate::specs::Errors::framed_list))]
pub(crate) fn framed_error(
    align: u32,
    file: &ImaFile,
    bytes: &[u8],
    fitted: &Fitted,
) -> Result<u64, InputFault>
    requires align { IsTrue (is_align align) }
    requires file { IsImaFile file.now }
    requires blocks { bytes.now ≡ file.now.blocks }
    requires small { length bytes.now < 2 ^ 31 }
    requires whole { IsWhole (samples_in align) fitted.now }
    ensures value { result ≡ error_in (ima (samples_in align)) fitted.now (framed_list align file.now fitted.now) }
    ensures stored { IfOk result (IsStoredError (ima_codec align) fitted.now (framed_list align file.now fitted.now)) }
{
    let blocks = bytes.len() as u32 / file.align;
    match framed_shape(align, file, blocks, fitted) {
        Ok(()) => {
            let targets = fitted.targets.as_slice();
            Ok(stored_error(&Ima { align }, bytes, 0, blocks, targets))
        }
        Err(fault) => Err(fault),
    }
}
