ghost use Rattle.std.specs.Prelude.{◌≡◌, ◌<◌, ◌^◌, IfOk, IsTrue, length};
ghost use Rattle.adpcm_nums.specs.Outcome.{Gives};
ghost use Rattle.brr_machine.specs.Brr.{brr};
ghost use Rattle.spu_machine.specs.Spu.{spu};
ghost use Rattle.ima_machine.specs.Ima.{ima, is_align, samples_in};
ghost use Rattle.snes_directory.specs.Reading.{IsImage};
ghost use Rattle.loop_fit.specs.Fit.{IsWhole};
ghost use Rattle.bank_kinds.specs.Kinds.{brr_codec, spu_codec, ima_codec};
ghost use Rattle.bank_check.specs.Stored.{bank_image, image_list, vag_list, ima_list};
ghost use Rattle.bank_check.specs.Errors.{error_in, or_stored, IsStoredError};

use crate::failure::StoredFailure;
use crate::flagged::{brr_error, spu_error};
use crate::framed::framed_error;
use crate::shape::tested;
use command_faults::{InputFault, ShapePart};
use ima_wave::{ImaWaveFault, read_ima};
use loop_fit::Fitted;
use snes_directory::{Image, ImageFault, read_image};
use std::alloc::Global;
use vag_writer::{VagFault, read_vag};

/// The most bytes that are read of a stored bank (this project's own choice).
const MOST: usize = 8_388_608;

/// The image of a bank of so many samples, from the front of its file: one byte more than is read shows that it is longer.
#[tactic(auto, unfolding(crate::specs::Stored::bank_image))]
pub fn read_bank(alloc: Global, count: u32, front: &[u8]) -> Result<Image, StoredFailure>
    requires { length front.now < 2 ^ 31 }
    ensures value { Gives StoredFailure.NoMemory (λ image. image) result (or_stored (bank_image count front.now)) }
    ensures image { IfOk result IsImage }
    ensures count { IfOk result (λ image. length image.starts ≡ count) }
{
    if front.len() > MOST {
        let fault = InputFault::FileLong { most: MOST as u64 };
        return Err(StoredFailure::Fault { fault });
    }
    let image = match read_image(alloc, front) {
        Ok(image) => image,
        Err(ImageFault::NoMemory) => return Err(StoredFailure::NoMemory),
        Err(fault) => {
            let fault = InputFault::Image { fault };
            return Err(StoredFailure::Fault { fault });
        }
    };
    let have = image.starts.as_slice().len() as u32;
    match tested(ShapePart::Entries, have, count) {
        Ok(()) => Ok(image),
        Err(fault) => Err(StoredFailure::Fault { fault }),
    }
}

/// The exact error of an entry of an image for a fitted sound, in squared 16-bit steps; or its first fault.
#[tactic(auto, unfolding(crate::specs::Stored::image_list, crate::specs::Errors::brr_list))]
pub fn image_error(image: &Image, j: u32, fitted: &Fitted) -> Result<u64, InputFault>
    requires image { IsImage image.now }
    requires j { j < length image.now.starts }
    requires whole { IsWhole 16 fitted.now }
    ensures value { result ≡ error_in brr fitted.now (image_list image.now j fitted.now) }
    ensures stored { IfOk result (IsStoredError brr_codec fitted.now (image_list image.now j fitted.now)) }
{
    let i = j as usize;
    let start = image.starts.as_slice()[i];
    let again = image.agains.as_slice()[i];
    brr_error(image.memory.as_slice(), start, again, fitted)
}

/// The exact error of a VAG file for a fitted sound, in squared 16-bit steps; or its first fault.
#[tactic(auto, unfolding(crate::specs::Stored::vag_list, crate::specs::Errors::spu_list))]
pub fn vag_error(alloc: Global, front: &[u8], fitted: &Fitted) -> Result<u64, StoredFailure>
    requires small { length front.now < 2 ^ 31 }
    requires whole { IsWhole 28 fitted.now }
    ensures value { Gives StoredFailure.NoMemory (λ error. error) result (or_stored (error_in spu fitted.now (vag_list fitted.now front.now))) }
    ensures stored { IfOk result (IsStoredError spu_codec fitted.now (vag_list fitted.now front.now)) }
{
    if front.len() > MOST {
        let fault = InputFault::FileLong { most: MOST as u64 };
        return Err(StoredFailure::Fault { fault });
    }
    let vag = match read_vag(alloc, front) {
        Ok(vag) => vag,
        Err(VagFault::NoMemory) => return Err(StoredFailure::NoMemory),
        Err(fault) => {
            let fault = InputFault::Vag { fault };
            return Err(StoredFailure::Fault { fault });
        }
    };
    match spu_error(vag.blocks.as_slice(), fitted) {
        Ok(error) => Ok(error),
        Err(fault) => Err(StoredFailure::Fault { fault }),
    }
}

/// The exact error of a WAVE file of IMA ADPCM for a fitted sound with blocks of so many bytes, in squared 16-bit steps; or its first fault.
#[tactic(auto, unfolding(crate::specs::Stored::ima_list, crate::specs::Errors::framed_list))]
pub fn ima_error(
    alloc: Global,
    align: u32,
    front: &[u8],
    fitted: &Fitted,
) -> Result<u64, StoredFailure>
    requires align { IsTrue (is_align align) }
    requires small { length front.now < 2 ^ 31 }
    requires whole { IsWhole (samples_in align) fitted.now }
    ensures value { Gives StoredFailure.NoMemory (λ error. error) result (or_stored (error_in (ima (samples_in align)) fitted.now (ima_list align fitted.now front.now))) }
    ensures stored { IfOk result (IsStoredError (ima_codec align) fitted.now (ima_list align fitted.now front.now)) }
{
    if front.len() > MOST {
        let fault = InputFault::FileLong { most: MOST as u64 };
        return Err(StoredFailure::Fault { fault });
    }
    let file = match read_ima(alloc, front) {
        Ok(file) => file,
        Err(ImaWaveFault::NoMemory) => return Err(StoredFailure::NoMemory),
        Err(fault) => {
            let fault = InputFault::Ima { fault };
            return Err(StoredFailure::Fault { fault });
        }
    };
    match framed_error(align, &file, file.blocks.as_slice(), fitted) {
        Ok(error) => Ok(error),
        Err(fault) => Err(StoredFailure::Fault { fault }),
    }
}
