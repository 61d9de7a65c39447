ghost use Rattle.std.specs.Prelude.{◌≡◌, ◌^◌, ◌<◌, length, Ok};
ghost use Rattle.ima_wave.specs.declared.file.ImaFile.{ImaFile};
ghost use Rattle.ima_wave.specs.Reading.{ima_of};
ghost use Rattle.ima_wave.specs.Written.{ima_file};
ghost use Rattle.ima_wave.specs.Files.{IsImaFile};

/// A file that was written is read again.
pub fn written_is_read()
    ensures { (file : ImaFile) → IsImaFile file → length file.blocks < 2 ^ 30 → ima_of (ima_file file) ≡ Ok file }
{}
