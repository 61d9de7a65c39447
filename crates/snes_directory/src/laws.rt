ghost use Rattle.std.specs.Prelude.{◌≡◌, ℕ, ◌*◌, ◌<◌, ◌≤◌, All, List, drop, get_or, length, take};
ghost use Rattle.snes_directory.specs.declared.part.ImagePart.{ImagePart};
ghost use Rattle.snes_directory.specs.Part.{IsPart, loop_address};
ghost use Rattle.snes_directory.specs.Spelling.{memory_bytes, written_image};
ghost use Rattle.snes_directory.specs.Reading.{image_of};
ghost use Rattle.snes_directory.specs.Stored.{agains_in, image_from, starts_in};

/// What was written is read again: the base, the rates, the memory, and where each sample begins and goes on.
pub fn written_is_read()
    ensures { (base : ℕ) (parts : List ImagePart) (file : List ℕ) → 1 ≤ length parts → length parts ≤ 64 → All IsPart parts → written_image base parts ≡ Ok file → image_of file ≡ Ok (image_from base parts) }
{}

/// In the memory of an image that was written, the blocks of each sample stand at its start, and its player goes on at
/// its loop block.
pub fn samples_lie_in_memory()
    ensures blocks { (base : ℕ) (parts : List ImagePart) (i : ℕ) (part : ImagePart) → i < length parts → part ≡ get_or parts i part → take (length part.blocks) (drop (get_or (starts_in (4 * length parts) parts) i 0) (memory_bytes base parts)) ≡ part.blocks }
    ensures agains { (parts : List ImagePart) (i : ℕ) (part : ImagePart) → i < length parts → part ≡ get_or parts i part → get_or (agains_in (4 * length parts) parts) i 0 ≡ loop_address (get_or (starts_in (4 * length parts) parts) i 0) part.loop_block }
{}
