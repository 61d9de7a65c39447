ghost use Rattle.std.specs.Prelude.{◌≡◌, ◌≤◌, IsTrue};
ghost use Rattle.ima_machine.specs.Ima.{is_align};
ghost use Rattle.bank_kinds.specs.Kinds.{codec_for};

use machine_core::Kind;

/// How many samples a block of a kind has, where blocks of IMA ADPCM have so many bytes.
#[tactic(auto, using(ima_machine::proofs::Aligns::align_low, ima_machine::proofs::Aligns::align_high))]
pub fn samples_in_block(kind: Kind, block: u32) -> u32
    requires { IsTrue (is_align block) }
    ensures value { result ≡ (codec_for kind block).rules.decoder.samples }
    ensures some { 1 ≤ result }
    ensures few { result ≤ 2041 }
{
    match kind {
        Kind::Brr => 16,
        Kind::Spu => 28,
        Kind::Ima => 2 * (block - 4) + 1,
    }
}
