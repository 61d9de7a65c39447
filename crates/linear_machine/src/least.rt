ghost use Rattle.std.specs.Prelude.{◌≡◌, ◌<◌, length, min};
ghost use Rattle.adpcm_nums.specs.Sample.{AreSamples};
ghost use Rattle.machine_core.specs.Rules.{Rules};
ghost use Rattle.machine_core.specs.Floors.{ruled_floor};

use machine_core::HeadRule;

/// The heads of a decoder, each with the floor under a whole block.
pub trait HeadFloors {
    /// What the decoder means.
    ghost rules: { Self → Rules };

    /// The number of heads.
    fn heads(&self) -> u32
        ensures { result ≡ (rules self.now).decoder.heads };

    /// Whether a rule allows a head.
    fn allows(&self, head: u32, rule: HeadRule) -> bool
        requires { head < (rules self.now).decoder.heads }
        ensures { result ≡ (rules self.now).decoder.allows head rule };

    /// The floor under a block under a head where that is less than `most`, and else some number that is at least `most`.
    fn floor_below(&self, head: u32, targets: &[i32], most: u64) -> u64
        requires head { head < (rules self.now).decoder.heads }
        requires count { length targets.now ≡ (rules self.now).decoder.samples }
        requires targets { AreSamples targets.now }
        ensures { min result most ≡ min ((rules self.now).floor head 0 (rules self.now).whole targets.now) most };
}

/// The floor under a block of these targets under any head that the rule allows.
pub fn least_floor<H: HeadFloors>(heads: &H, rule: HeadRule, targets: &[i32]) -> u64
    requires count { length targets.now ≡ (H.rules heads.now).decoder.samples }
    requires targets { AreSamples targets.now }
    ensures { result ≡ ruled_floor (H.rules heads.now) rule targets.now }
{
    let mut least = u64::MAX;
    for head in 0..heads.heads() {
        if heads.allows(head, rule) {
            least = least.min(heads.floor_below(head, targets, least));
        }
    }
    least
}
