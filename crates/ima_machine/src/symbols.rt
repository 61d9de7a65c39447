ghost use Rattle.std.specs.Prelude.{◌≡◌, ◌+◌, ◌-◌, ◌<◌, ◌≤◌, min, pos};
ghost use Rattle.adpcm_nums.specs.Sample.{IsSample};
ghost use Rattle.ima_machine.specs.Spelling.{symbol_of};
ghost use Rattle.ima_machine.specs.Image.{reach_of};

use crate::step::own_symbol;
use adpcm_nums::Span;

/// How far a first output may be from its target and cost at most a slack.
#[tactic(auto, using(crate::specs::Laws::Slacks::reach_is))]
fn reach(slack: u64) -> u32
    ensures value { result ≡ reach_of slack }
    ensures small { result ≤ 65535 }
{
    slack.isqrt().min(65535) as u32
}

/// The symbols that are no further than that from one.
fn near(own: u32, reach: u32) -> Span
    requires own { own < 65536 }
    requires reach { reach ≤ 65535 }
    ensures first { result.lo ≡ pos (own - reach) }
    ensures last { result.hi ≡ pos (min 65535 (own + reach)) }
{
    Span {
        lo: own.saturating_sub(reach) as i32,
        hi: (own + reach).min(65535) as i32,
    }
}

/// The symbols of a block's first place that cost at most a slack.
pub(crate) fn first_symbols(target: i32, slack: u64) -> Span
    requires { IsSample target }
    ensures first { result.lo ≡ pos (symbol_of target - reach_of slack) }
    ensures last { result.hi ≡ pos (min 65535 (symbol_of target + reach_of slack)) }
{
    near(own_symbol(target), reach(slack))
}
