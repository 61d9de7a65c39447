ghost use Rattle.std.specs.Prelude.{◌≤◌, ◌^◌};
ghost use Rattle.adpcm_nums.specs.Sample.{AreSamples};

use crate::quantizer::Quantizer;
use crate::window::Window;

/// How the places of a block under a head are tied together, and what its codes stand for.
#[derive(Clone, Copy, Debug, PartialEq, Eq)]
pub struct BlockWindows {
    /// Places in a block, at most 65,536.
    pub places: usize,
    /// The head's filter.
    pub row: Window,
    /// What the sixteen codes stand for.
    pub levels: Quantizer,
    /// The two outputs that clamping leaves.
    pub ends: [i32; 2],
    ghost few_places: { places ≤ 2 ^ 16 },
    ghost ends_are: { AreSamples ends },
}
