ghost use Rattle.brr_machine.specs.BrrRules.{brr_rules};

use crate::floors::windows;
use linear_machine::HeadFloors;
use machine_core::HeadRule;

/// The heads, each with its floors.
#[derive(Clone, Copy)]
pub(crate) struct Heads;

impl HeadFloors for Heads {
    ghost rules = { λ _. brr_rules };

    fn heads(&self) -> u32 {
        64
    }

    // The first block of a sample or of a loop must have filter 0.
    fn allows(&self, head: u32, rule: HeadRule) -> bool {
        match rule {
            HeadRule::AnyHead => true,
            HeadRule::FilterZero => head % 4 == 0,
        }
    }

    #[tactic(auto, unfolding(crate::specs::Floors::brr_floor))]
    fn floor_below(&self, head: u32, targets: &[i32], most: u64) -> u64 {
        window_floor::floor_below(windows(head), targets, most)
    }
}
