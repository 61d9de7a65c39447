ghost use Rattle.std.specs.Prelude.{◌≡◌, ◌<◌};
ghost use Rattle.window_floor.specs.Numbers.{StandFor, windows_of};
ghost use Rattle.linear_machine.specs.Linear.{Linear, IsLinear};

use machine_core::{Machine, State};
use window_floor::BlockWindows;

/// A decoder whose outputs are predicted from the last two by a head's filter, on top of one of the head's sixteen
/// samples. They have 16 bits, and clamping leaves a known output only where the filter came to more or to less than them.
pub trait LinearMachine: Machine {
    /// What it means as a linear decoder.
    ghost linear: { Self → Linear };

    /// The filter, the samples and the clamped outputs of a head.
    fn windows(&self, head: u32) -> BlockWindows
        requires { head < (Self.rules self.now).decoder.heads }
        ensures windows { windows_of result ((linear self.now).windows head).samples ≡ (linear self.now).windows head }
        ensures samples { StandFor result ((linear self.now).windows head).samples };

    /// Whether the decoder may have given these two outputs last.
    fn is_state(&self, at: State) -> bool
        ensures { result ≡ (Self.rules self.now).decoder.is_state at };

    /// It keeps the laws of linear decoders.
    ghost is_linear: { (m : Self) → IsLinear (linear m) × ((linear m).decoder ≡ (Self.rules m).decoder) };
}
