ghost use Rattle.std.proofs.Common.{refl};
ghost use Rattle.std.specs.Prelude.{◌≡◌};
ghost use Rattle.spu_machine.specs.Spu.{is_output};
ghost use Rattle.spu_machine.specs.SpuRules.{spu_rules};
ghost use Rattle.spu_machine.specs.Laws.{spu_is_machine};
ghost use Rattle.spu_machine.specs.Floors.{spu_linear};
ghost use Rattle.spu_machine.specs.Laws.Linear.{spu_is_linear};
ghost use Rattle.spu_machine.specs.Laws.Boxed.{spu_is_boxed};

use crate::floors::{fill_floors, windows};
use crate::image::image;
use crate::least::Heads;
use crate::nearest::output_cost;
use crate::sample::acting_shift;
use crate::step::spu_output;
use crate::taken::{codes_after, taken_from};
use adpcm_nums::Span;
use linear_machine::{HeadFloors, LinearMachine, least_floor};
use machine_core::{Bx, Cell, HeadRule, Kind, Machine, Pieces, State, Taken, cell_box, cell_of};
use window_floor::BlockWindows;

/// The decoder of the PlayStation's sound unit (PSX-SPX, SPU ADPCM samples).
///
/// A head is the shift, plus sixteen times the filter. A symbol is a 4-bit code. The states are the last two outputs, of 16 bits.
#[derive(Clone, Copy, Debug, PartialEq, Eq)]
pub struct Spu;

impl Machine for Spu {
    ghost rules = { λ _. spu_rules };

    fn kind(&self) -> Kind {
        Kind::Spu
    }

    fn block_samples(&self) -> u32 {
        28
    }

    fn heads(&self) -> u32 {
        80
    }

    fn symbols(&self, _pos: u32) -> u32 {
        16
    }

    fn allows(&self, head: u32, rule: HeadRule) -> bool {
        Heads.allows(head, rule)
    }

    // Shifts 13 to 15 act as 9.
    fn lane(&self, head: u32, _pos: u32) -> u32 {
        acting_shift(head % 16) + 16 * (head / 16)
    }

    #[tactic(auto, unfolding(crate::specs::Spu::spu_step))]
    fn step(&self, head: u32, _pos: u32, sym: u32, from: State) -> State {
        State {
            a: spu_output(head, sym, from),
            b: from.a,
        }
    }

    fn cost(&self, at: State, target: i32) -> u64 {
        output_cost(at.a, target)
    }

    fn nearest(&self, head: u32, _pos: u32, from: State, target: i32) -> u32 {
        codes_after(head, from, target).nearest()
    }

    fn take_nearest(&self, head: u32, _pos: u32, from: State, target: i32) -> Taken {
        taken_from(head, from, target)
    }

    fn block_floor(&self, rule: HeadRule, targets: &[i32]) -> u64 {
        least_floor(&Heads, rule, targets)
    }

    fn floor_len(&self) -> u32 {
        29
    }

    fn fill_floor(&self, head: u32, targets: &[i32], table: &mut [u64]) {
        fill_floors(head, targets, table);
    }

    fn floor_at(&self, _head: u32, pos: u32, _from: Bx, table: &[u64]) -> u64 {
        table[pos as usize]
    }

    // All codes.
    fn symbol_span(&self, _place: u32, _target: i32, _slack: u64) -> Span {
        Span { lo: 0, hi: 15 }
    }

    fn box_step(&self, head: u32, _place: u32, sym: u32, from: Bx, target: i32) -> Pieces {
        image(head, sym, from, target)
    }

    fn cell_of(&self, level: u32, at: State) -> Cell {
        cell_of(true, level, at)
    }

    fn cell_box(&self, level: u32, cell: Cell) -> Bx {
        cell_box(true, level, cell)
    }

    ghost lawful = { λ _. spu_is_machine };

    ghost boxed = { λ _. spu_is_boxed };
}

/// Whether a number has 16 bits, signed.
fn has_16_bits(y: i32) -> bool
    ensures { result ≡ is_output y }
{
    -32768 <= y && y <= 32767
}

impl LinearMachine for Spu {
    ghost linear = { λ _. spu_linear };

    fn windows(&self, head: u32) -> BlockWindows {
        windows(head)
    }

    fn is_state(&self, at: State) -> bool {
        has_16_bits(at.a) && has_16_bits(at.b)
    }

    ghost is_linear = { λ _. (spu_is_linear, refl) };
}
