ghost use Rattle.std.specs.Prelude.{◌≡◌, ◌↔◌, IsTrue, IfSome, IsSome};
ghost use Rattle.ima_machine.specs.Ima.{is_align, samples_in};
ghost use Rattle.ima_machine.specs.ImaRules.{ima_rules};
ghost use Rattle.ima_machine.specs.Lawful.{lawful};
ghost use Rattle.ima_machine.specs.Laws.Boxed.{ima_is_boxed};

use crate::chain::{fill_floors, least_floor};
use crate::costs::output_cost;
use crate::image::{first_image, later_image};
use crate::nearest::nearest_code;
use crate::step::{first_state, later_state, own_symbol};
use crate::symbols::first_symbols;
use crate::taken::{take_first, take_later};
use adpcm_nums::Span;
use machine_core::{Bx, Cell, HeadRule, Kind, Machine, Pieces, State, Taken, cell_box, cell_of};

/// The decoder of IMA ADPCM in mono WAVE files (IMA recommended practices, 1992, format tag 0x0011).
///
/// A head is the index that a block begins with. The first symbol of a block is its first output, counted from -32768;
/// later ones are 4-bit codes. The states are the last output and the step index.
#[derive(Clone, Copy, Debug, PartialEq, Eq)]
pub struct Ima {
    /// The size of a block in bytes, a multiple of 4 in 8..=1024.
    pub align: u32,
    ghost fits: { IsTrue (is_align align) },
}

impl Ima {
    /// The decoder of blocks of this size, where it is one.
    pub fn new(align: u32) -> Option<Ima>
        ensures same { IfSome result (λ m. m.align ≡ align) }
        ensures exactly { IsSome result ↔ IsTrue (is_align align) }
    {
        if align % 4 == 0 && 8 <= align && align <= 1024 {
            Some(Ima { align })
        } else {
            None
        }
    }
}

impl Machine for Ima {
    ghost rules = { λ m. ima_rules (samples_in m.align) };

    fn kind(&self) -> Kind {
        Kind::Ima
    }

    #[tactic(auto, using(crate::proofs::Aligns::align_low, crate::proofs::Aligns::align_high))]
    fn block_samples(&self) -> u32 {
        2 * (self.align - 4) + 1
    }

    fn heads(&self) -> u32 {
        89
    }

    fn symbols(&self, pos: u32) -> u32 {
        if pos == 0 { 65536 } else { 16 }
    }

    fn allows(&self, _head: u32, _rule: HeadRule) -> bool {
        true
    }

    // The head counts at the first place alone.
    fn lane(&self, _head: u32, _pos: u32) -> u32 {
        0
    }

    #[tactic(auto, unfolding(crate::specs::Ima::ima_step))]
    fn step(&self, head: u32, pos: u32, sym: u32, from: State) -> State {
        if pos == 0 {
            first_state(head, sym)
        } else {
            later_state(sym, from)
        }
    }

    fn cost(&self, at: State, target: i32) -> u64 {
        output_cost(at.a, target)
    }

    fn nearest(&self, _head: u32, pos: u32, from: State, target: i32) -> u32 {
        if pos == 0 {
            own_symbol(target)
        } else {
            nearest_code(from, target)
        }
    }

    fn take_nearest(&self, head: u32, pos: u32, from: State, target: i32) -> Taken {
        if pos == 0 {
            take_first(head, target)
        } else {
            take_later(from, target)
        }
    }

    fn block_floor(&self, rule: HeadRule, targets: &[i32]) -> u64 {
        least_floor(rule, targets)
    }

    #[tactic(auto, using(crate::proofs::Aligns::align_low, crate::proofs::Aligns::align_high))]
    fn floor_len(&self) -> u32 {
        89 * self.block_samples()
    }

    fn fill_floor(&self, _head: u32, targets: &[i32], table: &mut [u64]) {
        fill_floors(targets, table);
    }

    fn floor_at(&self, head: u32, pos: u32, from: Bx, table: &[u64]) -> u64 {
        let index = if pos == 0 {
            head
        } else {
            from.b.lo.unsigned_abs()
        };
        table[89 * pos as usize + index as usize]
    }

    // At the first place just the symbols that cost at most the slack, later all codes.
    fn symbol_span(&self, place: u32, target: i32, slack: u64) -> Span {
        if place == 0 {
            first_symbols(target, slack)
        } else {
            Span { lo: 0, hi: 15 }
        }
    }

    #[tactic(auto, unfolding(crate::specs::Image::ima_image))]
    fn box_step(&self, head: u32, place: u32, sym: u32, from: Bx, target: i32) -> Pieces {
        if place == 0 {
            first_image(head, sym, target)
        } else {
            later_image(sym, from, target)
        }
    }

    fn cell_of(&self, level: u32, at: State) -> Cell {
        cell_of(false, level, at)
    }

    fn cell_box(&self, level: u32, cell: Cell) -> Bx {
        cell_box(false, level, cell)
    }

    ghost lawful = { λ m. lawful m.align m.fits };

    ghost boxed = { λ m. ima_is_boxed (samples_in m.align) };
}
