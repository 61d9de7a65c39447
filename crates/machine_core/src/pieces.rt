ghost use Rattle.std.specs.Prelude.{◌≡◌, ◌⊎◌, ◌<◌, pos, [], ◌∷◌, ◌++◌, length};
ghost use Rattle.adpcm_nums.specs.Sample.{IsSample};
ghost use Rattle.machine_core.specs.Images.{output_piece};

use crate::boxes::Bx;
use adpcm_nums::Span;
use arrayvec::ArrayVec;
use std::marker::Model;

/// A box that the states of a box go to, and the least cost of a whole number in its span of outputs.
#[derive(Clone, Copy, Debug, Default, PartialEq, Eq)]
pub struct Piece {
    /// The box.
    pub bx: Bx,
    /// The least cost, in squared 16-bit steps.
    pub cost: u64,
}

/// Where the states of a box go under one head and symbol: at most three pieces, seen as their list.
#[derive(Drop)]
pub struct Pieces {
    /// The pieces.
    pub list: ArrayVec<Piece, 3>,
}

impl Model for Pieces {
    ghost use Rattle.std.specs.Prelude.{List};
    ghost use Rattle.machine_core.specs.declared.pieces.Piece.{Piece as PieceOf};

    ghost Value = { List PieceOf };

    ghost view = { λ p. p.list.items };
}

impl Pieces {
    /// No pieces.
    pub fn new() -> Pieces
        ensures { result ≡ [] }
    {
        Pieces {
            list: ArrayVec::new(),
        }
    }

    /// Adds a piece behind the others, of which there are at most two.
    pub fn push(&mut self, piece: Piece)
        requires { length self.old < 3 }
        ensures { self.new ≡ self.old ++ piece ∷ [] }
    {
        self.list.push(piece);
    }

    /// One piece alone.
    pub fn one(piece: Piece) -> Pieces
        ensures { result ≡ piece ∷ [] }
    {
        let mut pieces = Pieces::new();
        pieces.push(piece);
        pieces
    }
}

/// The piece of a span of outputs, after a span of last outputs; an output counts `scale` steps, 1 or 2.
pub fn output_piece(scale: i32, outputs: Span, last: Span, target: i32) -> Piece
    requires scale { (scale ≡ pos 1) ⊎ (scale ≡ pos 2) }
    requires lo { IsSample outputs.lo }
    requires hi { IsSample outputs.hi }
    requires target { IsSample target }
    ensures { result ≡ output_piece scale outputs last target }
{
    Piece {
        bx: Bx {
            a: outputs,
            b: last,
        },
        cost: outputs.distance_sq(scale, target),
    }
}
