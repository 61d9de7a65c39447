ghost use Rattle.std.specs.Prelude.{◌≡◌, ◌⊎◌, ◌≤◌, ◌<◌, ◌+◌, ℤ, pos, negsuc, ◌≤ℤ◌, IsTrue, [], ◌++◌, length};
ghost use Rattle.adpcm_nums.specs.Nums.{clamp16_of};
ghost use Rattle.adpcm_nums.specs.Sample.{IsSample};
ghost use Rattle.brr_machine.specs.Brr.{raw_of};
ghost use Rattle.brr_machine.specs.Boxes.{is_brr_box};
ghost use Rattle.brr_machine.specs.Image.{part, parts, brr_image};

use crate::step::raw;
use adpcm_nums::{Span, clamp16};
use machine_core::{Bx, Pieces, output_piece};

/// What a code gives from the outputs `o` and `r`, clamped to 16 bits.
fn clamped(head: u32, code: u32, o: i32, r: i32) -> i32
    requires head { head < 64 }
    requires code { code < 16 }
    requires o_low { negsuc 16383 ≤ℤ o }
    requires o_high { o ≤ℤ pos 16383 }
    requires r_low { negsuc 16383 ≤ℤ r }
    requires r_high { r ≤ℤ pos 16383 }
    ensures value { result ≡ clamp16_of (raw_of head code o r) }
    ensures range { IsSample result }
{
    clamp16(raw(head, code, o, r))
}

/// Adds the numbers of `lo..=hi`, moved by `by`, that have 15 bits, if there are any.
fn add_part(pieces: &mut Pieces, by: i32, lo: i32, hi: i32, last: Span, target: i32)
    requires room { length pieces.old < 3 }
    requires by_low { negsuc 32767 ≤ℤ by }
    requires by_high { by ≤ℤ pos 32768 }
    requires lo { IsSample lo }
    requires hi { IsSample hi }
    requires target { IsSample target }
    ensures added { pieces.new ≡ pieces.old ++ part by lo hi last target [] }
    ensures len { length pieces.new ≤ length pieces.old + 1 }
{
    let lo = (lo + by).max(-16384);
    let hi = (hi + by).min(16383);
    if lo <= hi {
        pieces.push(output_piece(2, Span { lo, hi }, last, target));
    }
}

/// The pieces of an interval of 16 bits, cut where its numbers wrap to 15 bits (fullsnes, BRR samples).
fn cut(lo: i32, hi: i32, last: Span, target: i32) -> Pieces
    requires lo { IsSample lo }
    requires hi { IsSample hi }
    requires target { IsSample target }
    ensures { result ≡ parts lo hi last target }
{
    let mut pieces = Pieces::new();
    add_part(&mut pieces, 32768, lo, hi, last, target);
    add_part(&mut pieces, 0, lo, hi, last, target);
    add_part(&mut pieces, -32768, lo, hi, last, target);
    pieces
}

/// Where the states of a box go under a head and a code: what comes of two corners, and all between, cut at the wraps.
#[tactic(auto, unfolding(crate::specs::Image::brr_image))]
pub(crate) fn image(head: u32, code: u32, from: Bx, target: i32) -> Pieces
    requires head { head < 64 }
    requires code { code < 16 }
    requires from { IsTrue (is_brr_box from) }
    requires target { IsSample target }
    ensures { result ≡ brr_image head code from target }
{
    let lo = clamped(head, code, from.a.lo, from.b.hi);
    let hi = clamped(head, code, from.a.hi, from.b.lo);
    cut(lo, hi, from.a, target)
}
