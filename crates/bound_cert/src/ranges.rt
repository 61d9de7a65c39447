ghost use Rattle.std.specs.Prelude.{◌≡◌, pos, ◌≤◌, ◌/◌, ◌<◌};
ghost use Rattle.bound_cert.specs.Ranges.{kind_number, reach_of, width_of, is_level_byte, around, b_fits, cell_fits, is_lane, lane_fits, key_fits, cell_follows, key_follows};

use crate::shape::Limits;
use box_layers::{Key, is_before, is_key_before};
use machine_core::{Cell, Kind};

/// The number that a file has for a format: 0 BRR, 1 SPU-ADPCM, 2 IMA ADPCM (this project's own choice).
pub fn number_of(kind: Kind) -> u32
    ensures { result ≡ kind_number kind }
{
    match kind {
        Kind::Brr => 0,
        Kind::Spu => 1,
        Kind::Ima => 2,
    }
}

fn reach(kind: Kind) -> u32
    ensures value { result ≡ reach_of kind }
    ensures small { result ≤ 32768 }
{
    match kind {
        Kind::Brr => 16384,
        Kind::Spu => 32768,
        Kind::Ima => 32768,
    }
}

fn width(level: u32) -> u32
    ensures value { result ≡ width_of level }
    ensures some { 0 < result }
{
    if level == 0 {
        1
    } else if level == 4 {
        16
    } else {
        256
    }
}

/// Whether a byte is a level: 0, 4 or 8, or 255 where only the floor is claimed.
pub fn is_level_number(level: u32) -> bool
    ensures { result ≡ is_level_byte level }
{
    level == 0 || level == 4 || level == 8 || level == 255
}

// Whether a number lies from -n to n - 1.
fn is_around(n: u32, x: i32) -> bool
    requires { n ≤ 32768 }
    ensures { result ≡ around n x }
{
    let n = n as i32;
    -n <= x && x < n
}

fn is_index(b: i32) -> bool
    ensures { result ≡ b_fits Kind.Ima 0 b }
{
    0 <= b && b < 89
}

fn b_is_fit(kind: Kind, level: u32, b: i32) -> bool
    ensures { result ≡ b_fits kind level b }
{
    match kind {
        Kind::Brr => is_around(16384 / width(level), b),
        Kind::Spu => is_around(32768 / width(level), b),
        Kind::Ima => is_index(b),
    }
}

/// Whether a cell of a level may hold a state of the format.
#[tactic(auto, unfolding(crate::specs::Ranges::cell_fits))]
pub fn cell_is_fit(kind: Kind, level: u32, c: Cell) -> bool
    ensures { result ≡ cell_fits kind level c }
{
    is_around(reach(kind) / width(level), c.a) && b_is_fit(kind, level, c.b)
}

fn lane_is_fit(kind: Kind, place: u32, lane: u32) -> bool
    ensures { result ≡ lane_fits kind place lane }
{
    if place == 0 {
        lane == 65535
    } else {
        match kind {
            Kind::Brr => lane < 56,
            Kind::Spu => lane < 80 && lane % 16 < 13,
            Kind::Ima => lane == 0,
        }
    }
}

/// Whether a layer may have this key: its block, place and lane are the segment's.
#[tactic(auto, unfolding(crate::specs::Ranges::key_fits))]
pub fn key_is_fit(limits: Limits, key: Key) -> bool
    ensures { result ≡ key_fits limits key }
{
    key.block < limits.blocks
        && key.place < limits.samples
        && lane_is_fit(limits.kind, key.place, key.lane)
}

/// Whether a cell may follow the last one of its layer.
pub fn cell_is_next(last: Option<Cell>, c: Cell) -> bool
    ensures { result ≡ cell_follows last c }
{
    match last {
        None => true,
        Some(last) => is_before(last, c),
    }
}

/// Whether a layer may follow the last one.
pub fn key_is_next(last: Option<Key>, k: Key) -> bool
    ensures { result ≡ key_follows last k }
{
    match last {
        None => true,
        Some(last) => is_key_before(last, k),
    }
}
