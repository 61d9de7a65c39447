ghost use Rattle.std.specs.Prelude.{◌≡◌, ◌<◌};
ghost use Rattle.window_floor.specs.Numbers.{row_of};
ghost use Rattle.spu_machine.specs.Rows.{spu_row};

use window_floor::Window;

/// What a filter ties together (PSX-SPX, SPU ADPCM samples): half of a quotient's divisor is added, so that it is rounded to
/// the nearest. Under filter 0 an output is a sample.
pub(crate) fn row(filter: u32) -> Window
    requires { filter < 5 }
    ensures { row_of result ≡ spu_row filter }
{
    match filter {
        0 => Window {
            d: 1,
            ca: 0,
            cb: 0,
            bias: 0,
            errs: 0,
            scale: 1,
            norm: 1,
            wraps: false,
        },
        1 => Window {
            d: 64,
            ca: 60,
            cb: 0,
            bias: 32,
            errs: 63,
            scale: 1,
            norm: 7696,
            wraps: false,
        },
        2 => Window {
            d: 64,
            ca: 115,
            cb: -52,
            bias: 32,
            errs: 63,
            scale: 1,
            norm: 20025,
            wraps: false,
        },
        3 => Window {
            d: 64,
            ca: 98,
            cb: -55,
            bias: 32,
            errs: 63,
            scale: 1,
            norm: 16725,
            wraps: false,
        },
        _ => Window {
            d: 64,
            ca: 122,
            cb: -60,
            bias: 32,
            errs: 63,
            scale: 1,
            norm: 22580,
            wraps: false,
        },
    }
}
