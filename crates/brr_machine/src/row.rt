ghost use Rattle.std.specs.Prelude.{◌≡◌, ◌<◌};
ghost use Rattle.window_floor.specs.Numbers.{row_of};
ghost use Rattle.brr_machine.specs.Rows.{brr_row};

use window_floor::Window;

/// What a filter ties together (fullsnes, BRR samples): outputs count twice, and wrap to 15 bits. Under filter 0 an output
/// is a sample, which is too small to wrap.
pub(crate) fn row(filter: u32) -> Window
    requires { filter < 4 }
    ensures { row_of result ≡ brr_row filter }
{
    match filter {
        0 => Window {
            d: 1,
            ca: 0,
            cb: 0,
            bias: 0,
            errs: 0,
            scale: 2,
            norm: 1,
            wraps: false,
        },
        1 => Window {
            d: 16,
            ca: 15,
            cb: 0,
            bias: 0,
            errs: 15,
            scale: 2,
            norm: 481,
            wraps: true,
        },
        2 => Window {
            d: 32,
            ca: 61,
            cb: -30,
            bias: 0,
            errs: 61,
            scale: 2,
            norm: 5645,
            wraps: true,
        },
        _ => Window {
            d: 64,
            ca: 115,
            cb: -52,
            bias: 0,
            errs: 123,
            scale: 2,
            norm: 20025,
            wraps: true,
        },
    }
}
