//! `check`: certificates of one block, and banks of another shape.

use crate::script::plays;
use std::test::Fail;

// An output of BRR counts twice, so it is at least 1 from an odd target: sixteen ones cost 16. A cell of more is refused, and so is a bound that is not what the cells show.
const CELLS: &str = "\
file m.toml text format = 'brr';bank = 'b';[[sample]];name = 's';file = 's.wav'
file s.wav wave none 1*16
file b hex 534E424901000100000200000D 00*4 7D00000402040201 00*8
file b.s.cert hex 41444243 01 00 0100 0100 0000 10 00*7 01 00*3 00*4 FFFF 01 00*3 00*4 11 00*7
$ check m.toml
> fault 7 s CellFault 0 0 0 17 16
= 7
file b.s.cert hex 41444243 01 00 0100 0100 0000 0F 00*7 01 00*3 00*4 FFFF 01 00*3 00*4 10 00*7
$ check m.toml
> fault 7 s Bound 0 15 16
= 7
file b.s.cert hex 41444243 01 00 0100 0100 0000 10 00*7 01 00*3 00*4 FFFF 01 00*3 00*4 10 00*7
$ check m.toml
> sample s blocks 1 loop none error 16 bound 16 gap 0 levels 1 0 0 0 optimal
> done 1 samples 0 files
= 0
file b.s.cert hex 41444243 01 00 0100 0100 0000 10 00*7 01 00*3 00*4 FFFF 01 00*3 00*4 0A 00*7
$ check m.toml
> sample s blocks 1 loop none error 16 bound 16 gap 0 levels 1 0 0 0 optimal
> done 1 samples 0 files
= 0
";

// Every front of a certificate, and one with a byte more.
const FRONTS: &str = "\
file m.toml text format = 'brr';bank = 'b';[[sample]];name = 's';file = 's.wav'
file s.wav wave 0..15 0*16
file b hex 534E424901000100000200000D 00*4 7D00000402040203 00*8
file b.s.cert hex 41444243 01 00 0100 0100 00*14 09
$ check m.toml
> fault 7 s Trailing 24
= 7
file b.s.cert cut 24
$ check m.toml
> sample s blocks 1 loop 0 error 0 bound 0 gap 0 levels 1 0 0 0 optimal
> done 1 samples 0 files
= 0
file b.s.cert cut 23
$ check m.toml
> fault 7 s Short 20
file b.s.cert cut 20
$ check m.toml
> fault 7 s Short 20
file b.s.cert cut 19
$ check m.toml
> fault 7 s Short 12
file b.s.cert cut 12
$ check m.toml
> fault 7 s Short 12
file b.s.cert cut 11
$ check m.toml
> fault 7 s Short 11
file b.s.cert cut 10
$ check m.toml
> fault 7 s Short 10
file b.s.cert cut 9
$ check m.toml
> fault 7 s Short 8
file b.s.cert cut 8
$ check m.toml
> fault 7 s Short 8
file b.s.cert cut 7
$ check m.toml
> fault 7 s Short 6
file b.s.cert cut 6
$ check m.toml
> fault 7 s Short 6
file b.s.cert cut 5
$ check m.toml
> fault 7 s Short 5
file b.s.cert cut 4
$ check m.toml
> fault 7 s Short 4
file b.s.cert cut 3
$ check m.toml
> fault 7 s BadMagic
file b.s.cert cut 0
$ check m.toml
> fault 7 s BadMagic
= 7
";

// An image of two blocks for a sound of one.
const SHAPES: &str = "\
file m.toml text format = 'brr';bank = 'b';[[sample]];name = 's';file = 's.wav'
file s.wav wave none 1*16
file b hex 534E4249010001000002000016 00*4 7D000004020402 00*9 01 00*8
file b.s.cert hex 00
$ check m.toml
> fault 4 s Shape Blocks 2 1
= 4
";

#[test]
fn tests_cells_and_bounds(rt: HostRuntime) -> Result<(), Fail> {
    plays(&rt, rt.alloc(), CELLS)
}

#[test]
fn refuses_damaged_certificates(rt: HostRuntime) -> Result<(), Fail> {
    plays(&rt, rt.alloc(), FRONTS)
}

#[test]
fn refuses_another_bank(rt: HostRuntime) -> Result<(), Fail> {
    plays(&rt, rt.alloc(), SHAPES)
}
