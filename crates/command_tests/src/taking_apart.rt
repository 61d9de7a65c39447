//! `decompile`: what is given back, and the faults of files.

use crate::script::plays;
use std::test::Fail;

// A loop that settles at its playing 1, one of filter 2 that does not settle, a block behind the end, and IMA ADPCM without a loop and with one that ends before its last frames. A store that fails leaves nothing.
const APART: &str = "\
file F hex 534E4249010001000002000016 00*4 7D000004020D0250 11*8 07 00*8
$ decompile brr F o
> entry 0 frames 48 loop 32..47 settles 1 trailing 0
= 0
file w wave 32..47 32*16 30 28 26 24 22 20 18 16 14 12 10 8 6 4 2 0 0*16
same o.0.wav w
file F hex 534E424901000100000200000D 00*4 7D000004020402CB FF*8
$ decompile brr F o
> entry 0 frames 16 loop 0..15 settles unsettled trailing 0
= 0
file w wave 0..15 -4096 -11904 -22948 28854 -2 -31152 2056 29026 -16230 3288 17384 25958 29088 27016 20132 8952
same o.0.wav w
file F hex 5641477000000020 00*7 3000007D 00*13 73 00*32 01 00*15 07 77*14
$ decompile vag F o
> entry 0 frames 56 loop none settles none trailing 16
= 0
file w wave none 0*56
same o.0.wav w
file F hex 524946463C00000057415645666D74201400000011000100007D00001C6F000008000400020009006661637404000000090000006461746108 00*7 01000000
$ decompile ima F o-
> entry 0 frames 9 loop none settles none trailing 0
= 0
file w wave none 0 1*8
same o-.0.wav w
file F hex 524946468000000057415645666D74201400000011000100007D00001C6F000008000400020009006661637404000000090000006461746108 00*7 01000000736D706C3C 00*11 127A00003C 00*15 01 00*15 0200000005 00*11
$ decompile ima F o
> entry 0 frames 9 loop 2..5 settles 0 trailing 0
= 0
file w wave 2..5 0 1*8
same o.0.wav w
file F byte 124 09
$ decompile ima F o
> fault 4 F LoopOutside 9 9
= 4
file F byte 124 05
file F byte 48 05
$ decompile ima F o
> fault 4 F LoopOutside 5 5
= 4
file F hex 524946463C00000057415645666D74201400000011000100007D00001C6F000008000400020009006661637404000000090000006461746108 00*7 01000000
file F byte 48 05
$ decompile ima F o
> entry 0 frames 5 loop none settles none trailing 0
= 0
file w wave none 0 1*4
same o.0.wav w
file F byte 48 0A
$ decompile ima F o
> entry 0 frames 9 loop none settles none trailing 0
= 0
file F byte 40 00
$ decompile ima F o
> entry 0 frames 9 loop none settles none trailing 0
= 0
host 1
file F hex 534E4249010001000002000016 00*4 7D000004020D0250 11*8 07 00*8
$ decompile brr F o
> fault 8 store o.0.wav
= 8
none o.0.wav
";

// Files that are no bank.
const DAMAGED: &str = "\
file F hex 5641477000000020 00*7 1000007D 00*13 73 00*16 03 00*14
$ decompile vag F o
> fault 4 F NoLoopStart 0
= 4
file F hex 56414770 00*43
$ decompile vag F o
> fault 4 F VagShort 47
= 4
file F hex 5641477000000020 00*7 1100007D 00*13 73 00*32
$ decompile vag F o
> fault 4 F Ragged 17
= 4
file F hex 5641477000000020 00*7 1000007D 00*13 73 00*15 5001 00*14
$ decompile vag F o
> fault 4 F BadFilter 0 5
= 4
file F hex 5641477000000020 00*5 01001000007D 00*13 73 00*65552 01 00*14
$ decompile vag F o
> fault 4 F TooMuch 4097
= 4
file F hex 534E4249010001000002000016 00*4 7D000004020E0250 11*8 07 00*8
$ decompile brr F o
> fault 4 F BadLoopAddress 0
= 4
file F hex 534E424901000100000200000D 00*4 7D000004020402 00*9
$ decompile brr F o
> fault 4 F BadEntry 0
= 4
none o.0.wav
";

#[test]
fn gives_samples_back(rt: HostRuntime) -> Result<(), Fail> {
    plays(&rt, rt.alloc(), APART)
}

#[test]
fn tells_what_is_wrong(rt: HostRuntime) -> Result<(), Fail> {
    plays(&rt, rt.alloc(), DAMAGED)
}
