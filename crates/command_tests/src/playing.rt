//! `play`: outputs of files that were made by hand, and the faults of files.

use crate::script::plays;
use std::test::Fail;

// Codes 1 under shift 5 (or 6), then zeros under filter 1, in a block that repeats; codes 7 under shift 0; codes of IMA ADPCM that give 0, and 1 eight times. Where no output is asked for, no call comes after the fetch.
const OUTPUTS: &str = "\
file b- hex 534E4249010001000002000016 00*4 7D000004020D0250 11*8 07 00*8
$ play brr b- 0 20
> 16
> 16
> 16
> 16
> 16
> 16
> 16
> 16
> 16
> 16
> 16
> 16
> 16
> 16
> 16
> 16
> 15
> 14
> 13
> 12
= 0
file b- byte 24 60
$ play brr b- 0 33
> 32
> 32
> 32
> 32
> 32
> 32
> 32
> 32
> 32
> 32
> 32
> 32
> 32
> 32
> 32
> 32
> 30
> 28
> 26
> 24
> 22
> 20
> 18
> 16
> 15
> 14
> 13
> 12
> 11
> 10
> 9
> 8
> 7
= 0
file b- byte 22 04
file b- byte 24 53
$ play brr b- 0 20
> 16
> 16
> 16
> 16
> 16
> 16
> 16
> 16
> 16
> 16
> 16
> 16
> 16
> 16
> 16
> 16
> 16
> 16
> 16
> 16
= 0
file b- byte 24 51
$ play brr b- 0 20
> 16
> 16
> 16
> 16
> 16
> 16
> 16
> 16
> 16
> 16
> 16
> 16
> 16
> 16
> 16
> 16
> 0
> 0
> 0
> 0
= 0
file b- byte 22 05
$ play brr b- 0 1
> 16
= 0
file v hex 5641477000000020 00*7 1000007D 00*13 73 00*16 01 77*14
$ play vag v 0 29
> 28672
> 28672
> 28672
> 28672
> 28672
> 28672
> 28672
> 28672
> 28672
> 28672
> 28672
> 28672
> 28672
> 28672
> 28672
> 28672
> 28672
> 28672
> 28672
> 28672
> 28672
> 28672
> 28672
> 28672
> 28672
> 28672
> 28672
> 28672
> 0
= 0
file v byte 15 11
$ play vag v 0 1
> 28672
= 0
file w hex 524946463C00000057415645666D74201400000011000100007D00001C6F000008000400020009006661637404000000090000006461746108 00*7 01000000
$ play ima w 0 11
> 0
> 1
> 1
> 1
> 1
> 1
> 1
> 1
> 1
> 0
> 0
= 0
host 1
file b hex 534E4249010001000002000016 00*4 7D000004020D0250 11*8 07 00*8
$ play brr b 0 0
= 0
failed 0
";

// Two blocks of SPU-ADPCM, of which the second goes back to the last block with a start flag: to itself, or to the first.
const STARTS: &str = "\
file v hex 5641477000000020 00*7 2000007D 00*13 73 00*15 0C0481 11*13 1C07 00*14
$ play vag v 0 58
> 1
> -8
> 1
> 1
> 1
> 1
> 1
> 1
> 1
> 1
> 1
> 1
> 1
> 1
> 1
> 1
> 1
> 1
> 1
> 1
> 1
> 1
> 1
> 1
> 1
> 1
> 1
> 1
> 1
> 1
> 1
> 1
> 1
> 1
> 1
> 1
> 1
> 1
> 1
> 1
> 1
> 1
> 1
> 1
> 1
> 1
> 1
> 1
> 1
> 1
> 1
> 1
> 1
> 1
> 1
> 1
> 1
> 1
= 0
file v byte 65 03
$ play vag v 0 58
> 1
> -8
> 1
> 1
> 1
> 1
> 1
> 1
> 1
> 1
> 1
> 1
> 1
> 1
> 1
> 1
> 1
> 1
> 1
> 1
> 1
> 1
> 1
> 1
> 1
> 1
> 1
> 1
> 1
> 1
> 1
> 1
> 1
> 1
> 1
> 1
> 1
> 1
> 1
> 1
> 1
> 1
> 1
> 1
> 1
> 1
> 1
> 1
> 1
> 1
> 1
> 1
> 1
> 1
> 1
> 1
> 1
> -8
= 0
";

// An image of two blocks with other bytes, and one of 4,097 blocks.
const IMAGES: &str = "\
file F hex 534E4249010001000002000016 00*4 7D000004020D0250 11*8 07 00*8
file F byte 3 4A
$ play brr F 1 5
> fault 4 F NotImage
= 4
file F hex 534E4249010001000002000016 00*4 7D000004020D0250 11*8 07 00*8
file F byte 4 02
$ play brr F 1 5
> fault 4 F BadVersion 2
= 4
file F hex 534E4249010001000002000016 00*4 7D000004020D0250 11*8 07 00*8
file F byte 6 00
$ play brr F 1 5
> fault 4 F BadEntries 0
= 4
file F hex 534E4249010001000002000016 00*4 7D000004020D0250 11*8 07 00*8
file F byte 6 41
$ play brr F 1 5
> fault 4 F BadEntries 65
= 4
file F hex 534E4249010001000002000016 00*4 7D000004020D0250 11*8 07 00*8
file F byte 8 01
$ play brr F 1 5
> fault 4 F BadBase 513
= 4
file F hex 534E4249010001000002000016 00*4 7D000004020D0250 11*8 07 00*8
file F byte 14 01
$ play brr F 1 5
> fault 4 F ImageFull 66070
= 4
file F hex 534E4249010001000002000016 00*4 7D000004020D0250 11*8 07 00*8
file F byte 12 17
$ play brr F 1 5
> fault 4 F ImageLength 42 43
= 4
file F hex 534E4249010001000002000016 00*4 7D000004020D0250 11*8 07 00*8
file F byte 19 01
$ play brr F 1 5
> fault 4 F BadRate 0 16809216
= 4
file F hex 534E4249010001000002000016 00*4 7D000004020D0250 11*8 07 00*8
file F byte 21 01
$ play brr F 1 5
> fault 4 F BadEntry 0
= 4
file F hex 534E4249010001000002000016 00*4 7D000004020D0250 11*8 07 00*8
file F byte 33 06
$ play brr F 1 5
> fault 4 F BadEntry 0
= 4
file F hex 534E4249010001000002000016 00*4 7D000004020D0250 11*8 07 00*8
file F byte 22 05
$ play brr F 1 5
> fault 4 F BadLoopAddress 0
= 4
file F hex 534E4249010001000002000016 00*4 7D000004020D0250 11*8 07 00*8
$ play brr F 1 5
> fault 4 F NoEntry 1 1
= 4
file F cut 15
$ play brr F 1 5
> fault 4 F NotImage
= 4
file F hex 534E424901000100000200000D900000007D000004020D02 00*36864 01 00*8
$ play brr F 1 5
> fault 4 F TooMuch 4097
= 4
";

// A VAG file with other bytes, and its fronts.
const VAGS: &str = "\
file F hex 5641477000000020 00*7 1000007D 00*13 73 00*16 01 77*14
file F byte 3 71
$ play vag F 1 5
> fault 4 F NotVag
= 4
file F hex 5641477000000020 00*7 1000007D 00*13 73 00*16 01 77*14
file F byte 18 00
$ play vag F 1 5
> fault 4 F BadRate 0
= 4
file F hex 5641477000000020 00*7 1000007D 00*13 73 00*16 01 77*14
file F byte 17 0F
$ play vag F 1 5
> fault 4 F BadRate 1015040
= 4
file F hex 5641477000000020 00*7 1000007D 00*13 73 00*16 01 77*14
file F byte 15 0F
$ play vag F 1 5
> fault 4 F Ragged 15
= 4
file F hex 5641477000000020 00*7 1000007D 00*13 73 00*16 01 77*14
file F byte 49 00
$ play vag F 1 5
> fault 4 F NoEnd
= 4
file F hex 5641477000000020 00*7 1000007D 00*13 73 00*16 01 77*14
file F byte 49 03
$ play vag F 1 5
> fault 4 F NoLoopStart 0
= 4
file F hex 5641477000000020 00*7 1000007D 00*13 73 00*16 01 77*14
file F byte 48 50
$ play vag F 1 5
> fault 4 F BadFilter 0 5
= 4
file F hex 5641477000000020 00*7 1000007D 00*13 73 00*16 01 77*14
$ play vag F 1 5
> fault 4 F NoEntry 1 1
= 4
file F cut 47
$ play vag F 1 5
> fault 4 F VagShort 47
= 4
file F cut 4
$ play vag F 1 5
> fault 4 F VagShort 4
= 4
file F cut 3
$ play vag F 1 5
> fault 4 F NotVag
= 4
";

// A WAVE file of IMA ADPCM with other bytes.
const WAVES: &str = "\
file F hex 524946463C00000057415645666D74201400000011000100007D00001C6F000008000400020009006661637404000000090000006461746108 00*7 01000000
file F byte 0 00
$ play ima F 1 5
> fault 4 F NotRiff
= 4
file F hex 524946463C00000057415645666D74201400000011000100007D00001C6F000008000400020009006661637404000000090000006461746108 00*7 01000000
file F byte 12 00
$ play ima F 1 5
> fault 4 F NoFmt
= 4
file F hex 524946463C00000057415645666D74201400000011000100007D00001C6F000008000400020009006661637404000000090000006461746108 00*7 01000000
file F byte 20 01
$ play ima F 1 5
> fault 4 F NotIma 1
= 4
file F hex 524946463C00000057415645666D74201400000011000100007D00001C6F000008000400020009006661637404000000090000006461746108 00*7 01000000
file F byte 22 02
$ play ima F 1 5
> fault 4 F BadChannels 2
= 4
file F hex 524946463C00000057415645666D74201400000011000100007D00001C6F000008000400020009006661637404000000090000006461746108 00*7 01000000
file F byte 25 00
$ play ima F 1 5
> fault 4 F BadRate 0
= 4
file F hex 524946463C00000057415645666D74201400000011000100007D00001C6F000008000400020009006661637404000000090000006461746108 00*7 01000000
file F byte 34 08
$ play ima F 1 5
> fault 4 F BadBits 8
= 4
file F hex 524946463C00000057415645666D74201400000011000100007D00001C6F000008000400020009006661637404000000090000006461746108 00*7 01000000
file F byte 32 0A
$ play ima F 1 5
> fault 4 F BadAlign 10
= 4
file F hex 524946463C00000057415645666D74201400000011000100007D00001C6F000008000400020009006661637404000000090000006461746108 00*7 01000000
file F byte 38 08
$ play ima F 1 5
> fault 4 F BadAlign 8
= 4
file F hex 524946463C00000057415645666D74201400000011000100007D00001C6F000008000400020009006661637404000000090000006461746108 00*7 01000000
file F byte 52 00
$ play ima F 1 5
> fault 4 F NoData
= 4
file F hex 524946463C00000057415645666D74201400000011000100007D00001C6F000008000400020009006661637404000000090000006461746108 00*7 01000000
file F byte 62 59
$ play ima F 1 5
> fault 4 F BadHead 0 BadIndex 89
= 4
file F hex 524946463C00000057415645666D74201400000011000100007D00001C6F000008000400020009006661637404000000090000006461746108 00*7 01000000
file F byte 63 01
$ play ima F 1 5
> fault 4 F BadHead 0 BadReserved 1
= 4
file F hex 524946463C00000057415645666D74201400000011000100007D00001C6F000008000400020009006661637404000000090000006461746108 00*7 01000000
$ play ima F 1 5
> fault 4 F NoEntry 1 1
= 4
file F byte 16 10
file F cut 36
$ play ima F 1 5
> fault 4 F BadFmt 16
= 4
";

#[test]
fn plays_each_format(rt: HostRuntime) -> Result<(), Fail> {
    plays(&rt, rt.alloc(), OUTPUTS)
}

#[test]
fn goes_back_to_the_last_start(rt: HostRuntime) -> Result<(), Fail> {
    plays(&rt, rt.alloc(), STARTS)
}

#[test]
fn refuses_images(rt: HostRuntime) -> Result<(), Fail> {
    plays(&rt, rt.alloc(), IMAGES)
}

#[test]
fn refuses_vag_files(rt: HostRuntime) -> Result<(), Fail> {
    plays(&rt, rt.alloc(), VAGS)
}

#[test]
fn refuses_ima_files(rt: HostRuntime) -> Result<(), Fail> {
    plays(&rt, rt.alloc(), WAVES)
}
