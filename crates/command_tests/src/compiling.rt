//! `compile` and `make`: what is stored and said, and what stands where a call fails.

use crate::script::plays;
use std::test::Fail;

// Banks of one block, whose first pass is the source. A certificate has one segment of one block at level 0, with bound 0 and no layers.
const FORMATS: &str = "\
file m.toml text format = 'brr';bank = 'b';[[sample]];name = 's';file = 's.wav'
file s.wav wave 0..15 0*16
$ compile m.toml
> sample s blocks 1 loop 0 error 0 bound 0 gap 0 levels 1 0 0 0 optimal
> done 1 samples 3 files
= 0
holds b 534E424901000100000200000D 00*4 7D00000402040203 00*8
same b.s.first.wav s.wav
holds b.s.cert 41444243 01 00 0100 0100 00*14
$ check m.toml
> sample s blocks 1 loop 0 error 0 bound 0 gap 0 levels 1 0 0 0 optimal
> done 1 samples 0 files
= 0
$ decompile brr b o
> entry 0 frames 16 loop 0..15 settles 0 trailing 0
= 0
same o.0.wav b.s.first.wav
host
file m.toml text format = 'spu';bank = 'b';[[sample]];name = 's';file = 's.wav'
file s.wav wave none 0*28
$ compile m.toml
> sample s blocks 1 loop none error 0 bound 0 gap 0 levels 1 0 0 0 optimal
> done 1 samples 3 files
= 0
holds b.s.vag 5641477000000020 00*7 1000007D 00*13 73 00*16 01 00*14
same b.s.first.wav s.wav
holds b.s.cert 41444243 01 01 0100 0100 00*14
file s.wav wave none 32767*28
$ compile m.toml
> sample s blocks 1 loop none error 469532700 bound 469532700 gap 0 levels 1 0 0 0 optimal
> done 1 samples 3 files
= 0
holds b.s.vag 5641477000000020 00*7 1000007D 00*13 73 00*16 01 77*14
file s.wav wave none -32768*28
$ compile m.toml
> sample s blocks 1 loop none error 0 bound 0 gap 0 levels 1 0 0 0 optimal
> done 1 samples 3 files
= 0
holds b.s.vag 5641477000000020 00*7 1000007D 00*13 73 00*16 01 88*14
host
file m.toml text format = 'ima';bank = 'b';block = 8;[[sample]];name = 's';file = 's.wav'
file s.wav wave none 0 1*8
$ compile m.toml
> sample s blocks 1 loop none error 0 bound 0 gap 0 levels 1 0 0 0 optimal
> done 1 samples 3 files
= 0
holds b.s.wav 524946463C00000057415645666D74201400000011000100007D00001C6F000008000400020009006661637404000000090000006461746108 00*7 01000000
same b.s.first.wav s.wav
holds b.s.cert 41444243 01 02 0100 0100 00*14
host
file m.toml text format = 'spu';bank = 'b';[[sample]];name = 's';file = 's.wav'
file s.wav wave 0..27 0*28
$ compile m.toml
> sample s blocks 1 loop 0 error 0 bound 0 gap 0 levels 1 0 0 0 optimal
> done 1 samples 3 files
= 0
holds b.s.vag 5641477000000020 00*7 1000007D 00*13 73 00*16 07 00*14
file s.wav wave 28..55 0*56
$ compile m.toml
> sample s blocks 2 loop 1 error 0 bound 0 gap 0 levels 2 0 0 0 optimal
> done 1 samples 3 files
= 0
holds b.s.vag 5641477000000020 00*7 2000007D 00*13 73 00*32 07 00*14
file s.wav wave 0..55 0*56
$ compile m.toml
> sample s blocks 2 loop 0 error 0 bound 0 gap 0 levels 1 0 0 0 optimal
> done 1 samples 3 files
= 0
holds b.s.vag 5641477000000020 00*7 2000007D 00*13 73 00*16 04 00*15 03 00*14
";

// The blocks before a loop are a segment of their own; a segment of more than 64 blocks has a floor alone. No output of BRR meets an odd target.
const SEGMENTS: &str = "\
file m.toml text format = 'brr';bank = 'b';[[sample]];name = 's';file = 's.wav'
file s.wav wave 16..47 0*48
$ compile m.toml
> sample s blocks 3 loop 1 error 0 bound 0 gap 0 levels 2 0 0 0 optimal
> done 1 samples 3 files
= 0
holds b 534E424901000100000200001F 00*4 7D000004020D02 00*18 03 00*8
host
file m.toml text format = 'brr';bank = 'b';[[sample]];name = 's';file = 's.wav'
file s.wav wave none 1*16
$ compile m.toml
> sample s blocks 1 loop none error 16 bound 16 gap 0 levels 1 0 0 0 optimal
> done 1 samples 3 files
= 0
file s.wav wave none 0*1040
$ compile m.toml
> sample s blocks 65 loop none error 0 bound 0 gap 0 levels 0 0 0 1 optimal
> done 1 samples 3 files
= 0
file s.wav wave none 1*1040
$ compile m.toml
> sample s blocks 65 loop none error 1040 bound 1040 gap 0 levels 0 0 0 1 optimal
> done 1 samples 3 files
= 0
";

// A loop that is no whole number of blocks is played several times.
const ROUNDS: &str = "\
file m.toml text format = 'brr';bank = 'b';length = 'unroll';[[sample]];name = 's';file = 's.wav'
file s.wav wave 0..23 0*24
$ compile m.toml
> sample s blocks 3 loop 0 error 0 bound 0 gap 0 levels 1 0 0 0 optimal
> done 1 samples 3 files
= 0
file s.wav wave 0..0 0
$ compile m.toml
> sample s blocks 1 loop 0 error 0 bound 0 gap 0 levels 1 0 0 0 optimal
> done 1 samples 3 files
= 0
file m.toml text format = 'spu';bank = 'b';length = 'unroll';[[sample]];name = 's';file = 's.wav'
$ compile m.toml
> sample s blocks 1 loop 0 error 0 bound 0 gap 0 levels 1 0 0 0 optimal
> done 1 samples 3 files
= 0
file s.wav wave 0..23 0*24
$ compile m.toml
> sample s blocks 6 loop 0 error 0 bound 0 gap 0 levels 1 0 0 0 optimal
> done 1 samples 3 files
= 0
";

// The longest sample that an image holds at the last address, the longest file that may be read, and one more of each. A chunk of any other name is passed over.
const LONGEST: &str = "\
file m.toml text format = 'brr';bank = 'b';base = 65280;[[sample]];name = 's';file = 's.wav'
file s.wav wave none 0*448
$ compile m.toml
> sample s blocks 28 loop none error 0 bound 0 gap 0 levels 1 0 0 0 optimal
> done 1 samples 3 files
= 0
host
file m.toml text format = 'brr';bank = 'b';base = 65280;[[sample]];name = 's';file = 's.wav'
file s.wav wave none 0*449
$ compile m.toml
> fault 6 b ImageFull 65545
= 6
none b b.s.first.wav b.s.cert
host
file m.toml text format = 'brr';bank = 'b';[[sample]];name = 's';file = 's.wav'
file s.wav wave none 0*16
file s.wav more 4C495354 ACFF3F00
file s.wav pad 4194304
$ compile m.toml
> sample s blocks 1 loop none error 0 bound 0 gap 0 levels 1 0 0 0 optimal
> done 1 samples 3 files
= 0
file s.wav pad 4194305
$ compile m.toml
> fault 4 s FileLong 4194304
= 4
";

// A wave of 64 frames whose halves are of opposite sign, as an editor writes it, with a `LIST` in front of the samples. Its blocks and its bound are those of the plain compiler.
const SEARCHED: &str = "\
file m.toml text format = 'brr';bank = 'b';[[sample]];name = 's';file = 's.wav'
file s.wav hex 524946460201000057415645666D74201000000001000100007D000000FA0000020010004C49535412000000494E464F4953465406000000656469746F726461746180 00*5 AD05FC0AEE0F8214B818901C0B202823E72548284C2AF22B3A2D242EB12EE02EB12E242E3A2DF22B4C2A4828E72528230B20901CB8188214EE0FFC0AAD05000053FA04F512F07EEB48E770E3F5DFD8DC19DAB8D7B4D50ED4C6D2DCD14FD120D14FD1DCD1C6D20ED4B4D5B8D719DAD8DCF5DF70E348E77EEB12F004F553FA736D706C3C 00*11 127A00003C 00*15 01 00*19 3F 00*11
$ compile m.toml
keep line
> done 1 samples 3 files
= 0
$ check m.toml
~ sample s blocks 4 loop 0 error 5717360 bound 57
> done 1 samples 0 files
= 0
$ check m.toml
keep again
> done 1 samples 0 files
= 0
same again line
";

// The sounds of the number 0 in each format.
const MADE: &str = "\
$ make 0
> sample brr blocks 64 loop 32 error 2904885 bound 2128029 gap 776856 levels 0 0 0 2
> sample spu blocks 147 loop 19 error 7355437 bound 3284693 gap 4070744 levels 0 0 0 2
> sample ima blocks 3 loop 512..1023 error 9727928 bound 64620 gap 9663308 levels 0 0 0 3
> done 3 samples 0 files
= 0
";

// Each call of a run fails in turn. Where the line after a fault cannot be said either, that is no cause of its own.
const FAILING: &str = "\
host 0
file m.toml text format = 'brr';bank = 'b';[[sample]];name = 's';file = 's.wav'
file s.wav wave 0..15 0*16
$ compile m.toml
> fault 8 fetch m.toml
= 8
failed 1
none b b.s.first.wav b.s.cert
host 1
file m.toml text format = 'brr';bank = 'b';[[sample]];name = 's';file = 's.wav'
file s.wav wave 0..15 0*16
$ compile m.toml
> fault 8 fetch s.wav
= 8
failed 1
none b b.s.first.wav b.s.cert
host 2
file m.toml text format = 'brr';bank = 'b';[[sample]];name = 's';file = 's.wav'
file s.wav wave 0..15 0*16
$ compile m.toml
> fault 8 store b
= 8
failed 1
none b b.s.first.wav b.s.cert
host 2 3
file m.toml text format = 'brr';bank = 'b';[[sample]];name = 's';file = 's.wav'
file s.wav wave 0..15 0*16
$ compile m.toml
= 8
failed 2
none b b.s.first.wav b.s.cert
host 3
file m.toml text format = 'brr';bank = 'b';[[sample]];name = 's';file = 's.wav'
file s.wav wave 0..15 0*16
$ compile m.toml
> fault 8 store b.s.first.wav
= 8
failed 1
there b
none b.s.first.wav b.s.cert
host 4
file m.toml text format = 'brr';bank = 'b';[[sample]];name = 's';file = 's.wav'
file s.wav wave 0..15 0*16
$ compile m.toml
> fault 8 store b.s.cert
= 8
failed 1
there b b.s.first.wav
none b.s.cert
host 5
file m.toml text format = 'brr';bank = 'b';[[sample]];name = 's';file = 's.wav'
file s.wav wave 0..15 0*16
$ compile m.toml
= 8
failed 1
there b b.s.first.wav b.s.cert
host
file m.toml text format = 'brr';bank = 'b';[[sample]];name = 's';file = 's.wav'
$ compile m.toml
> fault 8 fetch s.wav
= 8
failed 1
none b b.s.first.wav b.s.cert
host 7
file m.toml text format = 'brr';bank = 'b';[[sample]];name = 'x';file = 'r';[[sample]];name = 'y';file = 's.wav';[[sample]];name = 'z';file = 'r'
file s.wav wave none 0*40
file r wave 0..111 0*112
$ compile m.toml
> fault 8 store b.y.first.wav
= 8
there b b.x.first.wav b.x.cert
none b.y.first.wav b.y.cert b.z.first.wav b.z.cert
host 8
file m.toml text format = 'spu';bank = 'b';[[sample]];name = 'x';file = 'r';[[sample]];name = 'y';file = 's.wav';[[sample]];name = 'z';file = 'r'
file s.wav wave none 0*40
file r wave 0..111 0*112
$ compile m.toml
> fault 8 store b.y.first.wav
= 8
there b.x.vag b.x.first.wav b.x.cert b.y.vag
none b.y.first.wav b.y.cert b.z.vag b.z.first.wav b.z.cert
";

#[test]
fn stores_each_format(rt: HostRuntime) -> Result<(), Fail> {
    plays(&rt, rt.alloc(), FORMATS)
}

#[test]
fn counts_segments(rt: HostRuntime) -> Result<(), Fail> {
    plays(&rt, rt.alloc(), SEGMENTS)
}

#[test]
fn unrolls_loops(rt: HostRuntime) -> Result<(), Fail> {
    plays(&rt, rt.alloc(), ROUNDS)
}

#[test]
fn keeps_to_the_limits(rt: HostRuntime) -> Result<(), Fail> {
    plays(&rt, rt.alloc(), LONGEST)
}

#[test]
fn searches_a_closed_loop(rt: HostRuntime) -> Result<(), Fail> {
    plays(&rt, rt.alloc(), SEARCHED)
}

#[test]
fn makes_the_sounds_of_nought(rt: HostRuntime) -> Result<(), Fail> {
    plays(&rt, rt.alloc(), MADE)
}

#[test]
fn tells_which_call_failed(rt: HostRuntime) -> Result<(), Fail> {
    plays(&rt, rt.alloc(), FAILING)
}
