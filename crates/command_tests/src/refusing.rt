//! `block`, other words, and sources that are refused.

use crate::script::plays;
use std::test::Fail;

// Sixteen equal samples: an output counts twice and is at most 32764 under the shift 12; the least code of it is -8.
const BLOCKS: &str = "\
file IN sound 0*16
$ block IN OUT-
> error 0 bound 0 gap 0 optimal
= 0
holds OUT- 01 00*8
file IN sound 1*16
$ block IN OUT-
> error 16 bound 16 gap 0 optimal
= 0
holds OUT- 01 00*8
file IN sound 32767*16
$ block IN OUT-
> error 268304400 bound 268304400 gap 0 optimal
= 0
holds OUT- C1 77*8
file IN sound -32768*16
$ block IN OUT-
> error 0 bound 0 gap 0 optimal
= 0
holds OUT- C1 88*8
";

// Files of another length, and each call of `block` failing in turn.
const LENGTHS: &str = "\
host
file IN text 
file IN cut 0
file IN pad 0
$ block IN OUT
> fault 4 IN BlockLength 0
= 4
file IN text 
file IN cut 0
file IN pad 31
$ block IN OUT
> fault 4 IN BlockLength 31
= 4
file IN text 
file IN cut 0
file IN pad 33
$ block IN OUT
> fault 4 IN BlockLength 33
= 4
file IN text 
file IN cut 0
file IN pad 40
$ block IN OUT
> fault 4 IN BlockLength 33
= 4
there IN
none OUT
host 0
file IN sound 0*16
$ block IN OUT
> fault 8 fetch IN
= 8
failed 1
none OUT
host 1
file IN sound 0*16
$ block IN OUT
> fault 8 store OUT
= 8
failed 1
none OUT
host 2
file IN sound 0*16
$ block IN OUT
= 8
failed 1
there OUT
";

// Words that are no command.
const WORDS: &str = "\
$
> fault 2 words
$ compile
> fault 2 words
$ -h
> fault 2 words
$ block IN
> fault 2 words
$ block  OUT
> fault 2 words
$ block IN -OUT
> fault 2 words
$ Block IN OUT
> fault 2 words
$ play brr b 00 5
> fault 2 words
$ play brr b 64 5
> fault 2 words
$ play brr b 0 1000001
> fault 2 words
$ play brr b +0 5
> fault 2 words
$ play brr b 0 -5
> fault 2 words
$ play wav b 0 5
> fault 2 words
$ play brr b 0
> fault 2 words
$ play brr b 0 5 6
> fault 2 words
$ bound m.toml 100001
> fault 2 words
$ bound m.toml 01
> fault 2 words
= 2
";

// The line of a fault is not said: the fault is the cause all the same, and nothing more is stored.
const UNSAID: &str = "\
host 0
$ compile
= 2
failed 1
host 1
file m.toml text format = 'brr'
$ compile m.toml
= 3
failed 1
none b b.s.first.wav b.s.cert
host 2
file m.toml text format = 'brr';bank = 'b';[[sample]];name = 's';file = 's.wav'
file s.wav wave 0..16 0*16
$ compile m.toml
= 4
failed 1
none b b.s.first.wav b.s.cert
host 2
file m.toml text format = 'brr';bank = 'b';[[sample]];name = 's';file = 's.wav'
file s.wav wave none
$ compile m.toml
= 5
failed 1
none b b.s.first.wav b.s.cert
host 2
file m.toml text format = 'brr';bank = 'b';base = 65280;[[sample]];name = 's';file = 's.wav'
file s.wav wave none 0*449
$ compile m.toml
= 6
failed 1
none b b.s.first.wav b.s.cert
host 4
file m.toml text format = 'brr';bank = 'b';[[sample]];name = 's';file = 's.wav'
file s.wav wave none 1*16
file b hex 534E424901000100000200000D 00*4 7D00000402040201 00*8
file c hex 41444243 01 00 0100 0100 0000 0F 00*7 01 00*3 00*4 FFFF 01 00*3 00*4 10 00*7
file b.s.cert as c
$ check m.toml
= 7
failed 1
same b.s.cert c
none b.s.first.wav
";

// A file of three samples of 8 bits behind a `LIST` of three bytes and its pad, with other bytes, and its fronts.
const SOURCES: &str = "\
file m.toml text format = 'brr';bank = 'b';[[sample]];name = 's';file = 's.wav'
file e hex 524946463300000057415645666D74201000000001000100007D0000007D0000010008004C4953540300000001020300646174610300000080817F
file s.wav as e
file s.wav byte 52 FFFFFFFF
$ compile m.toml
> fault 4 s Streaming
file s.wav as e
file s.wav byte 36 64617461
$ compile m.toml
> fault 4 s DataTwice
file s.wav as e
file s.wav byte 20 FEFF
$ compile m.toml
> fault 4 s BadFmt 16
file s.wav as e
file s.wav byte 20 03
$ compile m.toml
> fault 4 s NotPcm 3
file s.wav as e
file s.wav byte 22 03
$ compile m.toml
> fault 4 s BadChannels 3
file s.wav as e
file s.wav byte 25 00
$ compile m.toml
> fault 4 s BadRate 0
file s.wav as e
file s.wav byte 34 18
$ compile m.toml
> fault 4 s BadBits 24
file s.wav as e
file s.wav byte 32 02
$ compile m.toml
> fault 4 s BadAlign 2
file s.wav as e
file s.wav byte 22 02
file s.wav byte 32 02
$ compile m.toml
> fault 4 s NeedsChannel
file s.wav as e
file s.wav cut 58
$ compile m.toml
> fault 4 s Truncated 48
file s.wav cut 56
$ compile m.toml
> fault 4 s Truncated 48
file s.wav cut 55
$ compile m.toml
> fault 4 s NoData
file s.wav cut 47
$ compile m.toml
> fault 4 s NoData
file s.wav cut 46
$ compile m.toml
> fault 4 s Truncated 36
file s.wav cut 44
$ compile m.toml
> fault 4 s Truncated 36
file s.wav cut 43
$ compile m.toml
> fault 4 s NoData
file s.wav cut 36
$ compile m.toml
> fault 4 s NoData
file s.wav cut 35
$ compile m.toml
> fault 4 s Truncated 12
file s.wav cut 20
$ compile m.toml
> fault 4 s Truncated 12
file s.wav cut 19
$ compile m.toml
> fault 4 s NoFmt
file s.wav cut 12
$ compile m.toml
> fault 4 s NoFmt
file s.wav cut 11
$ compile m.toml
> fault 4 s NotWave
file s.wav cut 4
$ compile m.toml
> fault 4 s NotWave
file s.wav cut 3
$ compile m.toml
> fault 4 s NotRiff
file s.wav cut 0
$ compile m.toml
> fault 4 s NotRiff
file m.toml text format = 'brr';bank = 'b';[[sample]];name = 's';file = 's.wav';channel = 1
file s.wav as e
$ compile m.toml
> fault 4 s NoChannel 1
= 4
";

// A loop of all of sixteen frames with other bytes, samplers that are cut short, and sounds that do not fit.
const LOOPS: &str = "\
file m.toml text format = 'brr';bank = 'b';[[sample]];name = 's';file = 's.wav'
file l hex 524946468800000057415645666D74201000000001000100007D000000FA0000020010006461746120 00*35 736D706C3C 00*11 127A00003C 00*15 01 00*19 0F 00*11
file s.wav as l
file s.wav byte 132 10
$ compile m.toml
> fault 4 s LoopOutside 16 16
file s.wav as l
file s.wav byte 124 01
$ compile m.toml
> fault 4 s LoopKind 1
file s.wav as l
file s.wav byte 128 10
$ compile m.toml
> fault 4 s LoopBackwards 16 15
file s.wav hex 524946466F00000057415645666D74201000000001000100007D000000FA0000020010006461746120 00*35 736D706C23 00*11 127A00003C 00*15 01 00*6
$ compile m.toml
> fault 4 s SmplShort 35
file s.wav hex 524946468700000057415645666D74201000000001000100007D000000FA0000020010006461746120 00*35 736D706C3B 00*11 127A00003C 00*15 01 00*19 0F 00*10
$ compile m.toml
> fault 4 s SmplShort 59
file s.wav hex 524946467000000057415645666D74201000000001000100007D000000FA0000020010006461746120 00*35 736D706C24 00*39
$ compile m.toml
> sample s blocks 1 loop none error 0 bound 0 gap 0 levels 1 0 0 0 optimal
> done 1 samples 3 files
= 0
host
file m.toml text format = 'ima';bank = 'b';[[sample]];name = 's';file = 's.wav'
file s.wav wave none 0*262096
$ compile m.toml
> fault 5 s TooLong 520
file m.toml text format = 'brr';bank = 'b';[[sample]];name = 's';file = 's.wav'
file s.wav wave none
$ compile m.toml
> fault 5 s EmptySample
file s.wav wave 0..23 0*24
$ compile m.toml
> fault 5 s LoopLength 24 16
file s.wav wave none 0*65537
$ compile m.toml
> fault 5 s TooLong 4097
= 5
none b b.s.first.wav b.s.cert
";

#[test]
fn makes_blocks(rt: HostRuntime) -> Result<(), Fail> {
    plays(&rt, rt.alloc(), BLOCKS)
}

#[test]
fn refuses_another_length(rt: HostRuntime) -> Result<(), Fail> {
    plays(&rt, rt.alloc(), LENGTHS)
}

#[test]
fn refuses_other_words(rt: HostRuntime) -> Result<(), Fail> {
    plays(&rt, rt.alloc(), WORDS)
}

#[test]
fn keeps_its_cause_where_nothing_is_said(rt: HostRuntime) -> Result<(), Fail> {
    plays(&rt, rt.alloc(), UNSAID)
}

#[test]
fn refuses_sources(rt: HostRuntime) -> Result<(), Fail> {
    plays(&rt, rt.alloc(), SOURCES)
}

#[test]
fn refuses_loops(rt: HostRuntime) -> Result<(), Fail> {
    plays(&rt, rt.alloc(), LOOPS)
}
