//! `bound`: bounds that are known whole, and bounds between two numbers that plain programs give.

use crate::script::plays;
use std::test::Fail;

// An output of BRR counts twice, so no output meets an odd target; zeros are met. An empty image.
const EXACT: &str = "\
file m.toml text format = 'brr';bank = 'b';[[sample]];name = 's';file = 's.wav'
file s.wav wave none 1*16
file b hex 534E424901000100000200000D 00*4 7D00000402040201 00*8
$ bound m.toml 0
> bound s blocks 1 loop none error 16 bound 16 gap 0 optimal
> done 1 samples 0 files
= 0
$ bound m.toml 100000
> bound s blocks 1 loop none error 16 bound 16 gap 0 optimal
> done 1 samples 0 files
= 0
file s.wav wave none 0*16
$ bound m.toml 500
> bound s blocks 1 loop none error 0 bound 0 gap 0 optimal
> done 1 samples 0 files
= 0
file b hex 00
file b cut 0
$ bound m.toml 1
> fault 4 b NotImage
= 4
";

// A square wave, whose error is four times its floor in BRR, and a triangle, each of several blocks. A bound may miss that of the plain program by a hundredth of the error, and may not pass the error of the best blocks at hand.
const STRONG: &str = "\
file m.toml text format = 'brr';bank = 'b';budget = 0;[[sample]];name = 's';file = 's.wav'
file s.wav wave none 20000*8 -20000*8 20000*8 -20000*8 20000*8 -20000*8 20000*8 -20000*8
$ compile m.toml
~ sample s blocks 4 loop none error 14745600 bound 
> done 1 samples 3 files
= 0
$ bound m.toml 500
< 14137344..14745600 bound s blocks 4 loop none error 14745600 bound 
> done 1 samples 0 files
= 0
file m.toml text format = 'spu';bank = 'b';budget = 0;[[sample]];name = 's';file = 's.wav'
file s.wav wave none 20000*8 -20000*8 20000*8 -20000*8 20000*8 -20000*8 20000*8 -20000*8
$ compile m.toml
~ sample s blocks 3 loop none error 14745600 bound 
> done 1 samples 3 files
= 0
$ bound m.toml 500
< 14367744..14745600 bound s blocks 3 loop none error 14745600 bound 
> done 1 samples 0 files
= 0
file m.toml text format = 'brr';bank = 'b';budget = 0;[[sample]];name = 's';file = 's.wav'
file s.wav wave none 15000 12000 9000 6000 3000 0 -3000 -6000 -9000 -12000 -15000 -12000 -9000 -6000 -3000 0 3000 6000 9000 12000 15000 12000 9000 6000 3000 0 -3000 -6000 -9000 -12000 -15000 -12000 -9000 -6000 -3000 0 3000 6000 9000 12000 15000 12000 9000 6000 3000 0 -3000 -6000 -9000 -12000 -15000 -12000 -9000 -6000 -3000 0 3000 6000 9000 12000 15000 12000 9000 6000 3000 0 -3000 -6000 -9000 -12000 -15000 -12000 -9000 -6000 -3000 0 3000 6000 9000 12000
$ compile m.toml
~ sample s blocks 5 loop none error 7242456 bound 
> done 1 samples 3 files
= 0
$ bound m.toml 500
< 6939841..7240444 bound s blocks 5 loop none error 7242456 bound 
> done 1 samples 0 files
= 0
file m.toml text format = 'spu';bank = 'b';budget = 0;[[sample]];name = 's';file = 's.wav'
file s.wav wave none 15000 12000 9000 6000 3000 0 -3000 -6000 -9000 -12000 -15000 -12000 -9000 -6000 -3000 0 3000 6000 9000 12000 15000 12000 9000 6000 3000 0 -3000 -6000 -9000 -12000 -15000 -12000 -9000 -6000 -3000 0 3000 6000 9000 12000 15000 12000 9000 6000 3000 0 -3000 -6000 -9000 -12000 -15000 -12000 -9000 -6000 -3000 0 3000 6000 9000 12000 15000 12000 9000 6000 3000 0 -3000 -6000 -9000 -12000 -15000 -12000 -9000 -6000 -3000 0 3000 6000 9000 12000
$ compile m.toml
~ sample s blocks 3 loop none error 18034095 bound 
> done 1 samples 3 files
= 0
$ bound m.toml 500
< 14950130..15407354 bound s blocks 3 loop none error 18034095 bound 
> done 1 samples 0 files
= 0
";

#[test]
fn tells_exact_bounds(rt: HostRuntime) -> Result<(), Fail> {
    plays(&rt, rt.alloc(), EXACT)
}

#[test]
fn comes_near_the_error(rt: HostRuntime) -> Result<(), Fail> {
    plays(&rt, rt.alloc(), STRONG)
}
