//! Manifests that are refused, with the line of each, and those that name a file that is not there.

use crate::script::plays;
use crate::stage::Stage;
use std::alloc::Global;
use std::process::Abort;
use std::test::Fail;

/// A manifest that lacks its samples, and one whose sample lacks its file.
const KEYS: &str = "format = 'brr';bank = 'b';";

const SAMPLE: &str = "format = 'brr';bank = 'b';[[sample]];name = 's';";

const WHOLE: &str = "\
3 manifest MissingKey format | 
3 manifest NotToml | format
3 manifest NotToml | bank = 'b';bank = 'b'
3 manifest WrongKind format | format = 1;sample = 1
3 manifest BadWord format | format = 'BRR'
3 manifest MissingKey bank | format = 'ima'
3 manifest MissingKey bank | format = 'brr'
3 manifest WrongKind bank | format = 'brr';bank = 1
3 manifest BadWord bank | format = 'brr';bank = ''
3 manifest BadWord bank | format = 'brr';bank = '.b'
3 manifest BadWord bank | format = 'brr';bank = 'b/c'
3 manifest NoSamples | format = 'brr';bank = '9_-.Z'
3 manifest NoSamples | format = 'brr';bank = '0123456789012345678901234567890123456789012345678901234567890123'
3 manifest BadWord bank | format = 'brr';bank = '01234567890123456789012345678901234567890123456789012345678901234'
3 manifest UnknownKey basement | format = 1;z = 1;basement = 1
3 manifest UnknownKey Z | format = 1;anchor = 1;Z = 1";

const NUMBERS: &str = "\
3 manifest WrongKind base | base = '512'
3 manifest WrongKind base | base = 512.0
3 manifest OutOfRange base -256 | base = -256
3 manifest NoSamples | base = 0
3 manifest OutOfRange base 511 | base = 511
3 manifest NoSamples | base = 65280
3 manifest OutOfRange base 65536 | base = 65536
3 manifest WrongKind block | block = 'x'
3 manifest OutOfRange block 4 | block = 4
3 manifest NoSamples | block = 8
3 manifest OutOfRange block 10 | block = 10
3 manifest NoSamples | block = 1024
3 manifest OutOfRange block 1028 | block = 1028
3 manifest WrongKind beam | beam = true
3 manifest OutOfRange beam 0 | beam = 0
3 manifest NoSamples | beam = 1
3 manifest NoSamples | beam = 64
3 manifest OutOfRange beam 65 | beam = 65;paths = 0
3 manifest WrongKind paths | paths = '4'
3 manifest OutOfRange paths 65 | paths = 65;budget = -1
3 manifest NoSamples | paths = 64
3 manifest WrongKind budget | budget = []
3 manifest OutOfRange budget -1 | budget = -1
3 manifest NoSamples | budget = 0
3 manifest NoSamples | budget = 1000000
3 manifest OutOfRange budget 1000001 | budget = 1000001
3 manifest OutOfRange budget 4294967296 | budget = 4294967296
3 manifest OutOfRange budget -9223372036854775808 | budget = -9223372036854775808
3 manifest WrongKind length | length = 1
3 manifest BadWord length | length = 'Exact'
3 manifest WrongKind start | start = 1
3 manifest BadWord start | start = 'back'
3 manifest WrongKind length | start = 1;length = 1
3 manifest OutOfRange block 1 | beam = 0;block = 1
3 manifest WrongKind start | sample = 1;start = 1";

const SAMPLES: &str = "\
3 manifest WrongKind sample | sample = 1
3 manifest NoSamples | sample = []
3 manifest WrongKind sample | [sample];name = 's'
3 manifest WrongKind sample | sample = [1]
3 manifest WrongKind sample | sample = [{ tone = 1 }, 1]
3 manifest UnknownKey tone | sample = [{ tone = 1 }, {}]
3 manifest MissingKey name | [[sample]]
3 manifest WrongKind name | [[sample]];name = 1
3 manifest BadWord name | [[sample]];name = ''
3 manifest BadWord name | [[sample]];name = 'a.b'
3 manifest MissingKey file | [[sample]];name = '0123456789_-abyz'
3 manifest BadWord name | [[sample]];name = '0123456789_-abyzA'
3 manifest BadWord file | [[sample]];name = 's';file = 's';[[sample]];name = 's';file = ''
3 manifest SameName s | [[sample]];name = 's';file = 's';[[sample]];name = 's';file = 'b'
3 manifest SameName t | sample = [{name='s',file='f'}, {name='t',file='f'}, {name='t',file='f'}, {name='s',file='f'}]
3 manifest Clash b.t.cert | sample = [{name='s',file='b.t.cert'}, {name='t',file='b'}]";

const FIELDS: &str = "\
3 manifest WrongKind file | file = 1
3 manifest BadWord file | file = ''
3 manifest BadWord file | file = \"a\\u0000\"
8 fetch s.wav | file = 's.wav'
3 manifest WrongKind channel | file = 's.wav';channel = 'left'
3 manifest OutOfRange channel -1 | file = 's.wav';channel = -1
8 fetch s.wav | file = 's.wav';channel = 0
8 fetch s.wav | file = 's.wav';channel = 1
3 manifest OutOfRange channel 2 | file = 's.wav';channel = 2;loop = 1
3 manifest WrongKind loop | file = 's.wav';loop = true
3 manifest BadWord loop | file = 's.wav';loop = 'off'
3 manifest UnknownKey Loop | file = 1;loops = 1;Loop = 1
3 manifest Clash b | file = 'b'
8 fetch ./b | file = './b'
8 fetch b.s.wav | file = 'b.s.wav'
3 manifest Clash b.s.first.wav | file = 'b.s.first.wav'
3 manifest Clash b.s.cert | file = 'b.s.cert'";

const OWN: &str = "\
3 manifest Clash m.toml | format = 'brr';bank = 'm.toml';[[sample]];name = 's';file = 's.wav'
3 manifest Clash b.s.wav | format = 'ima';bank = 'b';[[sample]];name = 's';file = 'b.s.wav'";

// The longest manifest, the most samples and the longest name of a file that may be, and one more of each; and a byte that is no text.
const LONG: &str = "\
file m.toml text format = 'brr';bank = 'b';[[sample]];name = 's';file = 's'
file m.toml pad 65536
$ compile m.toml
> fault 8 fetch s
= 8
file m.toml pad 65537
$ compile m.toml
> fault 3 manifest TooLong 65537
= 3
file m.toml text format = 'brr';bank = 'b'
file m.toml lines 64 [[sample]];name = 's'
$ compile m.toml
> fault 3 manifest MissingKey file
file m.toml lines 1 [[sample]];name = 's'
$ compile m.toml
> fault 3 manifest TooMany 65
file m.toml text format = 'brr';bank = 'b';[[sample]];name = 's';file = 'fffffffffffffffffffffffffffffffffffffffffffffffffffffffffffffffffffffffffffffffffffffffffffffffffffffffffffffffffffffffffffffffffffffffffffffffffffffffffffffffffffffffffffffffffffffffffffffffffffffffffffffffffffffffffffffffffffffffffffffffffffffffffffffff'
$ compile m.toml
> fault 8 fetch fffffffffffffffffffffffffffffffffffffffffffffffffffffffffffffffffffffffffffffffffffffffffffffffffffffffffffffffffffffffffffffffffffffffffffffffffffffffffffffffffffffffffffffffffffffffffffffffffffffffffffffffffffffffffffffffffffffffffffffffffffffffffffffff
file m.toml text format = 'brr';bank = 'b';[[sample]];name = 's';file = 'ffffffffffffffffffffffffffffffffffffffffffffffffffffffffffffffffffffffffffffffffffffffffffffffffffffffffffffffffffffffffffffffffffffffffffffffffffffffffffffffffffffffffffffffffffffffffffffffffffffffffffffffffffffffffffffffffffffffffffffffffffffffffffffffff'
$ compile m.toml
> fault 3 manifest BadWord file
file m.toml text format = 'brr'
file m.toml byte 12 FF
$ compile m.toml
> fault 3 manifest NotToml
= 3
";

/// Compiles a manifest for each row `FAULT | LINE;LINE;..`, whose lines come behind those of `front`.
fn refuses_each(rt: &impl Abort, alloc: Global, front: &str, rows: &str) -> Result<(), Fail> {
    let mut stage = Stage::new(alloc, "")?;
    for row in rows.lines() {
        let (fault, lines) = row.split_once(" | ").ok_or("a row has no fault")?;
        let form = format!(in alloc; "text {front}{lines}")?;
        stage.set(alloc, "m.toml", form.as_str())?;
        stage.command(alloc, "compile m.toml")?;
        let line = format!(in alloc; "fault {fault}")?;
        stage.says(rt, alloc, line.as_str())?;
    }
    Ok(())
}

#[test]
fn refuses_manifests(rt: HostRuntime) -> Result<(), Fail> {
    let alloc = rt.alloc();
    refuses_each(&rt, alloc, "", WHOLE)?;
    refuses_each(&rt, alloc, KEYS, NUMBERS)?;
    refuses_each(&rt, alloc, KEYS, SAMPLES)?;
    refuses_each(&rt, alloc, SAMPLE, FIELDS)?;
    refuses_each(&rt, alloc, "", OWN)
}

#[test]
fn refuses_what_is_too_long(rt: HostRuntime) -> Result<(), Fail> {
    plays(&rt, rt.alloc(), LONG)
}
