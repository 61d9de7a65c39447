//! Manifests that are read.

use manifest_reader::read_manifest;
use std::test::Fail;

// What stands in front of a sample.
const KEYS: &str = "format = 'brr'\nbank = 'b'\n";

// The example of the manifest's documentation, and what it says.
const EXAMPLE: &str =
    "format = \"brr\"\nbank = \"strings.img\"\nbase = 512\nbeam = 8\nbudget = 100000\nlength = \"unroll\"\nstart = \"rotate\"\n\n[[sample]]\nname = \"cello\"\nfile = \"cello.wav\"\n\n[[sample]]\nname = \"hit\"\nfile = \"hit-stereo.wav\"\nchannel = 1\nloop = \"none\"\n";

const EXAMPLE_READ: &str =
    "Manifest { kind: Brr, bank: Text { text: \"strings.img\" }, base: 512, block: 256, beam: 8, paths: 1, budget: 100000, length: Unroll, start: Rotate, samples: [SampleEntry { name: Text { text: \"cello\" }, file: Text { text: \"cello.wav\" }, channel: None, looped: true }, SampleEntry { name: Text { text: \"hit\" }, file: Text { text: \"hit-stereo.wav\" }, channel: Some(1), looped: false }] }";

// Every key, and only those that are required.
const FULL: &str =
    "base = 0\nblock = 8\nbeam = 64\nbudget = 0\nlength = 'exact'\nstart = 'front'\n[[sample]]\nname = 's'\nfile = 'f'\nchannel = 0\nloop = 'smpl'";

const FULL_READ: &str =
    "Manifest { kind: Brr, bank: Text { text: \"b\" }, base: 0, block: 8, beam: 64, paths: 1, budget: 0, length: Exact, start: Front, samples: [SampleEntry { name: Text { text: \"s\" }, file: Text { text: \"f\" }, channel: Some(0), looped: true }] }";

const BARE: &str = "[[sample]]\nname = 's'\nfile = 'f'";

const BARE_READ: &str =
    "Manifest { kind: Brr, bank: Text { text: \"b\" }, base: 512, block: 256, beam: 8, paths: 1, budget: 100000, length: Exact, start: Front, samples: [SampleEntry { name: Text { text: \"s\" }, file: Text { text: \"f\" }, channel: None, looped: true }] }";

#[test]
fn reads_manifests(rt: HostRuntime) -> Result<(), Fail> {
    let alloc = rt.alloc();
    for (front, rest, want) in [
        ("", EXAMPLE, EXAMPLE_READ),
        (KEYS, FULL, FULL_READ),
        (KEYS, BARE, BARE_READ),
    ] {
        let text = format!(in alloc; "{front}{rest}")?;
        let manifest = read_manifest(alloc, text.as_bytes(), "m.toml")?;
        let read = format!(in alloc; "{manifest:?}")?;
        assert_eq!(rt; read.as_str(), want);
    }
    Ok(())
}
