//! A host in memory on which commands are run, and what is told of it after them.

use crate::files::{bytes_of, number_of, numbers_of, sound_of, wave_of};
use bank_tool::run;
use host_files::MemoryHost;
use std::alloc::Global;
use std::process::Abort;
use std::test::Fail;

/// A host, the code that its last command ended with, and how many bytes of what was said have been compared.
#[derive(Drop)]
pub(crate) struct Stage {
    host: MemoryHost,
    code: u8,
    heard: usize,
}

/// The line of a text that begins at a place, without its newline.
fn line_at(text: &[u8], from: usize) -> &[u8] {
    let rest = text.get(from..).unwrap_or(b"");
    match rest.iter().position(|byte| *byte == b'\n') {
        Some(end) => rest.get(..end).unwrap_or(rest),
        None => rest,
    }
}

/// The words of a command, each apart from the next by one space. A line with nothing on it has none.
fn words_of(alloc: Global, command: &str) -> Result<Vec<String>, Fail> {
    let mut words = Vec::new(alloc);
    if command.is_empty() {
        return Ok(words);
    }
    for word in command.split(' ') {
        words.push(String::from_str(alloc, word)?)?;
    }
    Ok(words)
}

/// A text whose lines are apart by semicolons.
fn text_of(alloc: Global, lines: &str) -> Result<Vec<u8>, Fail> {
    let mut text = Vec::new(alloc);
    for line in lines.split(';') {
        text.extend_from_slice(line.as_bytes())?;
        text.push(b'\n')?;
    }
    Ok(text)
}

/// A file with more at its end or other bytes: `more BYTES`, `lines COUNT LINES`, `pad LEN` with spaces, `cut LEN`, or
/// `byte PLACE BYTES` from a place on.
fn changed(alloc: Global, mut bytes: Vec<u8>, kind: &str, rest: &str) -> Result<Vec<u8>, Fail> {
    if kind == "more" {
        bytes.extend_from_slice(bytes_of(alloc, rest)?.as_slice())?;
        return Ok(bytes);
    }
    let (number, with) = rest.split_once(' ').unwrap_or((rest, ""));
    let number = number.parse::<usize>().map_err(|_| "a number")?;
    match kind {
        "lines" => {
            let lines = text_of(alloc, with)?;
            for _ in 0..number {
                bytes.extend_from_slice(lines.as_slice())?;
            }
        }
        "pad" => {
            for _ in bytes.len()..number {
                bytes.push(b' ')?;
            }
        }
        "cut" => bytes.truncate(number),
        "byte" => put_over(&mut bytes, number, bytes_of(alloc, with)?.as_slice()),
        _ => Err("a form")?,
    }
    Ok(bytes)
}

/// Puts other bytes into a file, from a place on.
fn put_over(file: &mut Vec<u8>, from: usize, bytes: &[u8]) {
    for (old, new) in file.iter_mut().skip(from).zip(bytes) {
        *old = *new;
    }
}

impl Stage {
    /// A host with no files, which fails at the calls of these numbers and at a fetch of a file that is not there.
    pub(crate) fn new(alloc: Global, calls: &str) -> Result<Stage, Fail> {
        let host = MemoryHost::new(alloc, numbers_of(alloc, calls)?);
        Ok(Stage {
            host,
            code: 0,
            heard: 0,
        })
    }

    /// Sets a file.
    fn put(&mut self, name: &str, bytes: &[u8]) -> Result<(), Fail> {
        self.host.put(name, bytes).map_err(|_| "memory")?;
        Ok(())
    }

    /// A copy of a file.
    fn copy(&self, alloc: Global, name: &str) -> Result<Vec<u8>, Fail> {
        let bytes = self.host.file(name).ok_or("a file")?;
        Ok(Vec::from_slice(alloc, bytes)?)
    }

    /// Sets a file: `text LINES`, `hex BYTES`, `sound SAMPLES`, `wave LOOP SAMPLES` or `as NAME`; or what is made of the file that there is.
    pub(crate) fn set(&mut self, alloc: Global, name: &str, form: &str) -> Result<(), Fail> {
        let (kind, rest) = form.split_once(' ').ok_or("a file's form")?;
        let bytes = match kind {
            "text" => text_of(alloc, rest)?,
            "hex" => bytes_of(alloc, rest)?,
            "sound" => sound_of(alloc, rest)?,
            "wave" => wave_of(alloc, rest)?,
            "as" => self.copy(alloc, rest)?,
            _ => changed(alloc, self.copy(alloc, name)?, kind, rest)?,
        };
        self.put(name, bytes.as_slice())
    }

    /// Runs a command. The contract of `run` is long, and only here is it met.
    pub(crate) fn command(&mut self, alloc: Global, command: &str) -> Result<(), Fail> {
        let words = words_of(alloc, command)?;
        self.code = run(alloc, &mut self.host, words.as_slice()).code();
        Ok(())
    }

    /// The next line that was said.
    fn next_line(&mut self, alloc: Global) -> Result<Vec<u8>, Fail> {
        let line = Vec::from_slice(alloc, line_at(self.host.said(), self.heard))?;
        self.heard = self.heard.saturating_add(line.len()).saturating_add(1);
        Ok(line)
    }

    /// The next line that was said is this one.
    pub(crate) fn says(&mut self, rt: &impl Abort, alloc: Global, line: &str) -> Result<(), Fail> {
        let said = self.next_line(alloc)?;
        assert_eq!(rt; said.as_slice(), line.as_bytes(), "{line}");
        Ok(())
    }

    /// The next line that was said begins so.
    pub(crate) fn says_front(
        &mut self,
        rt: &impl Abort,
        alloc: Global,
        front: &str,
    ) -> Result<(), Fail> {
        let said = self.next_line(alloc)?;
        assert!(rt; said.starts_with(front.as_bytes()), "{front}");
        Ok(())
    }

    /// The next line that was said goes on, behind these words, with a number in a range: `LOW..HIGH FRONT`.
    pub(crate) fn says_between(
        &mut self,
        rt: &impl Abort,
        alloc: Global,
        row: &str,
    ) -> Result<(), Fail> {
        let (range, front) = row.split_once(' ').ok_or("a front")?;
        let (low, high) = range.split_once("..").ok_or("a range")?;
        let said = self.next_line(alloc)?;
        let said = str::from_utf8(said.as_slice()).map_err(|_| "a text")?;
        let rest = said.strip_prefix(front).ok_or("another line")?;
        let (number, _) = rest.split_once(' ').ok_or("no number")?;
        let number = number_of(number)?;
        assert!(rt;
            number_of(low)? <= number && number <= number_of(high)?,
            "{row}"
        );
        Ok(())
    }

    /// Sets a file to the next line that was said.
    pub(crate) fn keep(&mut self, alloc: Global, name: &str) -> Result<(), Fail> {
        let said = self.next_line(alloc)?;
        self.put(name, said.as_slice())
    }

    /// The command ended with a code, and all that it said was compared.
    pub(crate) fn ends(&self, rt: &impl Abort, code: &str) -> Result<(), Fail> {
        let code = code.parse::<u8>().map_err(|_| "a code")?;
        assert_eq!(rt; self.code, code);
        assert_eq!(rt; self.host.said().len(), self.heard);
        Ok(())
    }

    /// So many calls have failed.
    pub(crate) fn failed(&self, rt: &impl Abort, faults: &str) -> Result<(), Fail> {
        let faults = faults.parse::<u64>().map_err(|_| "a count")?;
        assert_eq!(rt; self.host.faults(), faults);
        Ok(())
    }

    /// A file has these bytes.
    pub(crate) fn holds(&self, rt: &impl Abort, alloc: Global, row: &str) -> Result<(), Fail> {
        let (name, spelled) = row.split_once(' ').ok_or("bytes")?;
        let bytes = bytes_of(alloc, spelled)?;
        assert_eq!(rt; self.host.file(name), Some(bytes.as_slice()), "{name}");
        Ok(())
    }

    /// Two files are equal.
    pub(crate) fn same(&self, rt: &impl Abort, names: &str) -> Result<(), Fail> {
        let (name, other) = names.split_once(' ').ok_or("two names")?;
        assert_eq!(rt; self.host.file(name), self.host.file(other), "{name}");
        Ok(())
    }

    /// Each of these files is there, or none of them is.
    pub(crate) fn stand(&self, rt: &impl Abort, there: bool, names: &str) {
        for name in names.split(' ') {
            assert_eq!(rt; self.host.file(name).is_some(), there, "{name}");
        }
    }
}
