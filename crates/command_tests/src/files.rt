//! Files that a script spells.

use std::alloc::Global;
use std::test::Fail;

/// A group of digits, and how often it stands: `N` times where `*N` is behind it, and else once.
fn repeated(group: &str) -> Result<(&str, u32), Fail> {
    match group.split_once('*') {
        Some((digits, times)) => Ok((digits, times.parse::<u32>().map_err(|_| "a count")?)),
        None => Ok((group, 1)),
    }
}

/// The value of a digit to the base 16, in capitals.
fn digit(byte: u8) -> Result<u8, Fail> {
    match byte {
        b'0'..=b'9' => Ok(byte - b'0'),
        b'A'..=b'F' => Ok(byte - b'A' + 10),
        _ => Ok(Err("a digit")?),
    }
}

/// Adds the bytes of a group of digits, two digits a byte.
fn push_group(bytes: &mut Vec<u8>, digits: &str) -> Result<(), Fail> {
    for pair in digits.as_bytes().chunks_exact(2) {
        bytes.push((digit(pair[0])? << 4) | digit(pair[1])?)?;
    }
    Ok(())
}

/// The bytes of groups of digits, which are apart by spaces.
pub(crate) fn bytes_of(alloc: Global, spelled: &str) -> Result<Vec<u8>, Fail> {
    let mut bytes = Vec::new(alloc);
    for group in spelled.split(' ') {
        let (digits, times) = repeated(group)?;
        for _ in 0..times {
            push_group(&mut bytes, digits)?;
        }
    }
    Ok(bytes)
}

/// A number.
pub(crate) fn number_of(digits: &str) -> Result<u64, Fail> {
    Ok(digits.parse::<u64>().map_err(|_| "a number")?)
}

/// The numbers of a list, which are apart by spaces.
pub(crate) fn numbers_of(alloc: Global, list: &str) -> Result<Vec<u64>, Fail> {
    let mut numbers = Vec::new(alloc);
    for number in list.split(' ') {
        if !number.is_empty() {
            numbers.push(number_of(number)?)?;
        }
    }
    Ok(numbers)
}

/// The bytes of samples of 16 bits, which are apart by spaces; `*N` repeats one.
pub(crate) fn sound_of(alloc: Global, samples: &str) -> Result<Vec<u8>, Fail> {
    let mut bytes = Vec::new(alloc);
    for group in samples.split(' ') {
        if !group.is_empty() {
            let (sample, times) = repeated(group)?;
            let sample = sample.parse::<i16>().map_err(|_| "a sample")?;
            for _ in 0..times {
                bytes.extend_from_slice(&sample.to_le_bytes())?;
            }
        }
    }
    Ok(bytes)
}

/// Adds a length as a number of 32 bits, the low byte first.
fn push_length(bytes: &mut Vec<u8>, len: usize) -> Result<(), Fail> {
    let len = u32::try_from(len).map_err(|_| "a length")?;
    bytes.extend_from_slice(&len.to_le_bytes())?;
    Ok(())
}

/// Adds a chunk: its name, its length and its bytes.
fn push_chunk(file: &mut Vec<u8>, name: &[u8], body: &[u8]) -> Result<(), Fail> {
    file.extend_from_slice(name)?;
    push_length(file, body.len())?;
    file.extend_from_slice(body)?;
    Ok(())
}

/// The sampler chunk of a sound at 32,000 samples a second with a loop `START..END`.
fn sampler_of(alloc: Global, at: &str) -> Result<Vec<u8>, Fail> {
    let (start, end) = at.split_once("..").ok_or("a loop")?;
    let start = start.parse::<u32>().map_err(|_| "a start")?;
    let end = end.parse::<u32>().map_err(|_| "an end")?;
    let mut body = Vec::new(alloc);
    for field in [0, 0, 31_250, 60, 0, 0, 0, 1, 0, 0, 0, start, end, 0, 0] {
        body.extend_from_slice(&field.to_le_bytes())?;
    }
    Ok(body)
}

/// A WAVE file of one channel at 32,000 samples a second: its loop, `none` or `START..END`, which stands behind the samples, and
/// then they.
pub(crate) fn wave_of(alloc: Global, sound: &str) -> Result<Vec<u8>, Fail> {
    let (at, samples) = sound.split_once(' ').unwrap_or((sound, ""));
    let format = bytes_of(alloc, "0100 0100 007D0000 00FA0000 0200 1000")?;
    let mut chunks = Vec::from_slice(alloc, b"WAVE")?;
    push_chunk(&mut chunks, b"fmt ", format.as_slice())?;
    push_chunk(&mut chunks, b"data", sound_of(alloc, samples)?.as_slice())?;
    if at != "none" {
        push_chunk(&mut chunks, b"smpl", sampler_of(alloc, at)?.as_slice())?;
    }
    let mut file = Vec::new(alloc);
    push_chunk(&mut file, b"RIFF", chunks.as_slice())?;
    Ok(file)
}
