ghost use Rattle.std.specs.Prelude.{◌≡◌, ◌<◌, ◌++◌, ◌^◌, IfOk, OnOk, map, length};
ghost use Rattle.std.specs.List.{sum_by};
ghost use Rattle.machine_core.specs.declared.state.Kind.{Kind};
ghost use Rattle.bank_kinds.specs.Chosen.{list_of};
ghost use Rattle.bank_kinds.specs.Certified.{level_count, levels_of};
ghost use Rattle.bank_compile.specs.Sample.{list_in};

use adpcm_nums::{NoMemory, Words32};
use bound_cert::SegmentCert;
use branch_bound::Found;
use machine_core::Choice;
use std::alloc::Global;

/// Adds the words of a list at the end of another.
fn push_words(words: &mut Vec<u32>, more: &[u32]) -> Result<(), NoMemory>
    ensures { OnOk result (words.new.items ≡ words.old.items ++ more.now) }
{
    match words.extend_from_slice(more) {
        Ok(()) => Ok(()),
        Err(_) => Err(NoMemory),
    }
}

/// The lists that were found for the segments as one, with room for so many blocks and samples; its sum is theirs.
pub(crate) fn joined(
    alloc: Global,
    founds: &[Found],
    blocks: usize,
    samples: usize,
) -> Result<Choice, NoMemory>
    requires { sum_by (λ f. f.choice.sum) founds.now < 2 ^ 64 }
    ensures list { IfOk result (λ choice. list_of choice ≡ list_in founds.now) }
    ensures sum { IfOk result (λ choice. choice.sum ≡ sum_by (λ f. f.choice.sum) founds.now) }
{
    let mut heads = Vec::with_capacity(alloc, blocks).map_err(|_| NoMemory)?;
    let mut symbols = Vec::with_capacity(alloc, samples).map_err(|_| NoMemory)?;
    let mut sum = 0;
    for found in founds {
        push_words(&mut heads, found.choice.heads.as_slice())?;
        push_words(&mut symbols, found.choice.symbols.as_slice())?;
        sum += found.choice.sum;
    }
    Ok(Choice {
        heads: Words32::from_vec(heads),
        symbols: Words32::from_vec(symbols),
        sum,
    })
}

/// The sum of the bounds that were found.
pub(crate) fn bound_of(founds: &[Found]) -> u64
    requires { sum_by (λ f. f.cert.bound) founds.now < 2 ^ 64 }
    ensures { result ≡ sum_by (λ f. f.cert.bound) founds.now }
{
    let mut bound = 0;
    for found in founds {
        bound += found.cert.bound();
    }
    bound
}

/// How many segments were searched at a level.
fn level_count(founds: &[Found], level: u32) -> u32
    requires { length founds.now < 2 ^ 32 }
    ensures { result ≡ level_count level (map (λ f. f.cert.level) founds.now) }
{
    let mut count = 0;
    for found in founds {
        if found.cert.level() == level {
            count += 1;
        }
    }
    count
}

/// How many segments were searched at levels 0, 4 and 8, and how many have a bound by floors alone.
pub(crate) fn levels_of(founds: &[Found]) -> [u32; 4]
    requires { length founds.now < 2 ^ 32 }
    ensures { result ≡ levels_of (map (λ f. f.cert.level) founds.now) }
{
    [
        level_count(founds, 0),
        level_count(founds, 4),
        level_count(founds, 8),
        level_count(founds, 255),
    ]
}

/// The certificates of the segments, which are not copied.
pub(crate) fn certificates(alloc: Global, founds: Vec<Found>) -> Result<Vec<SegmentCert>, NoMemory>
    ensures { IfOk result (λ certs. certs.items ≡ map (λ f. f.cert) founds.items) }
{
    let mut certs = Vec::with_capacity(alloc, founds.len()).map_err(|_| NoMemory)?;
    for found in founds {
        match certs.push(found.cert) {
            Ok(()) => {}
            Err(_) => return Err(NoMemory),
        }
    }
    Ok(certs)
}
