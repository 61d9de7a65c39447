ghost use Rattle.std.specs.Prelude.{◌≤◌};

use crate::path::Path;
use adpcm_nums::{NoMemory, Words32};
use std::alloc::Global;

/// Heads and symbols that a search proposes, which may be no legal list.
#[derive(Debug, Drop)]
pub(crate) struct Proposal {
    /// One head a block.
    pub(crate) heads: Words32,
    /// One symbol a sample.
    pub(crate) symbols: Words32,
}

/// Adds a block's codes, the last first.
fn push_codes(symbols: &mut Vec<u32>, path: Path, samples: u32) -> Result<(), NoMemory>
    requires { samples ≤ 32 }
{
    for left in 0..samples {
        let place = samples - 1 - left;
        symbols.push(path.codes.at(place)).map_err(|_| NoMemory)?;
    }
    Ok(())
}

/// The blocks of the first path of the last layer, from parent to parent back to the first block; nothing where none was kept.
pub(crate) fn traced(
    alloc: Global,
    layers: &[Vec<Path>],
    blocks: u32,
    samples: u32,
) -> Result<Option<Proposal>, NoMemory>
    requires { samples ≤ 32 }
{
    let mut heads = Vec::new(alloc);
    let mut symbols = Vec::new(alloc);
    let mut place = 0;
    for left in 0..blocks {
        let layer = match layers.get((blocks - left) as usize) {
            Some(layer) => layer,
            None => return Ok(None),
        };
        let path = match layer.get(place) {
            Some(path) => *path,
            None => return Ok(None),
        };
        heads.push(path.head).map_err(|_| NoMemory)?;
        push_codes(&mut symbols, path, samples)?;
        place = path.parent as usize;
    }
    heads.reverse();
    symbols.reverse();
    Ok(Some(Proposal {
        heads: Words32::from_vec(heads),
        symbols: Words32::from_vec(symbols),
    }))
}
