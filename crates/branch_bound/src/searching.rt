ghost use Rattle.std.specs.Prelude.{◌≡◌, ◌*◌, ◌<◌, ◌^◌, IfOk, length};
ghost use Rattle.block_steps.specs.Tables.{HoldLater};
ghost use Rattle.bound_cert.specs.Filed.{IsFiled};
ghost use Rattle.open_cells.specs.Paths.{FitTargets};
ghost use Rattle.branch_bound.specs.Lists.{IsShown};
ghost use Rattle.branch_bound.specs.Searched.{IsChoice};

use crate::levels::LevelCert;
use crate::walking::walk;
use adpcm_nums::NoMemory;
use machine_core::{Choice, Machine, State};
use open_cells::listed;
use std::alloc::Global;

/// A list of zeros.
pub fn zeros(alloc: Global, n: usize) -> Result<Vec<u64>, NoMemory>
    ensures { IfOk result (λ v. length v.items ≡ n) }
{
    vec![in alloc; 0u64; n].map_err(|_| NoMemory)
}

/// The segment's least list where the certificate is of level 0 and shows that the best so far is not the least; else the best so far.
pub fn choose<M: Machine>(
    alloc: Global,
    machine: &M,
    targets: &[i32],
    rows: &mut [u64],
    later: &[u64],
    blocks: u32,
    best: Choice,
    share: u32,
    cert: &LevelCert<'_>,
) -> Result<Choice, NoMemory>
    requires blocks { 0 < blocks }
    requires fit { FitTargets (M.rules machine.now) blocks targets.now }
    requires small { blocks * (M.rules machine.now).decoder.samples < 2 ^ 31 }
    requires filed { IsFiled (M.rules machine.now) }
    requires room { (M.rules machine.now).decoder.heads * (M.rules machine.now).floor_len < 2 ^ 31 }
    requires later { HoldLater (M.rules machine.now) targets.now blocks later.now }
    requires rows { length rows.old ≡ (M.rules machine.now).decoder.heads * (M.rules machine.now).floor_len }
    requires best { IsChoice (M.rules machine.now) blocks targets.now best }
    requires shown { IsShown (M.rules machine.now) targets.now blocks best.sum share cert.now }
    ensures choice { IfOk result (λ c. IsChoice (M.rules machine.now) blocks targets.now c) }
    ensures kept { IfOk result (λ c. (cert.now.level ≡ 0 → c.sum ≡ best.sum) → c ≡ best) }
    ensures optimal { IfOk result (λ c. cert.now.level ≡ 0 → cert.now.bound ≡ c.sum) }
{
    if cert.level != 0 {
        return Ok(best);
    }
    let start = machine.cell_of(0, State { a: 0, b: 0 });
    let first = match cert.layers.row(alloc, 0) {
        Ok(v) => v,
        Err(e) => return Err(e),
    };
    match listed(first.as_slice(), 65535, start) {
        Some(total) => {
            if total < best.sum {
                walk(
                    alloc,
                    machine,
                    targets,
                    rows,
                    later,
                    blocks,
                    best.sum,
                    &cert.layers,
                    total,
                )
            } else {
                Ok(best)
            }
        }
        None => Ok(best),
    }
}
