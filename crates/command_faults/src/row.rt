ghost use Rattle.std.specs.Prelude.{◌≡◌, ◌∷◌, [], ◌++◌, pos, map, IfOk};
ghost use Rattle.report_text.specs.declared.part.LinePart.TheVariants.{Word, Number};
ghost use Rattle.command_faults.specs.Rows.{row, text_row};

use adpcm_nums::NoMemory;
use report_text::LinePart;
use std::alloc::Global;

/// One part more.
fn with(mut parts: Vec<LinePart>, part: LinePart) -> Result<Vec<LinePart>, NoMemory>
    ensures { IfOk result (λ all. all.items ≡ parts.items ++ part ∷ []) }
{
    match parts.push(part) {
        Ok(()) => Ok(parts),
        Err(_) => Err(NoMemory),
    }
}

/// One word more.
pub(crate) fn with_word(
    alloc: Global,
    parts: Vec<LinePart>,
    word: &str,
) -> Result<Vec<LinePart>, NoMemory>
    ensures { IfOk result (λ all. all.items ≡ parts.items ++ Word word.now ∷ []) }
{
    with(parts, LinePart::word(alloc, word)?)
}

/// One number more.
pub(crate) fn with_number(parts: Vec<LinePart>, number: i64) -> Result<Vec<LinePart>, NoMemory>
    ensures { IfOk result (λ all. all.items ≡ parts.items ++ Number number ∷ []) }
{
    with(parts, LinePart::from(number))
}

/// Some numbers more.
pub(crate) fn with_numbers(
    mut parts: Vec<LinePart>,
    numbers: &[u64],
) -> Result<Vec<LinePart>, NoMemory>
    ensures { IfOk result (λ all. all.items ≡ parts.items ++ map (λ n. Number (pos n)) numbers.now) }
{
    for number in numbers {
        if parts.push(LinePart::from(*number)).is_err() {
            return Err(NoMemory);
        }
    }
    Ok(parts)
}

/// A kind of fault and its numbers more.
#[tactic(auto, unfolding(crate::specs::Rows::row))]
pub(crate) fn with_row(
    alloc: Global,
    parts: Vec<LinePart>,
    kind: &str,
    numbers: &[u64],
) -> Result<Vec<LinePart>, NoMemory>
    ensures { IfOk result (λ all. all.items ≡ parts.items ++ row kind.now numbers.now) }
{
    let parts = with_word(alloc, parts, kind)?;
    with_numbers(parts, numbers)
}

/// A kind of fault more, and the text that it is about.
#[tactic(auto, unfolding(crate::specs::Rows::text_row))]
pub(crate) fn with_text(
    alloc: Global,
    parts: Vec<LinePart>,
    kind: &str,
    text: &str,
) -> Result<Vec<LinePart>, NoMemory>
    ensures { IfOk result (λ all. all.items ≡ parts.items ++ text_row kind.now text.now) }
{
    let parts = with_word(alloc, parts, kind)?;
    with_word(alloc, parts, text)
}
