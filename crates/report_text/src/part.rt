ghost use Rattle.std.specs.Prelude.{◌≡◌, IfOk};
ghost use Rattle.report_text.specs.declared.part.LinePart.TheVariants.{Word};

use adpcm_nums::{NoMemory, Text};
use std::alloc::Global;
use std::fmt;

/// One part of a fault's line.
#[derive(Debug, Drop)]
pub enum LinePart {
    /// A text, printed as it is.
    Word {
        /// The text.
        text: Text,
    },
    /// A number, printed in decimal, with a leading `-` where it is negative.
    Number {
        /// The number.
        value: i128,
    },
}

impl LinePart {
    /// A copy of a text, as a part.
    pub fn word(alloc: Global, text: &str) -> Result<LinePart, NoMemory>
        ensures { IfOk result (λ part. part ≡ Word text.now) }
    {
        let text = Text::copy_of(alloc, text)?;
        Ok(LinePart::Word { text })
    }
}

impl From<u32> for LinePart {
    ghost use Rattle.std.specs.Prelude.{◌≡◌, pos};
    ghost use Rattle.report_text.specs.declared.part.LinePart.TheVariants.{Number};

    ghost from_gives = { λ value part. part ≡ Number (pos value) };

    fn from(value: u32) -> LinePart {
        LinePart::Number {
            value: i128::from(value),
        }
    }
}

impl From<u64> for LinePart {
    ghost use Rattle.std.specs.Prelude.{◌≡◌, pos};
    ghost use Rattle.report_text.specs.declared.part.LinePart.TheVariants.{Number};

    ghost from_gives = { λ value part. part ≡ Number (pos value) };

    fn from(value: u64) -> LinePart {
        LinePart::Number {
            value: i128::from(value),
        }
    }
}

impl From<i64> for LinePart {
    ghost use Rattle.std.specs.Prelude.{◌≡◌};
    ghost use Rattle.report_text.specs.declared.part.LinePart.TheVariants.{Number};

    ghost from_gives = { λ value part. part ≡ Number value };

    fn from(value: i64) -> LinePart {
        LinePart::Number {
            value: i128::from(value),
        }
    }
}

impl fmt::Display for LinePart {
    ghost use Rattle.std.specs.Prelude.{Some};
    ghost use Rattle.report_text.specs.Fault.{part_text};

    ghost output = { λ part. Some (part_text part) };

    fn fmt<W: fmt::Write>(&self, f: &mut fmt::Formatter<W>) -> fmt::Result {
        match self {
            LinePart::Word { text } => {
                let text = text.as_str();
                write!(f, "{text}")
            }
            LinePart::Number { value } => write!(f, "{value}"),
        }
    }
}
