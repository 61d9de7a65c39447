ghost use Rattle.std.specs.Prelude.{◌<◌};

/// The codes of a block, of four bits each, for at most 32 places.
#[derive(Clone, Copy, Debug, PartialEq, Eq)]
pub(crate) struct Codes {
    // Eight codes a word, the first in the lowest bits.
    words: [u32; 4],
}

impl Codes {
    /// No code yet.
    pub(crate) fn none() -> Codes {
        Codes { words: [0; 4] }
    }

    /// These codes and one at a place that has none yet.
    pub(crate) fn with(self, place: u32, code: u32) -> Codes
        requires place { place < 32 }
        requires code { code < 16 }
    {
        let mut words = self.words;
        let word = (place / 8) as usize;
        words[word] = words[word] | (code << (4 * (place % 8)));
        Codes { words }
    }

    /// The code at a place.
    pub(crate) fn at(self, place: u32) -> u32
        requires { place < 32 }
        ensures { result < 16 }
    {
        (self.words[(place / 8) as usize] >> (4 * (place % 8))) & 15
    }
}
