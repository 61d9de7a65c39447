ghost use Rattle.std.specs.Prelude.{◌≡◌, ◌+◌, ◌^◌, ◌<◌, [], ◌∷◌};

use crate::span::Span64;

/// Where the bodies of a WAVE file's chunks lie: of each kind the first one in the file.
#[derive(Clone, Copy, Debug, PartialEq, Eq)]
pub struct Chunks {
    /// `fmt `: how the samples are laid out.
    pub fmt: Option<Span64>,
    /// `data`: the samples.
    pub pcm: Option<Span64>,
    /// `smpl`: the sampler, with the loops.
    pub smpl: Option<Span64>,
    /// `fact`: the number of frames, in compressed files.
    pub fact: Option<Span64>,
}

impl Chunks {
    ghost use Rattle.wave_form.specs.Walk.{chunks_of, first_of};

    // No chunk.
    pub(crate) fn none() -> Chunks
        ensures { result ≡ chunks_of [] }
    {
        Chunks {
            fmt: None,
            pcm: None,
            smpl: None,
            fact: None,
        }
    }

    // The chunk whose head stands at a place, alone.
    pub(crate) fn one(id: &[u8], at: u64, size: u32) -> Chunks
        requires { at + 8 < 2 ^ 64 }
        ensures { result ≡ chunks_of (record { id = id.now; at = at; size = size } ∷ []) }
    {
        let body = Span64 {
            at: at + 8,
            len: u64::from(size),
        };
        Chunks {
            fmt: (id == b"fmt ".as_slice()).then_some(body),
            pcm: (id == b"data".as_slice()).then_some(body),
            smpl: (id == b"smpl".as_slice()).then_some(body),
            fact: (id == b"fact".as_slice()).then_some(body),
        }
    }

    // These, and of the other kinds the later ones.
    pub(crate) fn or(self, later: Chunks) -> Chunks
        ensures { result ≡ first_of self later }
    {
        Chunks {
            fmt: self.fmt.or(later.fmt),
            pcm: self.pcm.or(later.pcm),
            smpl: self.smpl.or(later.smpl),
            fact: self.fact.or(later.fact),
        }
    }
}
