ghost use Rattle.std.specs.Prelude.{◌≡◌, ◌≤◌, ◌+◌, length};

/// A part of a file.
#[derive(Clone, Copy, Debug, PartialEq, Eq)]
pub struct Span64 {
    /// The place of its first byte.
    pub at: u64,
    /// Its length in bytes.
    pub len: u64,
}

impl Span64 {
    ghost use Rattle.wave_form.specs.Span.{bytes_in};

    /// The bytes of the span in a file, where they lie.
    pub fn bytes_in(self, file: &[u8]) -> &[u8]
        requires { self.at + self.len ≤ length file.now }
        ensures bytes { result.now ≡ bytes_in file.now self }
        ensures length { length result.now ≡ self.len }
    {
        let (_, rest) = file.split_at(self.at as usize);
        let (bytes, _) = rest.split_at(self.len as usize);
        bytes
    }
}
