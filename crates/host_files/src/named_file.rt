use adpcm_nums::{Bytes, Text};

/// A file: its name and its bytes.
#[derive(Debug, Drop)]
pub struct NamedFile {
    /// The name, as a host knows it.
    pub name: Text,
    /// All of its bytes.
    pub bytes: Bytes,
}
