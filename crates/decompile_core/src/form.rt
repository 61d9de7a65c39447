/// A format of bank files.
#[derive(Clone, Copy, Debug, PartialEq, Eq)]
pub enum Form {
    /// An image of the SNES's sound memory, with one entry or more (this project's own choice).
    Brr,
    /// A VAG file of the PlayStation, with one entry (PSX-SPX, VAG files).
    Vag,
    /// A WAVE file of IMA ADPCM, with one entry (IMA recommended practices, 1992; RIFF WAVE).
    Ima,
}
