ghost use Rattle.std.specs.Prelude.{◌≡◌, ◌<◌, All, length};

/// The codes of a block, from its symbols.
pub(crate) fn codes_of<const N: usize>(symbols: &[u32]) -> [u8; N]
    requires count { length symbols.now ≡ N }
    requires range { All (λ c. c < 16) symbols.now }
    ensures { result ≡ symbols.now }
{
    let mut codes = [0u8; N];
    for place in 0..N {
        codes[place] = symbols[place] as u8;
    }
    codes
}
