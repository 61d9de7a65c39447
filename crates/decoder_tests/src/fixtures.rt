ghost use Rattle.std.specs.Prelude.{◌≡◌, length};
ghost use Rattle.adpcm_nums.specs.Sample.{AreSamples};

/// The same numbers as targets.
pub(crate) fn targets<const N: usize>(from: &[i16; N]) -> [i32; N]
    ensures { AreSamples result }
{
    let mut list = [0; N];
    for (place, x) in from.iter().enumerate() {
        list[place] = i32::from(*x);
    }
    list
}
