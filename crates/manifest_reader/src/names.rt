ghost use Rattle.std.specs.Prelude.{◌≡◌, [], All, IfOk};
ghost use Rattle.std.specs.List.{list_any};
ghost use Rattle.std.specs.Str.{bytes_eq};
ghost use Rattle.adpcm_nums.specs.Outcome.{Gives};
ghost use Rattle.manifest_reader.specs.Keys.{is_among};
ghost use Rattle.manifest_reader.specs.Names.{check_same, check_clash, check_names};
ghost use Rattle.manifest_reader.specs.Ranges.{IsEntry, AreDistinct, StoresOnce, IsApart};
ghost use Rattle.manifest_reader.specs.Stored.{stored_names};

use crate::fault::ManifestFault;
use crate::manifest::SampleEntry;
use crate::stored::stored_names;
use adpcm_nums::Text;
use machine_core::Kind;
use std::alloc::Global;

fn is_stored(name: &str, stored: &[Text]) -> bool
    ensures { result ≡ is_among name.now stored.now }
{
    stored.iter().any(|s| name == s.as_str())
}

fn stands_in(name: &str, samples: &[SampleEntry]) -> bool
    ensures { result ≡ list_any (λ s. bytes_eq name.now s.name) samples.now }
{
    samples.iter().any(|s| name == s.name.as_str())
}

/// Refuses the first name that stands earlier already.
fn check_same(alloc: Global, samples: &[SampleEntry]) -> Result<(), ManifestFault>
    ensures distinct { IfOk result (λ _. AreDistinct samples.now) }
    ensures value { Gives ManifestFault.NoMemory (λ u. u) result (check_same [] samples.now) }
{
    for i in 0..samples.len() {
        let name = samples[i].name.as_str();
        if stands_in(name, &samples[..i]) {
            return Err(ManifestFault::SameName {
                name: Text::copy_of(alloc, name)?,
            });
        }
    }
    Ok(())
}

/// Refuses the first file, and then the manifest's own name, that the bank stores.
fn check_clash(
    alloc: Global,
    stored: &[Text],
    samples: &[SampleEntry],
    own: &str,
) -> Result<(), ManifestFault>
    ensures apart { IfOk result (λ _. IsApart stored.now samples.now own.now) }
    ensures value { Gives ManifestFault.NoMemory (λ u. u) result (check_clash stored.now samples.now own.now) }
{
    for sample in samples {
        let file = sample.file.as_str();
        if is_stored(file, stored) {
            return Err(ManifestFault::Clash {
                name: Text::copy_of(alloc, file)?,
            });
        }
    }
    if is_stored(own, stored) {
        return Err(ManifestFault::Clash {
            name: Text::copy_of(alloc, own)?,
        });
    }
    Ok(())
}

/// Refuses two samples of one name, and then the first file, or the manifest's own name, that the bank stores.
#[tactic(auto, unfolding(crate::specs::Names::check_names))]
pub(crate) fn check_names(
    alloc: Global,
    kind: Kind,
    bank: &str,
    samples: &[SampleEntry],
    own: &str,
) -> Result<(), ManifestFault>
    requires { All IsEntry samples.now }
    ensures distinct { IfOk result (λ _. AreDistinct samples.now) }
    ensures once { IfOk result (λ _. StoresOnce kind bank.now samples.now) }
    ensures apart { IfOk result (λ _. IsApart (stored_names kind bank.now samples.now) samples.now own.now) }
    ensures value { Gives ManifestFault.NoMemory (λ u. u) result (check_names kind bank.now samples.now own.now) }
{
    check_same(alloc, samples)?;
    let stored = stored_names(alloc, kind, bank, samples)?;
    check_clash(alloc, stored.as_slice(), samples, own)?;
    Ok(())
}
