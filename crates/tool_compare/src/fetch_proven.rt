ghost use Rattle.std.specs.Prelude.{◌≡◌, ◌≤◌, IfOk, IsTrue, Some, Ok, length};
ghost use Rattle.adpcm_nums.specs.Outcome.{Gives};
ghost use Rattle.host_files.specs.Outside.{Files, content_of as held_in};
ghost use Rattle.ima_machine.specs.Ima.{is_align};
ghost use Rattle.manifest_reader.specs.Meaning.{content_of};
ghost use Rattle.manifest_reader.specs.Stored.{cert_name_of};
ghost use Rattle.bank_kinds.specs.Kinds.{codec_for};
ghost use Rattle.bank_kinds.specs.Fits.{IsFit};
ghost use Rattle.bank_kinds.specs.Bound.{IsBound};
ghost use Rattle.bank_kinds.specs.Certified.{IsCertified};
ghost use Rattle.command_plan.specs.Read.{as_reading};
ghost use Rattle.command_plan.specs.Reading.{status_of};
ghost use Rattle.command_plan.specs.Steps.{IsPlain, Keeps, ReadsTo};
ghost use Rattle.tool_compare.specs.Check.{proven_in, proven_read};

use adpcm_nums::NoMemory;
use bank_check::{CertFailure, Proven, check_certificate};
use bank_kinds::{certified_bounds_hold, kinds_encode};
use command_faults::{InputFault, Status, cert_refused, input_refused};
use command_plan::fetch_front;
use host_files::Host;
use manifest_reader::{Manifest, cert_name};
use std::alloc::Global;
use tool_files::Source;

/// What the front of a certificate proves of a source.
#[tactic(auto, unfolding(crate::specs::Check::proven_in))]
fn proven_in(
    alloc: Global,
    manifest: &Manifest,
    source: &Source,
    front: &[u8],
) -> Result<Proven, Status>
    requires align { IsTrue (is_align manifest.now.block) }
    requires fit { IsFit (codec_for manifest.now.kind manifest.now.block) source.now.fitted }
    requires few { length front.now ≤ 33554433 }
    ensures whole { IfOk result (λ p. length front.now ≤ 33554432) }
    ensures certified { IfOk result (λ p. IsCertified (codec_for manifest.now.kind manifest.now.block) front.now source.now.fitted p.bound p.levels) }
    ensures plain { IsPlain (status_of result) }
    ensures value { Gives Status.Memory (λ p. p) result (proven_in (content_of manifest.now) source.now front.now) }
{
    let name = source.name.as_str();
    if front.len() > 33_554_432 {
        let fault = InputFault::FileLong { most: 33_554_432 };
        return Err(input_refused(alloc, name, fault));
    }
    match check_certificate(alloc, manifest.kind, manifest.block, &source.fitted, front) {
        Ok(proven) => Ok(proven),
        Err(CertFailure::NoMemory) => Err(Status::Memory),
        Err(CertFailure::Refused { fault }) => Err(cert_refused(alloc, name, fault)),
    }
}

/// What the stored certificate of a source proves of it.
pub(crate) fn fetch_proven<H: Host>(
    alloc: Global,
    host: &mut H,
    manifest: &Manifest,
    source: &Source,
) -> Result<Proven, Status>
    requires align { IsTrue (is_align manifest.now.block) }
    requires fit { IsFit (codec_for manifest.now.kind manifest.now.block) source.now.fitted }
    ensures bound { IfOk result (λ p. IsBound (codec_for manifest.now.kind manifest.now.block) source.now.fitted p.bound) }
    ensures keeps { Keeps (H.world host.old) (H.world host.new) (status_of result) }
    ensures told { (files : Files) → (H.world host.old).files ≡ Some files →
        ReadsTo (as_reading (proven_read files (content_of manifest.now) source.now)) (H.world host.old) (H.world host.new) result
        (λ p. ((proven_read files (content_of manifest.now) source.now).gives ≡ Ok p)
        × IsCertified (codec_for manifest.now.kind manifest.now.block) (held_in files (cert_name_of manifest.now.bank source.now.name)) source.now.fitted p.bound p.levels) }
{
    kinds_encode();
    certified_bounds_hold();
    let bank = manifest.bank.as_str();
    let own = match cert_name(alloc, bank, source.name.as_str()) {
        Ok(own) => own,
        Err(NoMemory) => return Err(Status::Memory),
    };
    let front = match fetch_front(alloc, host, own.as_str(), 33_554_432) {
        Ok(front) => front,
        Err(status) => return Err(status),
    };
    proven_in(alloc, manifest, source, front.as_slice())
}
