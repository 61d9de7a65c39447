ghost use Rattle.std.specs.Prelude.{◌≡◌, ◌∷◌, [], length, IfOk, Some};
ghost use Rattle.adpcm_nums.specs.Sample.{AreSamples};
ghost use Rattle.host_files.specs.Outside.{Files};
ghost use Rattle.command_plan.specs.Promise.{Reaches, Promises};
ghost use Rattle.command_plan.specs.Read.{Reads};
ghost use Rattle.command_plan.specs.Steps.{Keeps};
ghost use Rattle.tool_block.specs.Samples.{samples_of};
ghost use Rattle.tool_block.specs.Block.{targets_read, block_course, targets_in, IsBlock, AnswersBlock};
ghost use Rattle.command_plan.specs.Reading.{status_of};

use adpcm_nums::{Bytes, NoMemory, Text};
use brr_machine::{encode_zero, spell_block};
use byteorder::{ByteOrder, LittleEndian};
use command_faults::{InputFault, Status, input_refused};
use command_plan::{fetch_whole, finish, write_out};
use host_files::{Host, NamedFile};
use report_text::block_line;
use std::alloc::Global;

/// The command `block IN OUT`: fetches a file of 32 bytes, stores the best block of filter 0 for
/// its sixteen samples, and says that block's error with the bound that no such block is below.
///
/// A file of another length is refused.
pub fn run_block<H: Host>(alloc: Global, host: &mut H, input: &str, output: &str) -> Status
    // How the world stands, whatever the host did.
    ensures told { (files : Files) → (H.world host.old).files ≡ Some files →
        Promises (block_course files input.now output.now) (IsBlock (targets_in files input.now) output.now) (H.world host.old) (H.world host.new) result }
    // What that says in the command's own words.
    ensures answer { (files : Files) → (H.world host.old).files ≡ Some files →
        AnswersBlock files input.now output.now (H.world host.old) (H.world host.new) result }
    // These hold of a host that tells nothing, too.
    ensures keeps { Keeps (H.world host.old) (H.world host.new) result }
{
    let status = come_block(alloc, host, input, output);
    finish(alloc, host, status)
}

/// The command `block` up to the line of its status.
fn come_block<H: Host>(alloc: Global, host: &mut H, input: &str, output: &str) -> Status
    ensures keeps { Keeps (H.world host.old) (H.world host.new) result }
    ensures told { (files : Files) → (H.world host.old).files ≡ Some files →
        Reaches (block_course files input.now output.now) (IsBlock (targets_in files input.now) output.now) (H.world host.old) (H.world host.new) result }
{
    let samples = match fetch_samples(alloc, host, input) {
        Ok(samples) => samples,
        Err(status) => return status,
    };
    match form_block(alloc, output, &samples) {
        Ok((file, line)) => write_out(alloc, host, &[file], line.as_str()),
        Err(NoMemory) => Status::Memory,
    }
}

/// The sixteen samples of a file.
fn fetch_samples<H: Host>(alloc: Global, host: &mut H, input: &str) -> Result<[i32; 16], Status>
    ensures keeps { Keeps (H.world host.old) (H.world host.new) (status_of result) }
    ensures told { (files : Files) → (H.world host.old).files ≡ Some files →
        Reads (λ v. v) (targets_read files input.now) (H.world host.old) (H.world host.new) result }
    ensures range { IfOk result (λ v. AreSamples v) }
{
    let bytes = fetch_whole(alloc, host, input, 32, InputFault::BlockLength { len: 33 })?;
    let raw = bytes.as_slice();
    if raw.len() != 32 {
        let len = raw.len() as u64;
        return Err(input_refused(alloc, input, InputFault::BlockLength { len }));
    }
    Ok(read_samples(raw))
}

/// The sixteen samples of 32 bytes.
fn read_samples(bytes: &[u8]) -> [i32; 16]
    requires { length bytes.now ≡ 32 }
    ensures samples { result ≡ samples_of bytes.now }
    ensures range { AreSamples result }
{
    let mut samples = [0i32; 16];
    for i in 0..16usize {
        samples[i] = i32::from(LittleEndian::read_i16(&bytes[2 * i..]));
    }
    samples
}

/// The file and the line of sixteen samples.
fn form_block(
    alloc: Global,
    output: &str,
    samples: &[i32; 16],
) -> Result<(NamedFile, Text), NoMemory>
    requires { AreSamples samples.now }
    ensures { IfOk result (λ r. IsBlock samples.now output.now (r.0 ∷ []) r.1) }
{
    let (block, error) = encode_zero(samples);
    let line = block_line(alloc, error, error)?;
    let name = Text::copy_of(alloc, output)?;
    let bytes = Bytes::copy_of(alloc, &spell_block(&block))?;
    Ok((NamedFile { name, bytes }, line))
}
