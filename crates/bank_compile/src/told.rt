ghost use Rattle.std.specs.Prelude.{◌≡◌, ◌≤◌, length, All, IfOk};
ghost use Rattle.report_text.specs.Report.{sample_line};
ghost use Rattle.bank_compile.specs.Told.{report_text};

use crate::sample::SampleOut;
use adpcm_nums::{NoMemory, Text};
use report_text::{Reported, report_of, sample_line};
use std::alloc::Global;

impl Reported for SampleOut {
    ghost line = { λ out. sample_line out.report };

    ghost error = { λ out. out.report.error };

    ghost bound = { λ out. out.report.bound };

    fn line(&self, alloc: Global) -> Result<Text, NoMemory> {
        sample_line(alloc, &self.report)
    }
}

/// What is told of a bank of these samples, of which so many files are stored: a line for each, and the line that ends the
/// report (this project's own choice).
pub fn report(alloc: Global, outs: &[SampleOut], files: u32) -> Result<Text, NoMemory>
    requires few { length outs.now ≤ 64 }
    requires bounds { All (λ out. out.report.bound ≤ out.report.error) outs.now }
    ensures { IfOk result (λ text. text ≡ report_text outs.now files) }
{
    report_of(alloc, outs, files)
}
