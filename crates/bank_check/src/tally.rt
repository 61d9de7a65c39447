ghost use Rattle.std.specs.Prelude.{◌≡◌, ◌+◌, ◌*◌, ◌^◌, ◌<◌, ◌≤◌, IfOk, length, slice_range};
ghost use Rattle.std.specs.List.{sum_by};
ghost use Rattle.adpcm_nums.specs.Sample.{AreSamples};
ghost use Rattle.bound_cert.specs.Filed.{IsFiled};
ghost use Rattle.bound_cert.specs.Good.{SegmentFits, SegmentsFit, blocks_in};
ghost use Rattle.bank_check.specs.Proven.{segment_bound};
ghost use Rattle.bank_check.specs.Tally.{counted, nothing, with_segment, tally_from};

use bound_cert::{CertView, SegmentView, segments_fit};
use cert_check::check;
use command_faults::CertRefusal;
use machine_core::Machine;

/// What the segments that were tested so far come to.
#[derive(Clone, Copy, Debug, PartialEq, Eq)]
pub(crate) struct Tally {
    /// The sum of their bounds.
    pub(crate) bound: u64,
    /// How many have level 0.
    pub(crate) exact: u32,
    /// How many have level 4.
    pub(crate) fine: u32,
    /// How many have level 8.
    pub(crate) coarse: u32,
    /// How many have no cells.
    pub(crate) bare: u32,
}

/// Tests the cells of a segment, and then whether it records the bound that it shows.
#[tactic(auto, unfolding(crate::specs::Proven::segment_bound))]
fn tested<M: Machine>(
    machine: &M,
    segment: &SegmentView<'_>,
    targets: &[i32],
    i: u32,
    scratch: &mut [u64],
) -> Result<u64, CertRefusal>
    requires filed { IsFiled (M.rules machine.now) }
    requires fits { SegmentFits (M.rules machine.now).kind (M.rules machine.now).decoder.samples segment.now }
    requires count { length targets.now ≡ segment.now.blocks * (M.rules machine.now).decoder.samples }
    requires few { length targets.now ≤ 262144 }
    requires range { AreSamples targets.now }
    requires room { (M.rules machine.now).decoder.heads * (M.rules machine.now).floor_len < 2 ^ 31 }
    requires scratch { (M.rules machine.now).decoder.heads * (M.rules machine.now).floor_len + (segment.now.blocks + 1) ≤ length scratch.old }
    ensures value { result ≡ segment_bound (M.rules machine.now) targets.now i segment.now }
    ensures small { IfOk result (λ v. v ≤ length targets.now * 2 ^ 32) }
{
    match check(machine, segment, targets, scratch) {
        Ok(found) => {
            let have = segment.bound();
            if have == found {
                Ok(have)
            } else {
                Err(CertRefusal::Bound {
                    segment: i,
                    have,
                    found,
                })
            }
        }
        Err(fault) => Err(CertRefusal::Cell { segment: i, fault }),
    }
}

/// How often a level was met, and this one besides.
fn counted(count: u32, level: u32, met: u32) -> u32
    requires { count < 2 ^ 31 }
    ensures value { result ≡ counted count level met }
    ensures few { result ≤ count + 1 }
{
    count + u32::from(met == level)
}

impl Tally {
    /// One segment more.
    fn with(self, bound: u64, level: u32) -> Tally
        requires bound { self.bound + bound < 2 ^ 64 }
        requires exact { self.exact < 2 ^ 31 }
        requires fine { self.fine < 2 ^ 31 }
        requires coarse { self.coarse < 2 ^ 31 }
        requires bare { self.bare < 2 ^ 31 }
        ensures value { result ≡ with_segment self bound level }
        ensures exact { result.exact ≤ self.exact + 1 }
        ensures fine { result.fine ≤ self.fine + 1 }
        ensures coarse { result.coarse ≤ self.coarse + 1 }
        ensures bare { result.bare ≤ self.bare + 1 }
    {
        Tally {
            bound: self.bound + bound,
            exact: counted(self.exact, 0, level),
            fine: counted(self.fine, 4, level),
            coarse: counted(self.coarse, 8, level),
            bare: counted(self.bare, 255, level),
        }
    }
}

/// So many targets from one on.
fn part(targets: &[i32], first: usize, count: usize) -> &[i32]
    requires { first + count ≤ length targets.now }
    ensures value { result.now ≡ slice_range targets.now first (first + count) }
    ensures length { length result.now ≡ count }
{
    &targets[first..first + count]
}

/// Tests the segments of a certificate in order.
pub(crate) fn tally_all<M: Machine>(
    machine: &M,
    cert: &CertView<'_>,
    count: u32,
    targets: &[i32],
    scratch: &mut [u64],
) -> Result<Tally, CertRefusal>
    requires filed { IsFiled (M.rules machine.now) }
    requires fits { SegmentsFit (M.rules machine.now).kind (M.rules machine.now).decoder.samples cert.now }
    requires count { length cert.now ≡ count }
    requires whole { length targets.now ≡ sum_by blocks_in cert.now * (M.rules machine.now).decoder.samples }
    requires few { length targets.now ≤ 262144 }
    requires few_segments { count ≤ 65536 }
    requires range { AreSamples targets.now }
    requires room { (M.rules machine.now).decoder.heads * (M.rules machine.now).floor_len < 2 ^ 31 }
    requires scratch { (M.rules machine.now).decoder.heads * (M.rules machine.now).floor_len + (sum_by blocks_in cert.now + 1) ≤ length scratch.old }
    ensures { result ≡ tally_from (M.rules machine.now) targets.now nothing 0 0 cert.now }
{
    segments_fit();
    let samples = machine.block_samples() as usize;
    let mut tally = Tally {
        bound: 0,
        exact: 0,
        fine: 0,
        coarse: 0,
        bare: 0,
    };
    let mut first = 0;
    let mut left = cert.segments();
    for i in 0..count {
        let (segment, later) = left.split_first();
        let count = segment.blocks() as usize * samples;
        match tested(machine, &segment, part(targets, first, count), i, scratch) {
            Ok(bound) => tally = tally.with(bound, segment.level()),
            Err(refusal) => return Err(refusal),
        }
        first += count;
        left = later;
    }
    Ok(tally)
}
