ghost use Rattle.std.specs.Prelude.{◌≡◌, ◌≤◌, ◌<◌, ◌+◌, ◌^◌, ◌∷◌, length, IfOk, slice_get, Some, map};
ghost use Rattle.bound_cert.specs.Content.{first_at};
ghost use Rattle.bound_cert.specs.Good.{SegmentsFit, blocks_in};
ghost use Rattle.bound_cert.specs.Grammar.{read_of};
ghost use Rattle.bound_cert.specs.Places.{layers_end, segments_at, segment_at, Fit, AllStand};

use crate::fault::CertFault;
use crate::fields::{u16_in, u32_in, u64_in};
use crate::layer::LayerView;
use crate::reading::whole_read;
use crate::segment::SegmentView;
use crate::shape::CertShape;
use std::marker::Model;

/// A certificate, over its bytes.
#[derive(Drop)]
pub struct CertView<'b> {
    bytes: &'b [u8],
    count: usize,
}

impl<'b> Model for CertView<'b> {
    ghost use Rattle.std.specs.Prelude.{List};
    ghost use Rattle.bound_cert.specs.Content.{Segment};

    ghost Value = { List Segment };

    ghost use Rattle.bound_cert.specs.Places.{segments_at, AllStand};

    ghost view = { λ v. segments_at v.bytes.now 8 v.count };

    ghost invariant = { λ v. AllStand v.bytes.now 8 v.count };
}

/// The segments of a certificate that are still ahead: each begins where the one before it ends.
#[derive(Drop)]
pub struct SegmentsLeft<'b> {
    bytes: &'b [u8],
    at: usize,
    count: usize,
}

impl<'b> Model for SegmentsLeft<'b> {
    ghost use Rattle.std.specs.Prelude.{List};
    ghost use Rattle.bound_cert.specs.Content.{Segment};

    ghost Value = { List Segment };

    ghost use Rattle.bound_cert.specs.Places.{segments_at, AllStand};

    ghost view = { λ v. segments_at v.bytes.now v.at v.count };

    ghost invariant = { λ v. AllStand v.bytes.now v.at v.count };
}

/// The certificate that the bytes are, or the first fault.
pub fn read_cert<'b>(bytes: &'b [u8], shape: &CertShape<'_>) -> Result<CertView<'b>, CertFault>
    requires { length bytes.now < 2 ^ 31 }
    ensures exact { result ≡ read_of shape.now.kind shape.now.block_samples shape.now.segments.now bytes.now }
    ensures blocks { IfOk result (λ segments. map blocks_in segments ≡ shape.now.segments.now) }
    ensures range { IfOk result (λ segments. SegmentsFit shape.now.kind shape.now.block_samples segments) }
{
    match whole_read(bytes, shape) {
        Ok(_) => Ok(CertView {
            bytes,
            count: shape.segments.len(),
        }),
        Err(fault) => Err(fault),
    }
}

// The place after so many layers.
fn layers_past(bytes: &[u8], start: usize, count: u32) -> usize
    requires { Fit bytes.now start count }
    ensures { result ≡ layers_end bytes.now start count }
{
    let mut at = start;
    for _i in 0..count {
        at = at + 10 + 12 * u32_in(bytes, at + 6) as usize;
    }
    at
}

// The place of segment i.
fn segment_place(bytes: &[u8], count: usize, i: u32) -> usize
    requires stand { AllStand bytes.now 8 count }
    requires i { i < count }
    ensures here { slice_get (segments_at bytes.now 8 count) i ≡ Some (segment_at bytes.now result) }
    ensures stand { AllStand bytes.now result 1 }
{
    let mut at = 8;
    for _k in 0..i {
        at = layers_past(bytes, at + 16, u32_in(bytes, at + 12));
    }
    at
}

impl<'b> CertView<'b> {
    /// Segment i, found from the first on. To go over all of them, take `segments`.
    pub fn segment(&self, i: u32) -> SegmentView<'b>
        requires { i < length self.now }
        ensures { slice_get self.now i ≡ Some result }
    {
        let at = segment_place(self.bytes, self.count, i);
        SegmentView::over(self.bytes, at)
    }

    /// All its segments, to be taken one after another.
    pub fn segments(&self) -> SegmentsLeft<'b>
        ensures { result ≡ self.now }
    {
        SegmentsLeft {
            bytes: self.bytes,
            at: 8,
            count: self.count,
        }
    }
}

impl<'b> SegmentsLeft<'b> {
    /// The first of them, and those after it. The end is found in as many steps as the first has layers.
    pub fn split_first(&self) -> (SegmentView<'b>, SegmentsLeft<'b>)
        requires { 0 < length self.now }
        ensures { self.now ≡ result.0 ∷ result.1 }
    {
        let layers = u32_in(self.bytes, self.at + 12);
        let end = layers_past(self.bytes, self.at + 16, layers);
        let later = SegmentsLeft {
            bytes: self.bytes,
            at: end,
            count: self.count - 1,
        };
        (SegmentView::over(self.bytes, self.at), later)
    }
}
