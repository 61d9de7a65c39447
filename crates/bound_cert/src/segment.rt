ghost use Rattle.std.specs.Prelude.{◌≡◌, ◌≤◌, ◌<◌, ◌+◌, ◌^◌, length, IsSome, Some};
ghost use Rattle.bound_cert.specs.Content.{first_at, begins_at, AreSorted};
ghost use Rattle.bound_cert.specs.Places.{segment_at, AllStand, Fit, StandHere, here_at, layers_at};

use crate::fields::{u16_in, u32_in, u64_in};
use crate::layer::LayerView;
use std::marker::Model;

/// A segment of a certificate, over the certificate's bytes.
#[derive(Drop)]
pub struct SegmentView<'b> {
    bytes: &'b [u8],
    at: usize,
}

impl<'b> Model for SegmentView<'b> {
    ghost use Rattle.bound_cert.specs.Content.{Segment};

    ghost Value = { Segment };

    ghost use Rattle.bound_cert.specs.Places.{segment_at, AllStand};

    ghost view = { λ v. segment_at v.bytes.now v.at };

    ghost invariant = { λ v. AllStand v.bytes.now v.at 1 };
}

impl<'b> SegmentView<'b> {
    pub(crate) fn over(bytes: &'b [u8], at: usize) -> SegmentView<'b>
        requires { AllStand bytes.now at 1 }
        ensures { result ≡ segment_at bytes.now at }
    {
        SegmentView { bytes, at }
    }

    /// The number of its blocks.
    pub fn blocks(&self) -> u32
        ensures value { result ≡ self.now.blocks }
        ensures small { result < 65536 }
    {
        u16_in(self.bytes, self.at)
    }

    /// The level of its cells, 255 for a bound by floors alone.
    pub fn level(&self) -> u32
        ensures { result ≡ self.now.level }
    {
        u32::from(self.bytes[self.at + 2])
    }

    /// The bound that is recorded.
    pub fn bound(&self) -> u64
        ensures { result ≡ self.now.bound }
    {
        u64_in(self.bytes, self.at + 4)
    }

    /// The number of its layers.
    pub fn layer_count(&self) -> u32
        ensures { result ≡ length self.now.layers }
    {
        u32_in(self.bytes, self.at + 12)
    }

    /// Its first layer.
    pub fn first_layer(&self) -> Option<LayerView<'b>>
        ensures { result ≡ first_at self.now.at self.now.layers }
    {
        let count = u32_in(self.bytes, self.at + 12);
        if count == 0 {
            return None;
        }
        Some(LayerView::over(self.bytes, self.at + 16, count - 1))
    }

    /// Its layers and their cells ascend.
    pub fn sorted(&self)
        ensures { AreSorted self.now.layers }
    {
        let _ = &self.at;
    }

    /// The layer that begins at a byte.
    pub fn layer_from(&self, at: u64) -> LayerView<'b>
        requires { IsSome (begins_at self.now.at self.now.layers at) }
        ensures { Some result ≡ begins_at self.now.at self.now.layers at }
    {
        let count = u32_in(self.bytes, self.at + 12);
        let (place, left) = place_from(self.bytes, self.at + 16, count, at as usize);
        LayerView::over(self.bytes, place, left)
    }
}

// The layer of so many that begins at a byte, and the number of layers after it.
fn place_from(bytes: &[u8], start: usize, count: u32, wanted: usize) -> (usize, u32)
    requires fit { Fit bytes.now start count }
    requires sorted { AreSorted (layers_at bytes.now start count) }
    requires there { IsSome (begins_at start (layers_at bytes.now start count) wanted) }
    ensures found { Some (here_at bytes.now result.0 result.1) ≡ begins_at start (layers_at bytes.now start count) wanted }
    ensures stands { StandHere bytes.now result.0 result.1 }
{
    let mut at = start;
    let mut left = count - 1;
    while at != wanted {
        at = at + 10 + 12 * u32_in(bytes, at + 6) as usize;
        left -= 1;
    }
    (at, left)
}
