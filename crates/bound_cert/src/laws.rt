ghost use Rattle.std.specs.Prelude.{◌≡◌, ◌≤◌, ◌<◌, ℕ, List, length, map, Ok, slice_get, get_or, Some};
ghost use Rattle.bound_cert.specs.Content.{Plain, Segment};
ghost use Rattle.bound_cert.specs.Good.{SegmentFits, SegmentsFit, blocks_in};
ghost use Rattle.machine_core.specs.declared.state.Kind.{Kind};
ghost use Rattle.bound_cert.specs.Grammar.{read_of};
ghost use Rattle.bound_cert.specs.Small.{SmallSegment};
ghost use Rattle.bound_cert.specs.Spelling.{cert_bytes, AreWritable, placed, blocks_of};

/// What was written is read again.
pub fn written_is_read()
    ensures { (kind : Kind) (samples : ℕ) (segments : List Plain) → samples ≤ 65536 → length segments < 65536 → AreWritable kind samples segments
        → read_of kind samples (map blocks_of segments) (cert_bytes kind segments) ≡ Ok (placed 8 segments) }
{}

/// What the grammar lets stand can be written.
pub fn writable_is_small()
    ensures { (kind : Kind) (samples : ℕ) (segments : List Plain) → samples ≤ 65536 → AreWritable kind samples segments → (k : ℕ) (x : Plain) → slice_get segments k ≡ Some x → SmallSegment x }
{}

/// Each segment of a certificate that is read is in range and in order, and has as many blocks as the shape says.
pub fn segments_fit()
    ensures fits { (kind : Kind) (samples : ℕ) (segments : List Segment) (i : ℕ) (s : Segment) → SegmentsFit kind samples segments → slice_get segments i ≡ Some s → SegmentFits kind samples s }
    ensures blocks { (segments : List Segment) (blocks : List ℕ) (i : ℕ) (s : Segment) → map blocks_in segments ≡ blocks → slice_get segments i ≡ Some s → s.blocks ≡ get_or blocks i 0 }
    ensures count { (segments : List Segment) (blocks : List ℕ) → map blocks_in segments ≡ blocks → length segments ≡ length blocks }
{}
