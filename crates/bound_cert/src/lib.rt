//! Certificates of a bound on the error of a sample's segments: how they are written, and views over their bytes.
//!
//! A certificate lists cells of states with values, in squared 16-bit steps. Places are bytes from the file's start; numbers stand with their
//! lowest byte first. The format is this project's own choice.
#![tactic(auto)]

mod certificate;
mod fault;
mod fields;
mod laws;
mod layer;
mod parts;
mod ranges;
mod reading;
mod segment;
mod shape;
mod writing;

pub use box_layers::{CellValue, Key};
pub use certificate::{CertView, SegmentsLeft, read_cert};
pub use fault::CertFault;
pub use laws::{segments_fit, writable_is_small, written_is_read};
pub use layer::LayerView;
pub use parts::{LayerCells, SegmentCert};
pub use segment::SegmentView;
pub use shape::CertShape;
pub use writing::write_cert;
