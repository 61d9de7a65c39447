//! The image of a sample bank in the SNES's sound memory: where samples lie, how an image file is written and read.
#![tactic(auto)]

mod as_part;
mod entry;
mod entry_lists;
mod entry_tracks;
mod fault;
mod header;
mod image;
mod laws;
mod layout;
mod part;
mod reading;
mod writing;

pub use as_part::AsPart;
pub use fault::{ImageFault, LayFault};
pub use image::Image;
pub use laws::{samples_lie_in_memory, written_is_read};
pub use layout::{Layout, end_address, is_past_end, lay_out};
pub use part::ImagePart;
pub use reading::read_image;
pub use writing::write_image;
