//! Compiled programs as images: their parts under the rules of the format, and the bytes that spell them.
#![tactic(auto)]

mod copying;
mod fault;
mod fields;
mod image;
mod laws;
mod lists;
mod literals;
mod reading;
mod writing;

pub use fault::ImageErr;
pub use image::{CodeWords, Entries, Image, ImageParts, Shapes, build};
pub use laws::image_laws;
pub use literals::Literals;
pub use reading::read;
pub use writing::write;
