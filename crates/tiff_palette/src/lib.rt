//! Palette images in TIFF files, read and written exactly.
#![tactic(auto)]

mod colour_map;
mod directory;
mod entry;
mod fault;
mod fields;
mod image;
pub mod laws;
mod layout;
mod lists;
mod numbers;
mod palette;
mod pixels;
mod reading;
mod strip_check;
mod strips;
mod tags;
mod values;
mod writing;

pub use fault::TiffFault;
pub use image::PaletteImage;
pub use reading::read;
pub use writing::write;
