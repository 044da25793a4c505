// The PEBs of a production image, filled from the first to the last. No byte of the content is stored twice.
#![tactic(auto)]

mod blocks;
mod image;
mod volume;

pub use image::fill_image;
