// The slip before an image, the geometry of the flash chip that it gives, and the size of the image.
#![tactic(auto)]

mod image;
mod rules;
mod slip;

pub use image::image_fits;
pub use rules::check_geometry;
pub use slip::{HEAD_SIZE, ends_at, read_head, read_slip};

// Where headers and data stand in a physical block (PEB), and how long a logical one (LEB) is.
#[derive(Clone, Copy)]
pub struct Geometry {
    pub peb_size: u32,
    // the minimal I/O unit: the page that is written at once
    pub unit: u32,
    // the part of a page that can be written alone, where the VID header may start
    pub sub_unit: u32,
    pub vid_start: u32,
    pub data_start: u32,
    pub leb_size: u32,
}

// Why there is no geometry: the slip is malformed, refusal 1; the numbers are outside the rules, refusal 2.
#[derive(Clone, Copy)]
pub enum SlipError {
    Malformed,
    Outside,
}
