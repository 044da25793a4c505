// The geometry that a slip gives, or the refusal.
use geometry::{Geometry, SlipError};

pub fn answer(slip: &[u8]) {
    match geometry::read_slip(slip) {
        Ok(g) => print_geometry(g),
        Err(SlipError::Malformed) => frames::word(b"refused 1"),
        Err(SlipError::Outside) => frames::word(b"refused 2"),
    }
}

fn print_geometry(g: Geometry) {
    frames::word(b"good");
    frames::next_number(g.peb_size as u64);
    frames::next_number(g.unit as u64);
    frames::next_number(g.sub_unit as u64);
    frames::next_number(g.vid_start as u64);
    frames::next_number(g.data_start as u64);
    frames::next_number(g.leb_size as u64);
}
