// The report on an image: what attaching answers. The definitions and laws that attaching and moving cite stand in
// specs/ and proofs/.
#![tactic(auto)]

pub mod class;
pub mod state;

use geometry::Geometry;
pub use refusals::{Refused, refusal};

// The report's numbers; the classes, counters, map and volume states are in the lent tables. Geometry, PEB count and
// image sequence are for callers that go on with the image.
#[derive(Clone, Copy)]
pub struct Report {
    pub geometry: Geometry,
    pub peb_count: u32,
    pub entries: u32,
    pub mean: u32,
    pub highest: u64,
    // the image sequence that the EC headers are compared with, 0 if there is none
    pub image_seq: u32,
    pub read_only: bool,
    // the layout LEB, 0 or 1, whose table is taken
    pub table: u32,
    pub copies_mark: u32,
    pub grade: u32,
}
