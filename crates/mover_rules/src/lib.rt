// A move of one logical block: what its beginning and its steps answer. The definitions and laws that the mover and the
// power-cut theorem cite stand in specs/ and proofs/.
#![tactic(auto)]

use header::{EcHeader, VidHeader};

// All that the steps of a move need beside the image.
#[derive(Clone, Copy)]
pub struct Plan {
    // the geometry's three numbers
    pub peb_size: u32,
    pub unit: u32,
    pub sub_unit: u32,
    // the PEB that holds the block, and the one that it moves to
    pub old: u32,
    pub target: u32,
    // the target's VID header, and the old PEB's EC header once it is erased
    pub vid: VidHeader,
    pub ec: EcHeader,
    // the number of steps run
    pub steps: u32,
}

// The plan as it goes on, done, or refusal 18: three cases, of which one has a value.
#[derive(Clone, Copy)]
pub enum Stepped {
    On(Plan),
    Done,
    Refused,
}
