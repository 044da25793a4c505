// Production images: what building one answers, and what it leaves in the lent image. The definitions and laws that the
// builder and its theorem cite stand in specs/ and proofs/.
#![tactic(auto)]

// What the VID headers of all LEBs of a volume share.
#[derive(Clone, Copy)]
pub struct VolumeShape {
    pub volume: u32,
    pub vol_type: u8,
    pub data_pad: u32,
    // the number of LEBs that its content takes
    pub lebs: u32,
}
