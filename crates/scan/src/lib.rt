// One pass over an image's headers: what each PEB, judged alone, says; refusals 5 to 8; the totals of the report.
#![tactic(auto)]

mod run;
mod totals;

pub use run::pass;

// What the EC headers passed so far add up to.
#[derive(Clone, Copy)]
pub struct EcTotals {
    // the image sequence of the lowest PEB that has one; 0 if there is none
    pub image_seq: u32,
    // the good counters' sum and number
    pub counters: u64,
    pub good: u32,
}

// What the PEBs passed so far add up to beside their EC headers.
#[derive(Clone, Copy)]
pub struct VidTotals {
    // the highest sequence, and whether an internal volume asks for read-only
    pub highest: u64,
    pub read_only: bool,
    // is every PEB free or blank?
    pub unused: bool,
}

#[derive(Clone, Copy)]
pub struct ScanTotals {
    pub ec: EcTotals,
    pub vid: VidTotals,
}
