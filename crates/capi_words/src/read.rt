// Structs read back from their words, once these fit.
ghost use Rattle.std.specs.Prelude.{◌≡◌, true, ◌≤◌, length};
ghost use Rattle.report.specs.Attach.{attached_answer};
ghost use Rattle.capi_words.specs.Lent.{fits, Within};
ghost use Rattle.capi_words.specs.Structs.{geometry_most, ec_most, vid_most, report_most, plan_most};
ghost use Rattle.capi_words.specs.Structs.{geometry_in, ec_in, vid_in, report_in, plan_in, attached_fits, attached_in};

use geometry::Geometry;
use header::{EcHeader, VidHeader};
use mover_rules::Plan;
use report::{Refused, Report};

const MOST_8: u64 = 0xFF;

const MOST_32: u64 = 0xFFFFFFFF;

const MOST_64: u64 = 0xFFFFFFFFFFFFFFFF;

// How large each word may be.
const EC_MOST: [u64; 5] = [MOST_8, MOST_64, MOST_32, MOST_32, MOST_32];

const VID_MOST: [u64; 11] = [
    MOST_8, MOST_8, MOST_8, MOST_8, MOST_32, MOST_32, MOST_32, MOST_32, MOST_32, MOST_32, MOST_64,
];

// After the 0 and 0 of a report, of a plan: the number and place of no refusal.
const REPORT_MOST: [u64; 17] = [
    0, 0, MOST_32, MOST_32, MOST_32, MOST_32, MOST_32, MOST_32, MOST_32, MOST_32, MOST_32, MOST_64,
    MOST_32, 1, MOST_32, MOST_32, MOST_32,
];

const PLAN_MOST: [u64; 24] = [
    0, 0, MOST_32, MOST_32, MOST_32, MOST_32, MOST_32, MOST_8, MOST_8, MOST_8, MOST_8, MOST_32,
    MOST_32, MOST_32, MOST_32, MOST_32, MOST_32, MOST_64, MOST_8, MOST_64, MOST_32, MOST_32,
    MOST_32, MOST_32,
];

const REFUSAL_MOST: [u64; 2] = [MOST_32, MOST_32];

// Is there a word for each limit, and none above its limit?
fn fits(words: &[u64], most: &[u64]) -> bool
    ensures { result ≡ fits words.now most.now }
{
    most.len() <= words.len() && words.iter().zip(most).all(|(w, m)| w <= m)
}

pub fn ec_fits(w: &[u64]) -> bool
    ensures { result ≡ fits w.now ec_most }
{
    fits(w, &EC_MOST)
}

pub fn vid_fits(w: &[u64]) -> bool
    ensures { result ≡ fits w.now vid_most }
{
    fits(w, &VID_MOST)
}

pub fn plan_fits(w: &[u64]) -> bool
    ensures { result ≡ fits w.now plan_most }
{
    fits(w, &PLAN_MOST)
}

// Are the words a report, or a refusal?
#[tactic(auto, unfolding(crate::specs::Structs::attached_fits))]
pub fn attached_fits(w: &[u64]) -> bool
    requires { 17 ≤ length w.now }
    ensures { result ≡ attached_fits w.now }
{
    if w[0] == 0 {
        fits(w, &REPORT_MOST)
    } else {
        fits(w, &REFUSAL_MOST)
    }
}

pub fn ec_in(w: &[u64]) -> EcHeader
    requires { Within w.now ec_most }
    ensures { result ≡ ec_in w.now }
{
    EcHeader {
        version: w[0] as u8,
        counter: w[1],
        vid_start: w[2] as u32,
        data_start: w[3] as u32,
        image_seq: w[4] as u32,
    }
}

pub fn vid_in(w: &[u64]) -> VidHeader
    requires { Within w.now vid_most }
    ensures { result ≡ vid_in w.now }
{
    VidHeader {
        version: w[0] as u8,
        vol_type: w[1] as u8,
        copy_flag: w[2] as u8,
        compat: w[3] as u8,
        volume: w[4] as u32,
        lnum: w[5] as u32,
        data_size: w[6] as u32,
        used_lebs: w[7] as u32,
        data_pad: w[8] as u32,
        data_crc: w[9] as u32,
        sequence: w[10],
    }
}

#[tactic(auto, unfolding(crate::specs::Structs::plan_in))]
pub fn plan_in(w: &[u64]) -> Plan
    requires { Within w.now plan_most }
    ensures { result ≡ plan_in w.now }
{
    let vid = vid_in(&w[7..18]);
    let ec = ec_in(&w[18..23]);
    Plan {
        peb_size: w[2] as u32,
        unit: w[3] as u32,
        sub_unit: w[4] as u32,
        old: w[5] as u32,
        target: w[6] as u32,
        vid,
        ec,
        steps: w[23] as u32,
    }
}

fn geometry_in(w: &[u64]) -> Geometry
    requires { Within w.now geometry_most }
    ensures { result ≡ geometry_in w.now }
{
    Geometry {
        peb_size: w[0] as u32,
        unit: w[1] as u32,
        sub_unit: w[2] as u32,
        vid_start: w[3] as u32,
        data_start: w[4] as u32,
        leb_size: w[5] as u32,
    }
}

#[tactic(auto, unfolding(crate::specs::Structs::report_in))]
fn report_in(w: &[u64]) -> Report
    requires { Within w.now report_most }
    ensures { result ≡ report_in w.now }
{
    let geometry = geometry_in(&w[2..8]);
    Report {
        geometry,
        peb_count: w[8] as u32,
        entries: w[9] as u32,
        mean: w[10] as u32,
        highest: w[11],
        image_seq: w[12] as u32,
        read_only: w[13] != 0,
        table: w[14] as u32,
        copies_mark: w[15] as u32,
        grade: w[16] as u32,
    }
}

// The report, or the refusal.
#[tactic(auto, using(crate::proofs::Laws::answer_within), unfolding(crate::specs::Structs::attached_in))]
pub fn attached_in(w: &[u64]) -> Result<Report, Refused>
    requires { (17 ≤ length w.now) × (attached_fits w.now ≡ true) }
    ensures { attached_answer result ≡ attached_in w.now }
{
    if w[0] == 0 {
        Ok(report_in(w))
    } else {
        Err(Refused {
            number: w[0] as u32,
            place: w[1] as u32,
        })
    }
}
