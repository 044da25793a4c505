// The totals of the report, and the refusals 5 to 8 of one PEB.
ghost use Rattle.std.specs.Prelude.{◌≡◌, not, ◌&&◌, ◌||◌, List, ℕ, max, eqb};
ghost use Rattle.base.specs.Below.{unless_zero};
ghost use Rattle.geometry.specs.declared.Geometry.{Geometry};
ghost use Rattle.report.specs.View.{is_mappable, ec_good};
ghost use Rattle.report.specs.Scan.{when, seq_disagrees, ec_refusal, vid_refusal};
ghost use Rattle.peb_scan.specs.Seen.{ec_seen, vid_seen, small_counter};
ghost use Rattle.scan.specs.Totals.{with_ec, with_vid, with_sequence, SmallTotals, refusal_of};

use crate::{EcTotals, VidTotals};
use geometry::Geometry;
use header::{COMPAT_READ_ONLY, COMPAT_REJECT, EcHeader, VidHeader};
use peb_scan::{NoHeader, is_internal, is_mappable};
use report::refusal;

// The totals with an EC header more.
pub fn with_ec(s: EcTotals, e: Result<EcHeader, NoHeader>) -> EcTotals
    requires { SmallTotals s × small_counter (ec_seen e) }
    ensures { result ≡ with_ec s (ec_seen e) }
{
    match e {
        Ok(h) => with_good_ec(s, h),
        Err(_) => s,
    }
}

fn with_good_ec(s: EcTotals, h: EcHeader) -> EcTotals
    requires { SmallTotals s × small_counter (ec_good h) }
    ensures { result ≡ with_ec s (ec_good h) }
{
    EcTotals {
        image_seq: first_seq(s, h.image_seq),
        counters: s.counters + h.counter,
        good: s.good + 1,
    }
}

// The first image sequence met that is not 0.
fn first_seq(s: EcTotals, seq: u32) -> u32
    ensures { result ≡ unless_zero s.image_seq seq }
{
    if s.image_seq == 0 {
        return seq;
    }
    s.image_seq
}

// Does an image sequence disagree with the one compared with?
fn seq_disagrees(s: EcTotals, seq: u32) -> bool
    ensures { result ≡ seq_disagrees s.image_seq seq }
{
    seq != 0 && seq != s.image_seq
}

// Refusal 5, 6 or 7 of an EC header; the totals have the header in.
pub fn check_ec(e: Result<EcHeader, NoHeader>, g: Geometry, s: EcTotals) -> Result<(), u32>
    ensures { refusal_of result ≡ ec_refusal g s.image_seq (ec_seen e) }
{
    match e {
        Ok(h) => check_good_ec(h, g, s),
        Err(NoHeader::Newer) => Err(refusal::NEWER_HEADER),
        Err(_) => Ok(()),
    }
}

fn check_good_ec(h: EcHeader, g: Geometry, s: EcTotals) -> Result<(), u32>
    ensures { refusal_of result ≡ ec_refusal g s.image_seq (ec_good h) }
{
    if h.vid_start != g.vid_start || h.data_start != g.data_start {
        return Err(refusal::OTHER_STARTS);
    }
    if seq_disagrees(s, h.image_seq) {
        return Err(refusal::OTHER_IMAGE_SEQ);
    }
    Ok(())
}

// Refusal 5 or 8 of a VID header.
#[tactic(auto, unfolding(report::specs::View::copy_of))]
pub fn check_vid(v: Result<VidHeader, NoHeader>) -> Result<(), u32>
    ensures { (g : Geometry) (p : List ℕ) → refusal_of result ≡ vid_refusal (vid_seen g p v) }
{
    match v {
        Ok(h) => check_good_vid(h),
        Err(NoHeader::Newer) => Err(refusal::NEWER_HEADER),
        Err(_) => Ok(()),
    }
}

fn check_good_vid(h: VidHeader) -> Result<(), u32>
    ensures { refusal_of result ≡ when (not (is_mappable h.volume) && eqb h.compat 5) 8 }
{
    if is_internal(h, COMPAT_REJECT) {
        return Err(refusal::UNKNOWN_INTERNAL);
    }
    Ok(())
}

// The totals with a VID header more, where `idle` says whether its PEB is free or blank.
#[tactic(auto, unfolding(report::specs::View::copy_of))]
pub fn with_vid(s: VidTotals, idle: bool, v: Result<VidHeader, NoHeader>) -> VidTotals
    ensures { (g : Geometry) (p : List ℕ) → result ≡ with_vid s idle (vid_seen g p v) }
{
    match v {
        Ok(h) => with_sequence(s, idle, h.sequence, is_internal(h, COMPAT_READ_ONLY)),
        Err(_) => with_sequence(s, idle, 0, false),
    }
}

fn with_sequence(s: VidTotals, idle: bool, sequence: u64, asks: bool) -> VidTotals
    ensures { result ≡ with_sequence s idle sequence asks }
{
    VidTotals {
        highest: s.highest.max(sequence),
        read_only: s.read_only || asks,
        unused: s.unused && idle,
    }
}
