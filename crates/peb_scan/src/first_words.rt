// The words that a PEB is given in the lent tables before any copy is chosen.
ghost use Rattle.std.specs.Prelude.{◌≡◌, ◌||◌, cond, List, ℕ, ◌*◌, ◌<◌, eqb};
ghost use Rattle.base.specs.Lists.{put};
ghost use Rattle.geometry.specs.declared.Geometry.{Geometry};
ghost use Rattle.words.specs.Words.{no_word, entry_stride, most_pebs, HasEntry};
ghost use Rattle.report.specs.View.{good_ec, vid_blank, is_mappable};
ghost use Rattle.report.specs.Class.{first_class};
ghost use Rattle.report.specs.Report.{counter_or};
ghost use Rattle.report.specs.Scratch.{copy_words, key_words};
ghost use Rattle.peb_scan.specs.Seen.{ec_seen, vid_seen, small_counter};

use crate::NoHeader;
use crate::headers::is_mappable;
use header::{COMPAT_DELETE, EcHeader, VidHeader};
use report::class;
use words::{NO_WORD, store_entry};

// The class before any copy is chosen.
#[tactic(auto, unfolding(report::specs::View::copy_of))]
pub fn first_class(e: Result<EcHeader, NoHeader>, v: Result<VidHeader, NoHeader>) -> u32
    ensures { (g : Geometry) (p : List ℕ) → result ≡ first_class (ec_seen e) (vid_seen g p v) }
{
    match v {
        Ok(h) => good_class(h),
        Err(NoHeader::Blank) => blank_class(e),
        Err(_) => class::UNREADABLE,
    }
}

// The class of a block with a good VID header.
fn good_class(h: VidHeader) -> u32
    ensures { result ≡ cond (is_mappable h.volume) 2 (cond (eqb h.compat 1) 5 6) }
{
    if is_mappable(h.volume) {
        return class::PASSED_OVER;
    }
    if h.compat == COMPAT_DELETE {
        return class::TO_DELETE;
    }
    class::KEPT_ASIDE
}

// The class of a block whose VID header is blank.
fn blank_class(e: Result<EcHeader, NoHeader>) -> u32
    ensures { result ≡ first_class (ec_seen e) vid_blank }
{
    match e {
        Ok(_) => class::FREE,
        Err(NoHeader::Blank) => class::BLANK,
        Err(_) => class::UNREADABLE,
    }
}

// Is a block of this class free or blank?
pub fn is_idle(peb_class: u32) -> bool
    ensures { result ≡ (eqb peb_class 0 || eqb peb_class 3) }
{
    peb_class == class::FREE || peb_class == class::BLANK
}

// The counter's word.
pub fn first_counter(e: Result<EcHeader, NoHeader>) -> u32
    requires { small_counter (ec_seen e) }
    ensures { result ≡ counter_or no_word (good_ec (ec_seen e)) }
{
    match e {
        Ok(h) => h.counter as u32,
        Err(_) => NO_WORD,
    }
}

// The volume, LEB and PEB of a copy, or no words.
#[tactic(auto, unfolding(report::specs::View::copy_of))]
pub fn store_key(map: &mut [u32], i: usize, v: Result<VidHeader, NoHeader>)
    requires { (i < most_pebs) × HasEntry map.old i }
    ensures { (g : Geometry) (p : List ℕ)
        → map.new ≡ put (i * entry_stride) (key_words i (vid_seen g p v)) map.old }
{
    match v {
        Ok(h) => store_header(map, i, h),
        Err(_) => store_entry(map, i, NO_WORD, NO_WORD, NO_WORD),
    }
}

fn store_header(map: &mut [u32], i: usize, h: VidHeader)
    requires { (i < most_pebs) × HasEntry map.old i }
    ensures { map.new ≡ put (i * entry_stride) (copy_words i h) map.old }
{
    if is_mappable(h.volume) {
        store_entry(map, i, h.volume, h.lnum, i as u32);
        return;
    }
    store_entry(map, i, NO_WORD, NO_WORD, NO_WORD);
}
