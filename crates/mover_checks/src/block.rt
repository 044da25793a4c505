// What a move asks of the blocks of an image that attached.
ghost use Rattle.std.specs.Prelude.{◌≡◌, ℕ, ◌<◌, length};
ghost use Rattle.base.specs.Below.{any_below};
ghost use Rattle.geometry.specs.Placed.{Placed};
ghost use Rattle.report.specs.View.{view_of, views_of, medium_of, good_vid, copies};
ghost use Rattle.report.specs.Report.{is_internal, mean_of};
ghost use Rattle.mover_rules.specs.Headers.{old_counter};
ghost use Rattle.mover_checks.specs.Reported.{Reported, is_no_target, ec_with};

use geometry::Geometry;
use header::{COMPAT_DELETE, EcHeader};
use mover_copy::data_end;
use report::class;
use words::NO_WORD;

// Is the PEB with the bytes p a block of an internal volume that is to be deleted?
fn is_to_delete(p: &[u8], g: Geometry) -> bool
    requires { (Placed g) × (length p.now ≡ g.peb_size) }
    ensures { result ≡ is_internal 1 (good_vid (view_of g p.now).vid) }
{
    peb_scan::see_vid(p, g).is_ok_and(|h| peb_scan::is_internal(h, COMPAT_DELETE))
}

// The same of PEB i, whose header is read only if its class allows it.
fn to_delete_at(image: &[u8], g: Geometry, n: usize, pebs: &[u32], i: usize) -> bool
    requires { (Reported g n image.now pebs.now) × (i < n) }
    ensures { result ≡ is_internal 1 (copies (views_of g image.now) i) }
{
    let to_delete = words::class_word(pebs, i) == class::TO_DELETE;
    if !to_delete {
        return false;
    }
    let size = g.peb_size as usize;
    let at = i * size;
    is_to_delete(&image[at..at + size], g)
}

// Does a block of an internal volume stand that is to be deleted?
pub fn any_to_delete(image: &[u8], g: Geometry, n: usize, pebs: &[u32]) -> bool
    requires { Reported g n image.now pebs.now }
    ensures { result ≡ any_below n (λ (i : ℕ). is_internal 1 (copies (views_of g image.now) i)) }
{
    (0..n).any(|i| to_delete_at(image, g, n, pebs, i))
}

// Is the target absent, not free, or not 0xFF past its EC header?
pub fn is_no_target(image: &[u8], g: Geometry, n: usize, pebs: &[u32], target: u32) -> bool
    requires { Reported g n image.now pebs.now }
    ensures { result ≡ is_no_target (medium_of g n image.now) target }
{
    let i = target as usize;
    if n <= i {
        return true;
    }
    if words::class_word(pebs, i) != class::FREE {
        return true;
    }
    let size = g.peb_size as usize;
    let at = i * size;
    data_end(&image[at + 64..at + size]) != 0
}

// The counter of PEB `old`, or the mean if it is lost.
pub fn old_counter(image: &[u8], g: Geometry, n: usize, pebs: &[u32], mean: u32, old: usize) -> u32
    requires { (Reported g n image.now pebs.now) × ((mean ≡ mean_of (medium_of g n image.now)) × (old < n)) }
    ensures { result ≡ old_counter (medium_of g n image.now) old }
{
    let counter = words::counter_word(pebs, old);
    if counter == NO_WORD {
        return mean;
    }
    counter
}

// The EC header of an erased PEB that had this counter.
pub fn new_ec(g: Geometry, counter: u32, image_seq: u32) -> EcHeader
    ensures { result ≡ ec_with g counter image_seq }
{
    EcHeader {
        version: 1,
        counter: counter as u64 + 1,
        vid_start: g.vid_start,
        data_start: g.data_start,
        image_seq,
    }
}
