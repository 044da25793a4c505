// Attaching, the listing of a report, and a geometry.
ghost use Rattle.std.specs.Prelude.{◌≡◌, true, ◌||◌, [], ◌∷◌, ℕ};
ghost use Rattle.geometry.specs.Geometry.{geometry_of};
ghost use Rattle.report.specs.Attach.{lent, request, attaching_into, answer_of, tables_after, over};
ghost use Rattle.listing_text.specs.Render.{rendering, out_after};
ghost use Rattle.capi_words.specs.Structs.{geometry_words, report_words, answer_words, attached_fits, attached_in};
ghost use Rattle.capi_answers.specs.Calls.{short, judged, changed, number_of, given_words};

use capi_answers::{UNFIT, store_attached, store_geometry, store_rendered};
use capi_words::{GEOMETRY_WORDS, REPORT_WORDS};
use report::refusal::SHORT_BUFFER;

// The report of an image, or its refusal, in the lent tables and words.
#[unsafe(no_mangle)]
pub extern "C" fn choduljin_attach(
    slip: &[u8],
    image: &[u8],
    pebs: &mut [u32],
    map: &mut [u32],
    states: &mut [u32],
    report: &mut [u64],
) -> u32
    ensures answer { result ≡ judged (short 17 report.old) true
        (number_of (answer_of (attaching_into (request slip.now) image.now
        (lent pebs.old map.old states.old)))) }
    ensures tables { lent pebs.new map.new states.new
        ≡ changed (short 17 report.old) true
        (tables_after
        (attaching_into (request slip.now) image.now
        (lent pebs.old map.old states.old))
        (lent pebs.old map.old states.old))
        (lent pebs.old map.old states.old) }
    ensures report { report.new ≡ changed (short 17 report.old) true
        (over (answer_words report_words (answer_of (attaching_into (request slip.now) image.now
        (lent pebs.old map.old states.old)))) report.old)
        report.old }
{
    if report.len() < REPORT_WORDS {
        return SHORT_BUFFER;
    }
    let a = attach::attach(slip, image, pebs, map, states);
    store_attached(a, report)
}

// The listing of a report's words with its tables; `count` gets the length of the text.
#[unsafe(no_mangle)]
pub extern "C" fn choduljin_listing(
    report: &[u64],
    pebs: &[u32],
    map: &[u32],
    states: &[u32],
    out: &mut [u8],
    count: &mut [u64],
) -> u32
    ensures answer { result
        ≡ judged (short 17 report.now || short 1 count.old) (attached_fits report.now)
        (number_of (rendering (attached_in report.now)
        (lent pebs.now map.now states.now) out.old)) }
    ensures out { out.new
        ≡ changed (short 17 report.now || short 1 count.old) (attached_fits report.now)
        (out_after (attached_in report.now)
        (lent pebs.now map.now states.now) out.old)
        out.old }
    ensures length { count.new
        ≡ changed (short 17 report.now || short 1 count.old) (attached_fits report.now)
        (over (given_words (λ (n : ℕ). n ∷ []) (rendering (attached_in report.now)
        (lent pebs.now map.now states.now) out.old))
        count.old)
        count.old }
{
    if report.len() < REPORT_WORDS || count.is_empty() {
        return SHORT_BUFFER;
    }
    if !capi_words::attached_fits(report) {
        return UNFIT;
    }
    let a = capi_words::attached_in(report);
    let r = listing_text::render(a, pebs, map, states, out);
    store_rendered(r, count)
}

// The geometry of three numbers.
#[unsafe(no_mangle)]
pub extern "C" fn choduljin_geometry(
    peb_size: u32,
    unit: u32,
    sub_unit: u32,
    geometry: &mut [u64],
) -> u32
    ensures answer { result ≡ judged (short 6 geometry.old) true
        (number_of (geometry_of peb_size unit sub_unit)) }
    ensures geometry { geometry.new ≡ changed (short 6 geometry.old) true
        (over (given_words geometry_words (geometry_of peb_size unit sub_unit)) geometry.old)
        geometry.old }
{
    if geometry.len() < GEOMETRY_WORDS {
        return SHORT_BUFFER;
    }
    let r = geometry::check_geometry(peb_size, unit, sub_unit);
    store_geometry(r, geometry)
}
