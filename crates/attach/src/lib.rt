// Attaching: from a slip and an image to the report.
#![tactic(auto)]

ghost use Rattle.std.specs.Prelude.{◌≡◌, ◌≤◌};
ghost use Rattle.geometry.specs.Placed.{Placed};
ghost use Rattle.base.specs.Answers.{given};
ghost use Rattle.report.specs.Attach.{request, attaching_into, by_geometry, lent, long_enough, attached_answer, answer_of, tables_after};
ghost use Rattle.summary.specs.Stage.{Ended, Room, Past8, Past10, outcome};

use geometry::Geometry;
use report::{Refused, Report, refusal};
use scan::ScanTotals;
use words::{ENTRY_WORDS, PEB_WORDS, STATE_WORDS};

// From the chosen copies on: refusal 11, and the rest with the table taken.
fn attach_chosen(
    image: &[u8],
    g: Geometry,
    n: usize,
    totals: ScanTotals,
    pebs: &mut [u32],
    map: &mut [u32],
    states: &mut [u32],
) -> Result<Report, Refused>
    requires { Past10 g n image.now totals (lent pebs.old map.old states.old) }
    ensures { Ended (outcome g n image.now) result
        (lent pebs.old map.old states.old)
        (lent pebs.new map.new states.new) }
{
    let copy0 = layout::layout_content(image, g, n, pebs, map, 0);
    let copy1 = layout::layout_content(image, g, n, pebs, map, 1);
    let choice = table_choice::choose_table(copy0, copy1, g.leb_size, g.unit, n as u32);
    let Some(lnum) = choice.taken else {
        return Err(summary::refuse(refusal::NO_TABLE, 0, n, pebs, map, states));
    };
    let table = table_choice::taken_table(copy0, copy1, choice.taken, g.leb_size);
    summary::report_on(
        image,
        g,
        n,
        totals,
        table,
        lnum,
        choice.copies_mark,
        pebs,
        map,
        states,
    )
}

// From the first pass on: refusals 9 and 10, and the rest. Copies are linked while they are compared; `heads` has each
// bucket's highest PEB, in memory of its own: the lent tables have no room for as many.
fn attach_passed(
    image: &[u8],
    g: Geometry,
    n: usize,
    totals: ScanTotals,
    pebs: &mut [u32],
    map: &mut [u32],
    states: &mut [u32],
) -> Result<Report, Refused>
    requires { Past8 g n image.now totals (lent pebs.old map.old states.old) }
    ensures { Ended (outcome g n image.now) result
        (lent pebs.old map.old states.old)
        (lent pebs.new map.new states.new) }
{
    let mut heads = [0u32; choice::BUCKETS];
    choice::link_copies(n, map, &mut heads);
    if let Some(again) = choice::first_repeat(image, g, n, map) {
        return Err(summary::refuse(
            refusal::REPEATED_SEQUENCE,
            again as u32,
            n,
            pebs,
            map,
            states,
        ));
    }
    if totals.vid.unused {
        return Err(summary::refuse(refusal::EMPTY_IMAGE, 0, n, pebs, map, states));
    }
    choice::mark_chosen(image, g, n, map, &heads, pebs);
    attach_chosen(image, g, n, totals, pebs, map, states)
}

// An image of n PEBs with lent tables that are long enough: refusals 5 to 8, and the rest.
fn attach_pebs(
    image: &[u8],
    g: Geometry,
    n: usize,
    pebs: &mut [u32],
    map: &mut [u32],
    states: &mut [u32],
) -> Result<Report, Refused>
    requires { Room g n image.now (lent pebs.old map.old states.old) }
    ensures { Ended (outcome g n image.now) result
        (lent pebs.old map.old states.old)
        (lent pebs.new map.new states.new) }
{
    match scan::pass(image, g, n, pebs, map) {
        Ok(totals) => attach_passed(image, g, n, totals, pebs, map, states),
        Err(r) => Err(summary::refuse(r.number, r.place, n, pebs, map, states)),
    }
}

// Are the lent tables long enough for n PEBs?
#[tactic(auto, unfolding(report::specs::Attach::room_rules))]
fn long_enough(n: usize, pebs: &[u32], map: &[u32], states: &[u32]) -> bool
    requires { n ≤ 4096 }
    ensures { result ≡ long_enough (lent pebs.now map.now states.now) n }
{
    n * PEB_WORDS <= pebs.len() && n * ENTRY_WORDS <= map.len() && STATE_WORDS <= states.len()
}

// An image of a known geometry: refusals 3 and 4, and the rest.
fn attach_image(
    image: &[u8],
    g: Geometry,
    pebs: &mut [u32],
    map: &mut [u32],
    states: &mut [u32],
) -> Result<Report, Refused>
    requires { Placed g }
    ensures { Ended
        (by_geometry image.now
        (long_enough (lent pebs.old map.old states.old)) (given g)) result
        (lent pebs.old map.old states.old)
        (lent pebs.new map.new states.new) }
{
    if !geometry::image_fits(image, g) {
        return Err(Refused::unplaced(refusal::BAD_IMAGE_SIZE));
    }
    let n = image.len() / g.peb_size as usize;
    if !long_enough(n, pebs, map, states) {
        return Err(Refused::unplaced(refusal::SHORT_BUFFER));
    }
    attach_pebs(image, g, n, pebs, map, states)
}

// The report of an image, or its refusal.
pub fn attach(
    slip: &[u8],
    image: &[u8],
    pebs: &mut [u32],
    map: &mut [u32],
    states: &mut [u32],
) -> Result<Report, Refused>
    ensures answer { attached_answer result
        ≡ answer_of (attaching_into (request slip.now) image.now
        (lent pebs.old map.old states.old)) }
    ensures tables { lent pebs.new map.new states.new
        ≡ tables_after
        (attaching_into (request slip.now) image.now
        (lent pebs.old map.old states.old))
        (lent pebs.old map.old states.old) }
{
    let g = geometry::read_slip(slip)?;
    attach_image(image, g, pebs, map, states)
}
