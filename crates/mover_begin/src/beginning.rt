// The beginning of a move: attaching, refusals 13 to 17, and the plan.
ghost use Rattle.std.specs.Prelude.{◌≡◌, ◌+◌, ◌^◌, ◌<◌};
ghost use Rattle.std.proofs.Math.Option.{some};
ghost use Rattle.report.specs.View.{copy_of, views_of, copies};
ghost use Rattle.report.specs.Attach.{request, attaching_into, lent, long_enough, tables_after};
ghost use Rattle.mover_rules.specs.Begin.{plan_for, plan_of, beginning, begun_answer};
ghost use Rattle.copies.specs.InPlace.{copy_at};
ghost use Rattle.mover_checks.specs.Reported.{ec_with};
ghost use Rattle.mover_copy.specs.Examined.{renewed_as};
ghost use Rattle.mover_begin.specs.Begins.{medium_in, Told, Begins, Moved, plan_with};

use header::VidHeader;
use mover_copy::Examined;
use mover_rules::Plan;
use report::{Refused, Report, refusal};

// No sequence comes after it.
const LAST_SEQUENCE: u64 = u64::MAX;

// A block with this counter is not erased again: a higher one would be read as lost.
const LAST_COUNTER: u32 = 0x7FFFFFFF;

// The bytes of a header.
const HEADER_SIZE: usize = 64;

// The plan, once nothing refuses the move.
fn make_plan(
    report: Report,
    old: u32,
    h: VidHeader,
    found: Examined,
    target: u32,
    counter: u32,
) -> Plan
    requires { report.highest + 1 < 2 ^ 64 }
    ensures { result ≡ plan_with report.geometry old target (renewed_as h found (report.highest + 1))
        (ec_with report.geometry counter report.image_seq) }
{
    let g = report.geometry;
    let vid = mover_copy::new_vid(h, found, report.highest);
    let ec = mover_checks::new_ec(g, counter, report.image_seq);
    Plan {
        peb_size: g.peb_size,
        unit: g.unit,
        sub_unit: g.sub_unit,
        old,
        target,
        vid,
        ec,
        steps: 0,
    }
}

// The copy with the header h, in PEB `old` with the bytes p: refusals 15 to 17, or its plan.
fn plan_copy(
    image: &[u8],
    p: &[u8],
    report: Report,
    pebs: &[u32],
    old: u32,
    h: VidHeader,
    target: u32,
) -> Result<Plan, Refused>
    requires { (Told image.now report pebs.now)
        × (Moved report.geometry image.now p.now report.peb_count old h) }
    ensures { begun_answer result ≡ plan_for (medium_in image.now report) target
        (some (old, copy_of report.geometry p.now h)) }
{
    let g = report.geometry;
    let found = mover_copy::examine(p, g, h);
    if found.damaged {
        return Err(Refused::unplaced(refusal::DAMAGED_COPY));
    }
    let n = report.peb_count as usize;
    if mover_checks::is_no_target(image, g, n, pebs, target) {
        return Err(Refused::unplaced(refusal::BAD_TARGET));
    }
    if report.highest == LAST_SEQUENCE {
        return Err(Refused::unplaced(refusal::NUMBERS_USED_UP));
    }
    let counter = mover_checks::old_counter(image, g, n, pebs, report.mean, old as usize);
    if counter == LAST_COUNTER {
        return Err(Refused::unplaced(refusal::NUMBERS_USED_UP));
    }
    Ok(make_plan(report, old, h, found, target, counter))
}

// The copy in PEB `old`, whose VID header is good: its fields are read where they stand.
fn plan_peb(
    image: &[u8],
    report: Report,
    pebs: &[u32],
    old: u32,
    target: u32,
) -> Result<Plan, Refused>
    requires { (Told image.now report pebs.now) × ((old < report.peb_count)
        × (copies (views_of report.geometry image.now) old ≡ some (copy_at report.geometry image.now old))) }
    ensures { begun_answer result ≡ plan_for (medium_in image.now report) target
        (some (old, copy_at report.geometry image.now old)) }
{
    let g = report.geometry;
    let size = g.peb_size as usize;
    let at = old as usize * size;
    let p = &image[at..at + size];
    let vid = g.vid_start as usize;
    let h = vid_header::vid_fields(&p[vid..vid + HEADER_SIZE]);
    plan_copy(image, p, report, pebs, old, h, target)
}

// An image that attached: refusals 13 and 14, and the rest.
fn plan_move(
    image: &[u8],
    report: Report,
    pebs: &[u32],
    map: &[u32],
    volume: u32,
    lnum: u32,
    target: u32,
) -> Result<Plan, Refused>
    requires { Begins image.now report pebs.now map.now }
    ensures { begun_answer result ≡ plan_of (medium_in image.now report) volume lnum target }
{
    if report.read_only {
        return Err(Refused::unplaced(refusal::NOT_WRITABLE));
    }
    let g = report.geometry;
    if mover_checks::any_to_delete(image, g, report.peb_count as usize, pebs) {
        return Err(Refused::unplaced(refusal::NOT_WRITABLE));
    }
    let Some(old) = lookup::find_leb(map, report.entries, volume, lnum) else {
        return Err(Refused::unplaced(refusal::LEB_NOT_MAPPED));
    };
    plan_peb(image, report, pebs, old, target)
}

// The plan of a move of a volume's LEB to the target PEB, or a refusal; the report is left in the lent tables.
pub fn begin(
    slip: &[u8],
    image: &[u8],
    pebs: &mut [u32],
    map: &mut [u32],
    states: &mut [u32],
    volume: u32,
    lnum: u32,
    target: u32,
) -> Result<Plan, Refused>
    ensures answer { begun_answer result ≡ beginning (request slip.now) image.now
        (long_enough (lent pebs.old map.old states.old)) volume lnum target }
    ensures tables { lent pebs.new map.new states.new
        ≡ tables_after
        (attaching_into (request slip.now) image.now
        (lent pebs.old map.old states.old))
        (lent pebs.old map.old states.old) }
{
    let report = attach::attach(slip, image, pebs, map, states)?;
    plan_move(image, report, pebs, map, volume, lnum, target)
}
