// The end of attaching: from the table taken on, the map, refusal 12, states and the report; or a refusal's tables.
#![tactic(auto)]

mod tables;

ghost use Rattle.std.specs.Prelude.{◌≡◌, ◌++◌, ◌*◌, ◌/◌, ◌≤◌, drop};
ghost use Rattle.words.specs.Words.{state_words_needed};
ghost use Rattle.report.specs.View.{medium_of};
ghost use Rattle.report.specs.Attach.{lent, state_words, report_of};
ghost use Rattle.summary.specs.Stage.{Ended, Past11, Past12, outcome};

use geometry::Geometry;
use report::{Refused, Report, refusal};
use scan::ScanTotals;
pub use tables::refuse;

// The mean of `count` counters; 0 where there is none.
fn mean(sum: u64, count: u32) -> u32
    requires { sum ≤ count * 0x7FFFFFFF }
    ensures { result ≡ sum / count }
{
    if count == 0 {
        return 0;
    }
    (sum / count as u64) as u32
}

// The report of an image whose map is made.
fn report_mapped(
    image: &[u8],
    g: Geometry,
    n: usize,
    totals: ScanTotals,
    table: &[u8],
    lnum: u32,
    mark: u32,
    entries: usize,
    pebs: &[u32],
    map: &[u32],
    states: &mut [u32],
) -> Report
    requires { Past12 g n image.now totals table.now lnum mark entries
        (lent pebs.now map.now states.old) }
    ensures answer { result ≡ report_of (medium_of g n image.now) }
    ensures states { states.new
        ≡ state_words (medium_of g n image.now) ++ drop state_words_needed states.old }
{
    volumes::fill_states(image, g, n, map, entries, table, states);
    let grade = grade::grade(pebs, states, n, mark);
    let ec = totals.ec;
    let vid = totals.vid;
    Report {
        geometry: g,
        peb_count: n as u32,
        entries: entries as u32,
        mean: mean(ec.counters, ec.good),
        highest: vid.highest,
        image_seq: ec.image_seq,
        read_only: vid.read_only,
        table: lnum,
        copies_mark: mark,
        grade,
    }
}

// The report, or refusal 12.
pub fn report_on(
    image: &[u8],
    g: Geometry,
    n: usize,
    totals: ScanTotals,
    table: &[u8],
    lnum: u32,
    mark: u32,
    pebs: &mut [u32],
    map: &mut [u32],
    states: &mut [u32],
) -> Result<Report, Refused>
    requires { Past11 g n image.now totals table.now lnum mark (lent pebs.old map.old states.old) }
    ensures { Ended (outcome g n image.now) result
        (lent pebs.old map.old states.old)
        (lent pebs.new map.new states.new) }
{
    let entries = mapping::make_map(table, n, pebs, map);
    if let Some(k) = volumes::first_misfit(image, g, n, map, entries, table) {
        let peb = words::peb_word(map, k);
        return Err(refuse(refusal::ENTRY_MISFIT, peb, n, pebs, map, states));
    }
    Ok(report_mapped(
        image, g, n, totals, table, lnum, mark, entries, pebs, map, states,
    ))
}
