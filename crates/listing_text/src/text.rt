// A report, or a refusal, as text in a lent buffer.
ghost use Rattle.std.specs.Prelude.{◌≡◌, true, ◌*◌, ◌≤◌, length};
ghost use Rattle.base.specs.Answers.{given};
ghost use Rattle.report.specs.Attach.{attached_answer, lent};
ghost use Rattle.listing_text.specs.Text.{text_of, report_text};
ghost use Rattle.listing_text.specs.Render.{tables_hold, rendering, out_after, rendered_answer, within};
ghost use Rattle.listing_text.specs.Written.{Written};

use crate::{TooShort, lines};
use report::{Refused, Report};
use words::{ENTRY_WORDS, PEB_WORDS, STATE_WORDS};

// Are the words of the listing's lines there?
fn tables_hold(a: Result<Report, Refused>, pebs: &[u32], map: &[u32], states: &[u32]) -> bool
    ensures { result ≡ tables_hold (attached_answer a)
        (lent pebs.now map.now states.now) }
{
    match a {
        Ok(r) => report_held(r, pebs, map, states),
        Err(_) => true,
    }
}

fn report_held(r: Report, pebs: &[u32], map: &[u32], states: &[u32]) -> bool
    ensures { result ≡ tables_hold (given r)
        (lent pebs.now map.now states.now) }
{
    r.peb_count as usize * PEB_WORDS <= pebs.len()
        && r.entries as usize * ENTRY_WORDS <= map.len()
        && STATE_WORDS <= states.len()
}

// The text of a report, as far as it fits; its length.
fn write_report(out: &mut [u8], r: Report, pebs: &[u32], map: &[u32], states: &[u32]) -> usize
    requires { (r.peb_count * 2 ≤ length pebs.now)
        × ((r.entries * 3 ≤ length map.now) × (128 ≤ length states.now)) }
    ensures { Written out.old 0
        (report_text r (lent pebs.now map.now states.now)) result out.new }
{
    let a = lines::attached_line(out, r);
    let b = lines::peb_lines(out, a, r.peb_count, pebs);
    let c = lines::map_lines(out, b, r.entries, map);
    lines::vol_lines(out, c, states)
}

// The text of an answer, as far as it fits; its length.
fn write_text(
    out: &mut [u8],
    a: Result<Report, Refused>,
    pebs: &[u32],
    map: &[u32],
    states: &[u32],
) -> usize
    requires { tables_hold (attached_answer a) (lent pebs.now map.now states.now) ≡ true }
    ensures { Written out.old 0
        (text_of (attached_answer a) (lent pebs.now map.now states.now)) result
        out.new }
{
    match a {
        Ok(r) => write_report(out, r, pebs, map, states),
        Err(e) => lines::refused_line(out, e.number, e.place),
    }
}

// The text of an answer with its tables, at the start of the buffer. Its length is counted first, so that a buffer
// which is too short stays as it is.
pub fn render(
    a: Result<Report, Refused>,
    pebs: &[u32],
    map: &[u32],
    states: &[u32],
    out: &mut [u8],
) -> Result<usize, TooShort>
    ensures answer { rendered_answer result ≡ rendering (attached_answer a)
        (lent pebs.now map.now states.now) out.old }
    ensures out { out.new ≡ out_after (attached_answer a)
        (lent pebs.now map.now states.now) out.old }
    ensures room { within result out.new }
{
    if !tables_hold(a, pebs, map, states) {
        return Err(TooShort);
    }
    let mut none = [0u8; 1];
    let len = write_text(&mut none, a, pebs, map, states);
    if out.len() < len {
        return Err(TooShort);
    }
    Ok(write_text(out, a, pebs, map, states))
}
