// The lines of a listing.
ghost use Rattle.std.specs.Prelude.{◌+◌, ◌*◌, ◌≤◌, length};
ghost use Rattle.listing_text.specs.Text.{numbers_part, marks_part, attached_line, counter_text, peb_line, map_line};
ghost use Rattle.listing_text.specs.Text.{vol_line, peb_lines, map_lines, vol_lines, refused_text};
ghost use Rattle.listing_text.specs.Written.{Written};

use crate::write::{append, labelled, pair};
use report::Report;
use report::state::ABSENT;
use words::{ENTRY_WORDS, NO_WORD, PEB_WORDS};

// The report's numbers: the first four.
fn numbers_part(out: &mut [u8], r: Report) -> usize
    ensures text { Written out.old 0 (numbers_part r) result out.new }
    ensures end { result ≤ 256 }
{
    let a = pair(
        out,
        0,
        b"attached ",
        r.peb_count as u64,
        b" entries ",
        r.entries as u64,
    );
    pair(out, a, b" mean ", r.mean as u64, b" highest ", r.highest)
}

// The other four.
fn marks_part(out: &mut [u8], at: usize, r: Report) -> usize
    requires { at ≤ 256 }
    ensures text { Written out.old at (marks_part r) result out.new }
    ensures end { result ≤ 512 }
{
    let a = pair(
        out,
        at,
        b" readonly ",
        u64::from(r.read_only),
        b" table ",
        r.table as u64,
    );
    let b = pair(
        out,
        a,
        b" copies ",
        r.copies_mark as u64,
        b" grade ",
        r.grade as u64,
    );
    append(out, b, b"\n")
}

// The report's numbers.
pub fn attached_line(out: &mut [u8], r: Report) -> usize
    ensures text { Written out.old 0 (attached_line r) result out.new }
    ensures end { result ≤ 512 }
{
    let a = numbers_part(out, r);
    marks_part(out, a, r)
}

// A blank, and a counter or the word for a lost one.
#[tactic(auto, unfolding(crate::specs::Text::counter_text, crate::specs::Text::labelled))]
fn counter_text(out: &mut [u8], at: usize, counter: u32) -> usize
    requires { at ≤ 0x1FFFFFFFFFFF }
    ensures text { Written out.old at (counter_text counter) result out.new }
    ensures end { result ≤ at + 36 }
{
    if counter == NO_WORD {
        append(out, at, b" lost")
    } else {
        labelled(out, at, b" ", counter as u64)
    }
}

fn peb_line(out: &mut [u8], at: usize, peb: u32, class: u32, counter: u32) -> usize
    requires { at ≤ 0xFFFFFFFFFFF }
    ensures text { Written out.old at (peb_line peb class counter) result out.new }
    ensures end { result ≤ at + 128 }
{
    let a = pair(out, at, b"peb ", peb as u64, b" ", class as u64);
    let b = counter_text(out, a, counter);
    append(out, b, b"\n")
}

fn map_line(out: &mut [u8], at: usize, volume: u32, lnum: u32, peb: u32) -> usize
    requires { at ≤ 0xFFFFFFFFFFF }
    ensures text { Written out.old at (map_line volume lnum peb) result out.new }
    ensures end { result ≤ at + 128 }
{
    let a = pair(out, at, b"map ", volume as u64, b" ", lnum as u64);
    let b = labelled(out, a, b" ", peb as u64);
    append(out, b, b"\n")
}

fn vol_line(out: &mut [u8], at: usize, volume: u32, state: u32) -> usize
    requires { at ≤ 0xFFFFFFFFFFF }
    ensures text { Written out.old at (vol_line volume state) result out.new }
    ensures end { result ≤ at + 128 }
{
    if state == ABSENT {
        return at;
    }
    let a = pair(out, at, b"vol ", volume as u64, b" ", state as u64);
    append(out, a, b"\n")
}

// A line for each of the n PEBs.
pub fn peb_lines(out: &mut [u8], at: usize, n: u32, pebs: &[u32]) -> usize
    requires { (at ≤ 0xFFF) × (n * 2 ≤ length pebs.now) }
    ensures text { Written out.old at (peb_lines n pebs.now) result out.new }
    ensures end { result ≤ at + n * 128 }
{
    let mut end = at;
    for i in 0..n {
        let k = i as usize * PEB_WORDS;
        end = peb_line(out, end, i, pebs[k], pebs[k + 1]);
    }
    end
}

// A line for each of the map's first entries.
pub fn map_lines(out: &mut [u8], at: usize, entries: u32, map: &[u32]) -> usize
    requires { (at ≤ 0xFFFFFFFFFF) × (entries * 3 ≤ length map.now) }
    ensures text { Written out.old at (map_lines entries map.now) result out.new }
    ensures end { result ≤ at + entries * 128 }
{
    let mut end = at;
    for i in 0..entries {
        let k = i as usize * ENTRY_WORDS;
        end = map_line(out, end, map[k], map[k + 1], map[k + 2]);
    }
    end
}

// A line for each volume whose state is not 0.
pub fn vol_lines(out: &mut [u8], at: usize, states: &[u32]) -> usize
    requires { (at ≤ 0x1FFFFFFFFFF) × (128 ≤ length states.now) }
    ensures { Written out.old at (vol_lines 128 states.now) result out.new }
{
    let mut end = at;
    for v in 0..128 {
        end = vol_line(out, end, v, states[v as usize]);
    }
    end
}

// The one line of a refusal.
pub fn refused_line(out: &mut [u8], refusal: u32, place: u32) -> usize
    ensures { Written out.old 0 (refused_text refusal place) result out.new }
{
    let a = pair(out, 0, b"refused ", refusal as u64, b" at ", place as u64);
    append(out, a, b"\n")
}
