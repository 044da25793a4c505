// Answers of attaching and moving as the test programs print them.
#![tactic(auto)]

use report::{Refused, Report};

mod moves;

pub use moves::{begun, plan_at, stepped};

// A report, or a refusal, and the end of the line.
pub fn answer(r: Result<Report, Refused>) {
    match r {
        Ok(report) => print_report(report),
        Err(e) => refusal(e.number, e.place),
    }
    frames::line_end();
}

// A refusal.
fn refusal(number: u32, place: u32) {
    frames::word(b"refused");
    frames::next_number(number as u64);
    frames::word(b" at");
    frames::next_number(place as u64);
}

// All words of the lent tables.
pub fn tables(pebs: &[u32], map: &[u32], states: &[u32]) {
    frames::words(b"pebs", pebs);
    frames::words(b"map", map);
    frames::words(b"states", states);
}

// The image's checksum, and the end of the line.
pub fn image(bytes: &[u8]) {
    frames::word(b"image");
    frames::next_number(crc32::crc32(bytes) as u64);
    frames::line_end();
}

fn print_report(r: Report) {
    frames::word(b"attached");
    frames::next_number(r.peb_count as u64);
    frames::word(b" entries");
    frames::next_number(r.entries as u64);
    frames::word(b" mean");
    frames::next_number(r.mean as u64);
    frames::word(b" highest");
    frames::next_number(r.highest);
    print_marks(r);
}

fn print_marks(r: Report) {
    frames::word(b" readonly");
    frames::next_number(u64::from(r.read_only));
    frames::word(b" table");
    frames::next_number(r.table as u64);
    frames::word(b" copies");
    frames::next_number(r.copies_mark as u64);
    frames::word(b" grade");
    frames::next_number(r.grade as u64);
}
