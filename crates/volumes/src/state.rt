// The states of the volumes.
ghost use Rattle.std.specs.Prelude.{◌≡◌, ◌++◌, ◌≤◌, ◌<◌, length, drop};
ghost use Rattle.words.specs.Words.{state_words_needed};
ghost use Rattle.report.specs.View.{medium_of};
ghost use Rattle.report.specs.Report.{state_at};
ghost use Rattle.report.specs.Attach.{state_words};
ghost use Rattle.volumes.specs.Sorted.{asks_by, Entries, LacksLeb, NoMisfit};

use crate::RecordNumbers;
use crate::entries::{any_faulty, entries_of, first_of};
use crate::record::record_numbers;
use copies::header_field;
use geometry::Geometry;
use header::{STATIC, VID_USED_LEBS};
use report::state;
use volume_record::SKIP_CRC;
use words::{STATE_WORDS, peb_word};

// Are the data CRCs of a volume asked: is it static, with the skip flag clear?
fn asks_crc(r: RecordNumbers) -> bool
    ensures { result ≡ asks_by r }
{
    r.vol_type == STATIC && r.flags & SKIP_CRC != SKIP_CRC
}

// Is a LEB of the static volume missing? Its entries are distinct LEBs below used LEBs: one is where there are fewer.
fn lacks_leb(image: &[u8], g: Geometry, map: &[u32], count: usize, volume: u32) -> bool
    requires { Entries g image.now map.now count }
    ensures { LacksLeb g image.now map.now count volume result }
{
    let Some(first) = first_of(map, count, volume) else {
        return false;
    };
    let found = entries_of(map, count, volume) as u64;
    found < header_field(image, g, peb_word(map, first) as usize, VID_USED_LEBS)
}

// The state of the volume.
fn volume_state(
    image: &[u8],
    g: Geometry,
    n: usize,
    map: &[u32],
    count: usize,
    records: &[u8],
    volume: u32,
) -> u32
    requires { (NoMisfit g n image.now map.now records.now count) × (volume < 128) }
    ensures { result ≡ state_at (medium_of g n image.now) volume }
{
    let Some(r) = record_numbers(records, g.leb_size, volume as usize) else {
        return state::ABSENT;
    };
    if r.marker == 1 {
        return state::UPDATING;
    }
    if any_faulty(image, g, map, count, volume, asks_crc(r)) {
        return state::DAMAGED;
    }
    if r.vol_type == STATIC && lacks_leb(image, g, map, count, volume) {
        return state::DAMAGED;
    }
    state::GOOD
}

// The states of all volumes.
pub fn fill_states(
    image: &[u8],
    g: Geometry,
    n: usize,
    map: &[u32],
    count: usize,
    records: &[u8],
    states: &mut [u32],
)
    requires { (NoMisfit g n image.now map.now records.now count) × (state_words_needed ≤ length states.old) }
    ensures { states.new
        ≡ state_words (medium_of g n image.now) ++ drop state_words_needed states.old }
{
    for volume in 0..STATE_WORDS {
        states[volume] = volume_state(image, g, n, map, count, records, volume as u32);
    }
}
