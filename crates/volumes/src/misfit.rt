// Refusal 12: entries that differ from their volume's record or first entry.
ghost use Rattle.std.specs.Prelude.{◌≡◌, ◌<◌, IfSome};
ghost use Rattle.report.specs.View.{medium_of};
ghost use Rattle.copies.specs.InPlace.{header_at, HasCopy};
ghost use Rattle.volumes.specs.Sorted.{Entries, misfit_by, misfit_entry, FirstMisfit, VolumeMisfit, misfit_refusal, table_refusal, SortedMap};

use crate::RecordNumbers;
use crate::entries::first_of;
use crate::record::record_numbers;
use copies::header_field;
use geometry::Geometry;
use header::{STATIC, VID_DATA_PAD, VID_TYPE, VID_USED_LEBS};
use words::{peb_word, volume_word};

// Does refusal 12 name PEB i's copy, where its volume's first entry has these used LEBs?
#[tactic(auto, unfolding(crate::specs::Sorted::misfit_by))]
fn misfits(image: &[u8], g: Geometry, i: usize, r: RecordNumbers, used: u64) -> bool
    requires { HasCopy g image.now i }
    ensures { result ≡ misfit_by r used (header_at g image.now i) }
{
    let kind = header_field(image, g, i, VID_TYPE);
    if kind != r.vol_type as u64 || header_field(image, g, i, VID_DATA_PAD) != r.data_pad as u64 {
        return true;
    }
    if kind != STATIC as u64 {
        return false;
    }
    let own = header_field(image, g, i, VID_USED_LEBS);
    own != used || (r.reserved as u64) < own
}

// Is entry k one of the volume, and named by refusal 12?
fn misfit_at(
    image: &[u8],
    g: Geometry,
    map: &[u32],
    count: usize,
    volume: u32,
    r: RecordNumbers,
    first: usize,
    k: usize,
) -> bool
    requires { (Entries g image.now map.now count) × ((first < count) × (k < count)) }
    ensures { result ≡ misfit_entry g image.now map.now volume r first k }
{
    if volume_word(map, k) != volume {
        return false;
    }
    let used = header_field(image, g, peb_word(map, first) as usize, VID_USED_LEBS);
    misfits(image, g, peb_word(map, k) as usize, r, used)
}

// The first entry of the volume that refusal 12 names, if there is one.
fn misfit_in(
    image: &[u8],
    g: Geometry,
    map: &[u32],
    count: usize,
    volume: u32,
    r: RecordNumbers,
) -> Option<usize>
    requires { Entries g image.now map.now count }
    ensures { FirstMisfit g image.now map.now count volume r result }
{
    let first = first_of(map, count, volume)?;
    (first..count).find(|k| misfit_at(image, g, map, count, volume, r, first, *k))
}

// The same, with the record read; a volume without one has no entry.
fn misfit_of(
    image: &[u8],
    g: Geometry,
    n: usize,
    map: &[u32],
    count: usize,
    records: &[u8],
    volume: u32,
) -> Option<usize>
    requires { (SortedMap g n image.now map.now records.now count) × (volume < 128) }
    ensures { VolumeMisfit (medium_of g n image.now) map.now count volume result }
{
    let r = record_numbers(records, g.leb_size, volume as usize)?;
    misfit_in(image, g, map, count, volume, r)
}

// The first entry of the map that refusal 12 names, if there is one.
pub fn first_misfit(
    image: &[u8],
    g: Geometry,
    n: usize,
    map: &[u32],
    count: usize,
    records: &[u8],
) -> Option<usize>
    requires { SortedMap g n image.now map.now records.now count }
    ensures { (misfit_refusal map.now result ≡ table_refusal (medium_of g n image.now))
        × IfSome result (λ k. k < count) }
{
    for volume in 0..128 {
        if let Some(k) = misfit_of(image, g, n, map, count, records, volume) {
            return Some(k);
        }
    }
    None
}
