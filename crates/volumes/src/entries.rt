// Passes over the words of the sorted map.
ghost use Rattle.std.specs.Prelude.{◌≡◌, ◌≤◌, ◌<◌, length};
ghost use Rattle.base.specs.Below.{any_below, count_below};
ghost use Rattle.words.specs.Words.{map_words_needed};
ghost use Rattle.copies.specs.InPlace.{face_at, HasCopy};
ghost use Rattle.volumes.specs.Sorted.{faulty_by, Entries, is_of, fault_at, FirstBelow};

use copies::{header_field, is_sound, matches};
use geometry::Geometry;
use header::{STATIC, VID_TYPE};
use words::{peb_word, volume_word};

// Is PEB i's copy at fault: unsound, or static with a wrong data CRC where those are asked? Computes at most one CRC.
#[tactic(auto, unfolding(report::specs::Volumes::face_of, report::specs::View::copy_of))]
fn entry_faulty(image: &[u8], g: Geometry, i: usize, asks: bool) -> bool
    requires { HasCopy g image.now i }
    ensures { result ≡ faulty_by asks (face_at g image.now i) }
{
    if asks && header_field(image, g, i, VID_TYPE) == STATIC as u64 {
        return !matches(image, g, i);
    }
    !is_sound(image, g, i)
}

// Is entry k one of the volume, and at fault?
fn fault_at(
    image: &[u8],
    g: Geometry,
    map: &[u32],
    count: usize,
    volume: u32,
    asks: bool,
    k: usize,
) -> bool
    requires { (Entries g image.now map.now count) × (k < count) }
    ensures { result ≡ fault_at g image.now map.now volume asks k }
{
    volume_word(map, k) == volume && entry_faulty(image, g, peb_word(map, k) as usize, asks)
}

// Is any entry of the volume at fault?
pub fn any_faulty(
    image: &[u8],
    g: Geometry,
    map: &[u32],
    count: usize,
    volume: u32,
    asks: bool,
) -> bool
    requires { Entries g image.now map.now count }
    ensures { result ≡ any_below count (fault_at g image.now map.now volume asks) }
{
    (0..count).any(|k| fault_at(image, g, map, count, volume, asks, k))
}

// The number of the volume's first entry, if it has one.
pub fn first_of(map: &[u32], count: usize, volume: u32) -> Option<usize>
    requires { map_words_needed count ≤ length map.now }
    ensures { FirstBelow count (is_of map.now volume) result }
{
    for k in 0..count {
        if volume_word(map, k) == volume {
            return Some(k);
        }
    }
    None
}

// How many entries the volume has.
pub fn entries_of(map: &[u32], count: usize, volume: u32) -> usize
    requires { map_words_needed count ≤ length map.now }
    ensures { result ≡ count_below count (is_of map.now volume) }
{
    let mut found: usize = 0;
    for k in 0..count {
        found += usize::from(volume_word(map, k) == volume);
    }
    found
}
