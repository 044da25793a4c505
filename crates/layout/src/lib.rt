// The two layout LEBs: where they are found once copies are chosen, and their contents.
#![tactic(auto)]

ghost use Rattle.std.specs.Prelude.{◌≡◌, ◌≤◌, length};
ghost use Rattle.words.specs.Words.{peb_words_needed, map_words_needed, HasPeb, HasEntry};
ghost use Rattle.header.specs.Vid.{layout_volume};
ghost use Rattle.report.specs.View.{medium_of};
ghost use Rattle.report.specs.Volumes.{layout_content};
ghost use Rattle.report.specs.Report.{faces};
ghost use Rattle.layout.specs.Layout.{is_chosen, Found, Chosen};

use geometry::Geometry;
use header::LAYOUT_VOLUME;
use report::class;
use words::{class_word, lnum_word, volume_word};

// Is PEB i chosen for the volume's LEB?
fn is_chosen(pebs: &[u32], map: &[u32], i: usize, volume: u32, lnum: u32) -> bool
    requires { (HasPeb pebs.now i) × (HasEntry map.now i) }
    ensures { result ≡ is_chosen pebs.now map.now volume lnum i }
{
    class_word(pebs, i) == class::CHOSEN
        && volume_word(map, i) == volume
        && lnum_word(map, i) == lnum
}

// The PEB that is chosen for the volume's LEB.
fn find_chosen(pebs: &[u32], map: &[u32], n: usize, volume: u32, lnum: u32) -> Option<usize>
    requires { (peb_words_needed n ≤ length pebs.now) × (map_words_needed n ≤ length map.now) }
    ensures { Found pebs.now map.now n volume lnum result }
{
    (0..n).find(|i| is_chosen(pebs, map, *i, volume, lnum))
}

// The content of a layout LEB: the data of its PEB; no bytes where it has none.
pub fn layout_content<'a>(
    image: &'a [u8],
    g: Geometry,
    n: usize,
    pebs: &[u32],
    map: &[u32],
    lnum: u32,
) -> &'a [u8]
    requires { Chosen g image.now n map.now pebs.now }
    ensures { result.now ≡ layout_content (faces (medium_of g n image.now) layout_volume lnum) }
{
    let Some(i) = find_chosen(pebs, map, n, LAYOUT_VOLUME, lnum) else {
        return &image[0..0];
    };
    let at = i * g.peb_size as usize;
    &image[at + g.data_start as usize..at + g.peb_size as usize]
}
