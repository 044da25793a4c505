// The copies that count are marked in the class words. A LEB's copy is chosen once, at the lowest PEB that has the LEB.
ghost use Rattle.std.specs.Prelude.{◌≡◌, ◌++◌, ◌+◌, ◌<◌, drop};
ghost use Rattle.words.specs.Words.{peb_words_needed};
ghost use Rattle.report.specs.View.{medium_of, views_of};
ghost use Rattle.report.specs.Report.{places};
ghost use Rattle.report.specs.Scratch.{marked_words};
ghost use Rattle.choice.specs.Marking.{Linking, MarkedTo};

use crate::chain::has_lower_copy;
use crate::chosen::chosen_peb;
use geometry::Geometry;
use report::class;
use words::{NO_WORD, set_class, volume_word};

// The copy chosen for the LEB of PEB i gets class 1, if no lower PEB has that LEB. Until then all copies have class 2.
fn choose_peb(
    image: &[u8],
    g: Geometry,
    n: usize,
    map: &[u32],
    heads: &[u32],
    pebs: &mut [u32],
    i: usize,
)
    requires { (i < n) × ((Linking g image.now n map.now heads.now)
        × MarkedTo (medium_of g n image.now) map.now pebs.old i) }
    ensures { (MarkedTo (medium_of g n image.now) map.now pebs.new (i + 1))
        × (drop (peb_words_needed n) pebs.new ≡ drop (peb_words_needed n) pebs.old) }
{
    if volume_word(map, i) == NO_WORD {
        return;
    }
    if has_lower_copy(map, n, i) {
        return;
    }
    let peb = chosen_peb(image, g, n, map, heads, i);
    set_class(pebs, peb, class::CHOSEN);
}

// Each copy's class: chosen or passed over.
pub fn mark_chosen(
    image: &[u8],
    g: Geometry,
    n: usize,
    map: &[u32],
    heads: &[u32],
    pebs: &mut [u32],
)
    requires { (Linking g image.now n map.now heads.now)
        × MarkedTo (medium_of g n image.now) map.now pebs.old 0 }
    ensures { pebs.new
        ≡ marked_words (places (medium_of g n image.now)) n (views_of g image.now)
        ++ drop (peb_words_needed n) pebs.old }
{
    for i in 0..n {
        choose_peb(image, g, n, map, heads, pebs, i);
    }
}
