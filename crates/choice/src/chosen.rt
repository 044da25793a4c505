// The copy of a LEB that counts.
ghost use Rattle.std.specs.Prelude.{◌≡◌, ◌<◌, IfSome};
ghost use Rattle.std.proofs.Math.Option.{some};
ghost use Rattle.report.specs.View.{views_of, copies};
ghost use Rattle.report.specs.Choice.{chosen};
ghost use Rattle.copies.specs.InPlace.{copy_at};
ghost use Rattle.words.specs.Words.{volume_word, lnum_word};
ghost use Rattle.choice.specs.Keyed.{Keyed, Choosing, higher_of, Highest};
ghost use Rattle.choice.specs.Chain.{bucket_at, Nearest, Linked, Chained};

use crate::chain::{head, link};
use crate::repeat::same_leb;
use copies::header_field;
use geometry::Geometry;
use header::VID_SEQUENCE;

// The PEB of the chosen copy of the LEB that PEB i holds. The copies are met from the highest sequence down; the lowest
// needs no checksum, for it counts if no other does.
pub fn chosen_peb(
    image: &[u8],
    g: Geometry,
    n: usize,
    map: &[u32],
    heads: &[u32],
    i: usize,
) -> usize
    requires { (Choosing g image.now n map.now i) × Chained n n map.now heads.now }
    ensures { (chosen n (copies (views_of g image.now))
        (volume_word map.now i) (lnum_word map.now i) ≡ some (result, copy_at g image.now result))
        × (result < n) }
{
    let top = head(map, heads, i);
    // PEB i's own copy is one of them.
    let Some(mut at) = highest_up_to(image, g, n, map, i, top, u64::MAX) else {
        unreachable!()
    };
    // `loop`: each turn goes on from the copy before.
    loop {
        let s = header_field(image, g, at, VID_SEQUENCE);
        if s == 0 {
            return at;
        }
        let Some(next) = highest_up_to(image, g, n, map, i, top, s - 1) else {
            return at;
        };
        if copies::is_sound(image, g, at) {
            return at;
        }
        at = next;
    }
}

// Of the copies of PEB i's LEB with a sequence of at most `most`, the PEB of the highest, if there is one. The chain of
// its bucket starts at `top`.
fn highest_up_to(
    image: &[u8],
    g: Geometry,
    n: usize,
    map: &[u32],
    i: usize,
    top: usize,
    most: u64,
) -> Option<usize>
    requires { (Choosing g image.now n map.now i)
        × ((Linked n map.now) × Nearest map.now (bucket_at map.now i) n top) }
    ensures { Highest g image.now n map.now i most 0 result }
{
    let mut best = None;
    let mut above = n;
    let mut j = top;
    // `while`: the next PEB is read from the map.
    while j < above {
        best = higher(image, g, n, map, i, most, best, j);
        above = j;
        j = link(map, j);
    }
    best
}

// The better of `best`, if there is one, and PEB j.
fn higher(
    image: &[u8],
    g: Geometry,
    n: usize,
    map: &[u32],
    i: usize,
    most: u64,
    best: Option<usize>,
    j: usize,
) -> Option<usize>
    requires { (Keyed g image.now n map.now) × ((i < n) × ((j < n) × IfSome best (λ b. b < n))) }
    ensures { result ≡ higher_of g image.now map.now i most best j }
{
    if !same_leb(map, i, j) {
        return best;
    }
    let s = header_field(image, g, j, VID_SEQUENCE);
    if most < s {
        return best;
    }
    let Some(b) = best else {
        return Some(j);
    };
    if header_field(image, g, b, VID_SEQUENCE) < s {
        return Some(j);
    }
    best
}
