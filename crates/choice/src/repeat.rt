// Refusal 9: two copies of one user or layout LEB that share a sequence.
ghost use Rattle.std.specs.Prelude.{◌≡◌, ◌<◌, IfSome};
ghost use Rattle.words.specs.Words.{HasEntry};
ghost use Rattle.report.specs.View.{views_of, copies};
ghost use Rattle.report.specs.Choice.{refusal9};
ghost use Rattle.choice.specs.Keyed.{Keyed, Within, same_leb, repeats_at, repeat_at};
ghost use Rattle.choice.specs.Chain.{Linked};

use crate::chain::link;
use copies::header_field;
use geometry::Geometry;
use header::VID_SEQUENCE;
use words::{NO_WORD, lnum_word, volume_word};

// The lowest PEB that repeats the volume, LEB and sequence of a lower one, if there is one. Only the lower PEBs of its
// bucket can have its LEB.
pub fn first_repeat(image: &[u8], g: Geometry, n: usize, map: &[u32]) -> Option<usize>
    requires { (Keyed g image.now n map.now) × (Linked n map.now) }
    ensures { (repeat_at result ≡ refusal9 n (copies (views_of g image.now))) × IfSome result (λ i. i < n) }
{
    let mut found = None;
    'pebs: for i in 0..n {
        let mut above = i;
        let mut j = link(map, i);
        // `while`: the next PEB is read from the map.
        while j < above {
            if is_repeat(image, g, map, i, j) {
                found = Some(i);
                break 'pebs;
            }
            above = j;
            j = link(map, j);
        }
    }
    found
}

// Does PEB i, which holds a user or layout LEB, repeat PEB j? The image is read only where volume and LEB agree.
fn is_repeat(image: &[u8], g: Geometry, map: &[u32], i: usize, j: usize) -> bool
    requires { (Within g image.now map.now i) × (Within g image.now map.now j) }
    ensures { result ≡ repeats_at g image.now map.now i j }
{
    volume_word(map, i) != NO_WORD
        && same_leb(map, i, j)
        && header_field(image, g, i, VID_SEQUENCE) == header_field(image, g, j, VID_SEQUENCE)
}

// Do the words of two PEBs name one volume and LEB?
pub fn same_leb(map: &[u32], i: usize, j: usize) -> bool
    requires { (HasEntry map.now i) × (HasEntry map.now j) }
    ensures { result ≡ same_leb map.now i j }
{
    lnum_word(map, i) == lnum_word(map, j) && volume_word(map, i) == volume_word(map, j)
}
