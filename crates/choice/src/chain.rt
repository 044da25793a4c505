// The copies of a LEB are found along chains. While copies are compared, the third word of a PEB links it to the next
// lower PEB of its bucket, and a head for each bucket starts its chain. A chain ends at a word that is not below the
// PEB before it.
ghost use Rattle.std.specs.Prelude.{◌≡◌, ◌+◌, ◌≤◌, ◌<◌, length, get_or};
ghost use Rattle.base.specs.Below.{any_below};
ghost use Rattle.words.specs.Words.{most_pebs, map_words_needed, HasEntry, peb_word};
ghost use Rattle.choice.specs.Keyed.{Holds, same_leb};
ghost use Rattle.choice.specs.Chain.{buckets, bucket_of, bucket_at, Linked, Chained, Chains};

use crate::repeat::same_leb;
use words::{NO_WORD, lnum_word, peb_word, set_peb, volume_word};

pub const BUCKETS: usize = 2048;

// The bucket of a volume's LEB.
fn bucket(volume: u32, lnum: u32) -> usize
    ensures { result ≡ bucket_of volume lnum }
{
    (volume % 4 * 512 + lnum % 512) as usize
}

// The highest PEB in the bucket of PEB i, which holds a user or layout LEB.
pub fn head(map: &[u32], heads: &[u32], i: usize) -> usize
    requires { (HasEntry map.now i) × ((buckets ≤ length heads.now) × (Holds map.now i)) }
    ensures { result ≡ get_or heads.now (bucket_at map.now i) 0 }
{
    let at = bucket(volume_word(map, i), lnum_word(map, i));
    heads[at] as usize
}

// The next lower PEB in the bucket of PEB i.
pub fn link(map: &[u32], i: usize) -> usize
    requires { HasEntry map.now i }
    ensures { result ≡ peb_word map.now i }
{
    peb_word(map, i) as usize
}

// PEB i becomes the head of its bucket, linked to the head before it.
fn link_peb(map: &mut [u32], heads: &mut [u32], n: usize, i: usize)
    requires { (i < n) × Chained n i map.old heads.old }
    ensures { Chains n (i + 1) map.old map.new heads.old heads.new }
{
    let volume = volume_word(map, i);
    if volume == NO_WORD {
        return;
    }
    let b = bucket(volume, lnum_word(map, i));
    set_peb(map, i, heads[b]);
    heads[b] = i as u32;
}

// All copies are linked, whatever the buckets' heads were before.
pub fn link_copies(n: usize, map: &mut [u32], heads: &mut [u32])
    requires { (n ≤ most_pebs) × ((map_words_needed n ≤ length map.old) × (buckets ≤ length heads.old)) }
    ensures { Chains n n map.old map.new heads.old heads.new }
{
    heads[..BUCKETS].fill(NO_WORD);
    for i in 0..n {
        link_peb(map, heads, n, i);
    }
}

// Has a PEB below i, which holds a user or layout LEB, the same LEB?
pub fn has_lower_copy(map: &[u32], n: usize, i: usize) -> bool
    requires { (i < n) × ((map_words_needed n ≤ length map.now)
        × ((Linked n map.now) × (Holds map.now i))) }
    ensures { result ≡ any_below i (same_leb map.now i) }
{
    let mut above = i;
    let mut j = link(map, i);
    // `while`: the next PEB is read from the map.
    while j < above {
        if same_leb(map, i, j) {
            return true;
        }
        above = j;
        j = link(map, j);
    }
    false
}
