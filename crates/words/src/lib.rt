// The words of the lent tables: two for each PEB, three for each entry of the map, one for each volume's state.
#![tactic(auto)]

ghost use Rattle.std.specs.Prelude.{◌≡◌, [], ◌∷◌, ◌++◌, ◌*◌, ◌+◌, ◌≤◌, length, drop, replicate, set};
ghost use Rattle.base.specs.Lists.{put};
ghost use Rattle.words.specs.Words.{no_word, peb_stride, entry_stride, HasPeb, HasEntry, class_word, counter_word, volume_word, lnum_word, peb_word};

// An unused word, and the counter of an EC header that is lost.
pub const NO_WORD: u32 = 0xFFFFFFFF;

// The words of a PEB, and of an entry of the map.
pub const PEB_WORDS: usize = 2;

pub const ENTRY_WORDS: usize = 3;

// The words of all volume states: one for each user volume.
pub const STATE_WORDS: usize = 128;

// The class of PEB i.
pub fn class_word(pebs: &[u32], i: usize) -> u32
    requires { HasPeb pebs.now i }
    ensures { result ≡ class_word pebs.now i }
{
    pebs[i * PEB_WORDS]
}

// The counter of PEB i.
pub fn counter_word(pebs: &[u32], i: usize) -> u32
    requires { HasPeb pebs.now i }
    ensures { result ≡ counter_word pebs.now i }
{
    pebs[i * PEB_WORDS + 1]
}

// The volume of entry k.
pub fn volume_word(map: &[u32], k: usize) -> u32
    requires { HasEntry map.now k }
    ensures { result ≡ volume_word map.now k }
{
    map[k * ENTRY_WORDS]
}

// The LEB of entry k.
pub fn lnum_word(map: &[u32], k: usize) -> u32
    requires { HasEntry map.now k }
    ensures { result ≡ lnum_word map.now k }
{
    map[k * ENTRY_WORDS + 1]
}

// The PEB of entry k.
pub fn peb_word(map: &[u32], k: usize) -> u32
    requires { HasEntry map.now k }
    ensures { result ≡ peb_word map.now k }
{
    map[k * ENTRY_WORDS + 2]
}

// The class of PEB i is set; the other words stay.
pub fn set_class(pebs: &mut [u32], i: usize, class: u32)
    requires { HasPeb pebs.old i }
    ensures { pebs.new ≡ set pebs.old (i * peb_stride) class }
{
    pebs[i * PEB_WORDS] = class;
}

// The PEB of entry k is set; the other words stay.
pub fn set_peb(map: &mut [u32], k: usize, peb: u32)
    requires { HasEntry map.old k }
    ensures { map.new ≡ set map.old (k * entry_stride + 2) peb }
{
    map[k * ENTRY_WORDS + 2] = peb;
}

// The words of PEB i are stored; the others stay.
pub fn store_peb(pebs: &mut [u32], i: usize, class: u32, counter: u32)
    requires { HasPeb pebs.old i }
    ensures { pebs.new ≡ put (i * peb_stride) (class ∷ counter ∷ []) pebs.old }
{
    pebs[i * PEB_WORDS] = class;
    pebs[i * PEB_WORDS + 1] = counter;
}

// The words of entry k are stored; the others stay.
pub fn store_entry(map: &mut [u32], k: usize, volume: u32, lnum: u32, peb: u32)
    requires { HasEntry map.old k }
    ensures { map.new ≡ put (k * entry_stride) (volume ∷ lnum ∷ peb ∷ []) map.old }
{
    map[k * ENTRY_WORDS] = volume;
    map[k * ENTRY_WORDS + 1] = lnum;
    map[k * ENTRY_WORDS + 2] = peb;
}

// The first n words are set to 0xFFFFFFFF; the others stay.
pub fn fill_words(words: &mut [u32], n: usize)
    requires { n ≤ length words.old }
    ensures { words.new ≡ replicate n no_word ++ drop n words.old }
{
    words[..n].fill(NO_WORD);
}
