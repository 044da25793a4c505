// Reading a report's tables: what they say of one PEB, and where a LEB is.
#![tactic(auto)]

ghost use Rattle.std.specs.Prelude.{◌≡◌};
ghost use Rattle.words.specs.Words.{HasEntry};
ghost use Rattle.lookup.specs.Lookup.{peb_answer, peb_in, is_entry, place_answer, place_in};

use words::{ENTRY_WORDS, PEB_WORDS, class_word, counter_word, lnum_word, peb_word, volume_word};

// A PEB's class and erase counter (0xFFFFFFFF if it is lost).
#[derive(Clone, Copy)]
pub struct PebReport {
    pub class: u32,
    pub counter: u32,
}

// What the report says of a PEB; nothing where the PEB is not below the report's PEB count, or its words are not there.
#[tactic(auto, unfolding(crate::specs::Lookup::peb_in))]
pub fn peb_report(pebs: &[u32], peb_count: u32, peb: u32) -> Option<PebReport>
    ensures { peb_answer result ≡ peb_in pebs.now peb_count peb }
{
    if peb_count <= peb {
        return None;
    }
    let i = peb as usize;
    if pebs.len() < i * PEB_WORDS + PEB_WORDS {
        return None;
    }
    Some(PebReport {
        class: class_word(pebs, i),
        counter: counter_word(pebs, i),
    })
}

// Is entry k that of the volume's LEB?
fn is_entry(map: &[u32], k: usize, volume: u32, lnum: u32) -> bool
    requires { HasEntry map.now k }
    ensures { result ≡ is_entry map.now volume lnum k }
{
    volume_word(map, k) == volume && lnum_word(map, k) == lnum
}

// The PEB of a volume's LEB by the map's entries; none where it has no entry, or the map has fewer words than so many
// entries.
#[tactic(auto, unfolding(crate::specs::Lookup::place_in))]
pub fn find_leb(map: &[u32], entries: u32, volume: u32, lnum: u32) -> Option<u32>
    ensures { place_answer result ≡ place_in map.now entries volume lnum }
{
    let count = entries as usize;
    if map.len() < count * ENTRY_WORDS {
        return None;
    }
    for k in 0..count {
        if is_entry(map, k, volume, lnum) {
            return Some(peb_word(map, k));
        }
    }
    None
}
