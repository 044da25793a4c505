// The lent tables where an image is refused.
ghost use Rattle.std.specs.Prelude.{◌≤◌, length, Err};
ghost use Rattle.words.specs.Words.{most_pebs, peb_words_needed, map_words_needed, state_words_needed};
ghost use Rattle.report.specs.Attach.{late, lent};
ghost use Rattle.summary.specs.Stage.{Ended};

use report::Refused;
use words::{ENTRY_WORDS, PEB_WORDS, STATE_WORDS};

// A refusal 5 to 12: all needed words are filled.
pub fn refuse(
    number: u32,
    place: u32,
    n: usize,
    pebs: &mut [u32],
    map: &mut [u32],
    states: &mut [u32],
) -> Refused
    requires { (n ≤ most_pebs) × ((peb_words_needed n ≤ length pebs.old)
        × ((map_words_needed n ≤ length map.old) × (state_words_needed ≤ length states.old))) }
    ensures { Ended (late n (record { number = number; place = place })) (Err result)
        (lent pebs.old map.old states.old)
        (lent pebs.new map.new states.new) }
{
    words::fill_words(pebs, n * PEB_WORDS);
    words::fill_words(map, n * ENTRY_WORDS);
    words::fill_words(states, STATE_WORDS);
    Refused { number, place }
}
