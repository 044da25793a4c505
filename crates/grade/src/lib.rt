// The grade, from the words of the report.
#![tactic(auto)]

ghost use Rattle.std.specs.Prelude.{◌≡◌, ◌&&◌, List, ℕ, ◌≤◌, eqb, length};
ghost use Rattle.base.specs.Below.{all_below};
ghost use Rattle.geometry.specs.declared.Geometry.{Geometry};
ghost use Rattle.words.specs.Words.{peb_words_needed, state_words_needed, HasPeb};
ghost use Rattle.report.specs.View.{medium_of};
ghost use Rattle.report.specs.Report.{grade_of};
ghost use Rattle.grade.specs.Words.{sound_peb, sound_state, Read};

use report::{class, state};
use words::{NO_WORD, STATE_WORDS, class_word, counter_word};

// Is the PEB readable, with its counter unless it is blank?
fn peb_sound(pebs: &[u32], i: usize) -> bool
    requires { HasPeb pebs.now i }
    ensures { result ≡ sound_peb pebs.now i }
{
    let peb_class = class_word(pebs, i);
    peb_class != class::UNREADABLE
        && (peb_class == class::BLANK || counter_word(pebs, i) != NO_WORD)
}

// Are all n PEBs sound? One that is not decides it.
fn pebs_sound(pebs: &[u32], n: usize) -> bool
    requires { peb_words_needed n ≤ length pebs.now }
    ensures { result ≡ all_below n (sound_peb pebs.now) }
{
    (0..n).all(|i| peb_sound(pebs, i))
}

// Is no volume state 2 or 3? One that is decides it.
fn states_sound(states: &[u32]) -> bool
    requires { state_words_needed ≤ length states.now }
    ensures { result ≡ all_below state_words_needed (sound_state states.now) }
{
    states[..STATE_WORDS]
        .iter()
        .all(|s| *s != state::UPDATING && *s != state::DAMAGED)
}

// Is nothing in the report amiss?
fn is_sound(pebs: &[u32], states: &[u32], n: usize, mark: u32) -> bool
    requires { (peb_words_needed n ≤ length pebs.now) × (state_words_needed ≤ length states.now) }
    ensures { result
        ≡ (eqb mark 0 && (all_below n (sound_peb pebs.now) && all_below state_words_needed (sound_state states.now))) }
{
    mark == 0 && pebs_sound(pebs, n) && states_sound(states)
}

// The grade: 0 if nothing in the report is amiss, else 1.
pub fn grade(pebs: &[u32], states: &[u32], n: usize, mark: u32) -> u32
    requires { (peb_words_needed n ≤ length pebs.now) × (state_words_needed ≤ length states.now) }
    ensures { (g : Geometry) (image : List ℕ)
        → Read (medium_of g n image) pebs.now states.now mark
        → result ≡ grade_of (medium_of g n image) }
{
    if is_sound(pebs, states, n, mark) {
        return 0;
    }
    1
}
