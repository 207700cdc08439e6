// The passes over words that collapse their loops in place, unchecked (loops.rs).
ghost use Rattle.std.specs.Prelude.{◌≤◌, ◌<◌, ◌≡◌, length};
ghost use Rattle.base.specs.Parts.{first_words};
ghost use Rattle.base.specs.WordListsMut.{words_of, SameLists};
ghost use Rattle.loops.specs.Parts.{pass_words, loop_words};

use super::copy::MIN_COPIES;
use base::word_lists_mut::WordListsMut;

// Runs of 1 to so many words are looked for.
const MAX_RUN: usize = 4;

// Collapses the loops of n words, of the first `len`, and counts what is left.
fn collapse_runs(w: &mut WordListsMut<'_>, len: usize, n: usize) -> usize
    requires { (0 < n) × ((n ≤ len) × (len ≤ length w.old.keys.now)) }
    ensures same { SameLists w.old w.new }
    ensures as_many { length w.new.keys.now ≡ length w.old.keys.now }
    ensures passed { first_words result (words_of w.new) ≡ pass_words n (first_words len (words_of w.old)) }
    ensures fewer { result ≤ len }
{
    // The lists, taken out of the struct once for all turns.
    let starts = &mut *w.starts;
    let ends = &mut *w.ends;
    let letters = &mut *w.letters;
    let units = &mut *w.units;
    let keys = &mut *w.keys;
    // Each turn goes on where the call found the next word to stay: no count.
    let mut i = 0;
    let mut rest = super::copy::past_loop(keys, len, n, 0, n);
    while rest < len {
        let mut lists = WordListsMut {
            starts,
            ends,
            letters,
            units,
            keys,
        };
        super::copy::move_word(&mut lists, i + n, rest);
        i += 1;
        rest = super::copy::past_loop(keys, len, n, i, rest + 1);
    }
    i + n
}

// One pass, for runs of n words; too few words for three copies stay.
fn pass(w: &mut WordListsMut<'_>, len: usize, n: usize) -> usize
    requires { (0 < n) × ((n ≤ 4) × (len ≤ length w.old.keys.now)) }
    ensures same { SameLists w.old w.new }
    ensures as_many { length w.new.keys.now ≡ length w.old.keys.now }
    ensures passed { first_words result (words_of w.new) ≡ pass_words n (first_words len (words_of w.old)) }
    ensures fewer { result ≤ len }
{
    if len < MIN_COPIES * n {
        return len;
    }
    collapse_runs(w, len, n)
}

// All passes, for runs of 1 to 4 words.
pub fn passes(w: &mut WordListsMut<'_>) -> usize
    ensures same { SameLists w.old w.new }
    ensures as_many { length w.new.keys.now ≡ length w.old.keys.now }
    ensures passed { first_words result (words_of w.new) ≡ loop_words (words_of w.old) }
    ensures fewer { result ≤ length w.old.keys.now }
{
    let mut len = w.keys.len();
    for n in 1..=MAX_RUN {
        len = pass(w, len, n);
    }
    len
}
