// Loops of a recognizer, collapsed to their first copy (loops.rs).
#![tactic(auto)]

ghost use Rattle.std.specs.Prelude.{◌≡◌, length};
ghost use Rattle.base.specs.Words.{words};
ghost use Rattle.base.specs.WordListsMut.{words_of, SameLists};
ghost use Rattle.loops.specs.Loops.{output, collapse_call};
ghost use Rattle.loops.specs.Parts.{Collapsing};

use base::Refusal;
use base::word_lists::WordLists;
use base::word_lists_mut::WordListsMut;

pub mod copy;
pub mod pass;

// What is left: how many words, and whether a loop was found.
#[derive(Clone, Copy)]
pub struct Left {
    pub count: usize,
    pub found: bool,
}

// Collapses all loops in place, unchecked (loops.rs, collapse_loops).
pub fn collapse(w: &mut WordListsMut<'_>) -> Left
    ensures same { SameLists w.old w.new }
    ensures as_many { length w.new.keys.now ≡ length w.old.keys.now }
    ensures collapsed { Collapsing result (words_of w.old) (words_of w.new) }
{
    let len = pass::passes(w);
    w.clear(len);
    Left {
        count: len,
        found: len < w.keys.len(),
    }
}

// Collapses loops, of words within the limits: the first copy of each stays (loops.rs, collapse_loops).
pub fn collapse_loops(
    starts: &mut [f64],
    ends: &mut [f64],
    letters: &mut [u32],
    units: &mut [u32],
    keys: &mut [u32],
) -> Result<Left, Refusal>
    ensures { let before = words starts.old ends.old letters.old units.old keys.old in
        let after = words starts.new ends.new letters.new units.new keys.new in
        output result after ≡ collapse_call before }
{
    let words = WordLists {
        starts,
        ends,
        letters,
        units,
        keys,
    };
    limits::chain(word_calls::of_words(words))?;
    let mut w = WordListsMut {
        starts,
        ends,
        letters,
        units,
        keys,
    };
    Ok(collapse(&mut w))
}
