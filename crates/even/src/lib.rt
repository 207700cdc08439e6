// Words too short to have been said, and the time they get (even.rs, even_out).
#![tactic(auto)]

ghost use Rattle.std.specs.Prelude.{◌≡◌, ◌-◌, ◌<◌, ◌≤◌, length};
ghost use Rattle.base.specs.Words.{words};
ghost use Rattle.base.specs.TimedWords.{edges_of, SameLists};
ghost use Rattle.word_calls.specs.Calls.{output};
ghost use Rattle.even.specs.Even.{even_run, even_turn, even_out, even_call};

use base::Refusal;
use base::timed_words::TimedWords;
use base::word_lists::WordLists;
use stretch::{Row, Stretch};

pub mod stretch;
mod weighed_words;

// The words of a run share its time by letters.
fn even_run(w: &mut TimedWords<'_>, r: Stretch)
    requires { (r.first ≤ r.last) × ((r.last < length w.old.starts.now) × (length w.old.starts.now ≤ 4096)) }
    ensures same { SameLists w.old w.new }
    ensures evened { edges_of w.new ≡ even_run w.old.weights.now r (edges_of w.old) }
{
    let a = r.first;
    let e = r.last + 1;
    let start = w.starts[a];
    let row = Row {
        first: a,
        last: r.last,
    };
    let total = stretch::sum(w.weights, row);
    share::share(
        &mut w.starts[a..e],
        &mut w.ends[a..e],
        &w.weights[a..e],
        r.to - start,
        total,
        start,
    );
}

// Evens the run of word i where it is crushed; the word to look at next.
#[tactic(auto, unfolding(crate::specs::Even::even_turn))]
fn even_turn(w: &mut TimedWords<'_>, limit: f64, i: usize) -> usize
    requires { (i < length w.old.starts.now) × (length w.old.starts.now ≤ 4096) }
    ensures same { SameLists w.old w.new }
    ensures evened { (record { edges = edges_of w.new; i = result }
        ≡ even_turn w.old.weights.now limit (record { edges = edges_of w.old; i = i }))
        × (i < result) }
{
    // The times are only read: lent on their own, they are known to stay.
    let starts = &mut *w.starts;
    let ends = &mut *w.ends;
    if stretch::is_crushed(starts, ends, i) {
        let r = stretch::stretch_of(starts, ends, w.weights, limit, i);
        even_run(w, r);
        return r.last + 1;
    }
    i + 1
}

// Shares out the time of each run of crushed words (even.rs, even_out); nothing is checked.
pub fn even_words(w: &mut TimedWords<'_>, limit: f64)
    requires { length w.old.starts.now ≤ 4096 }
    ensures same { SameLists w.old w.new }
    ensures evened { edges_of w.new ≡ even_out w.old.weights.now limit (edges_of w.old) }
{
    let mut i = 0;
    while i < w.weights.len() {
        i = even_turn(w, limit, i);
    }
}

// Gives crushed words time, of words and a limit within the limits (even.rs, even_out).
pub fn even_out(
    starts: &mut [f64],
    ends: &mut [f64],
    letters: &[u32],
    units: &[u32],
    keys: &[u32],
    limit: f64,
) -> Result<(), Refusal>
    ensures { let before = words starts.old ends.old letters.now units.now keys.now in
        let after = words starts.new ends.new letters.now units.now keys.now in
        output result after ≡ even_call before limit }
{
    word_calls::limit_rule(
        WordLists {
            starts,
            ends,
            letters,
            units,
            keys,
        },
        limit,
    )?;
    let mut w = TimedWords {
        starts,
        ends,
        weights: letters,
    };
    even_words(&mut w, limit);
    Ok(())
}
