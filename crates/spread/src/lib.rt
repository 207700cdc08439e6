// The words of one phrase placed in its span (phrase_align.rs, what align_phrases does with a phrase's words).
#![tactic(auto)]

ghost use Rattle.std.specs.Prelude.{◌≡◌, ◌+◌, ◌<◌, ◌≤◌, length};
ghost use Rattle.base.specs.Words.{edges};
ghost use Rattle.base.specs.TimedWords.{edges_of, SameLists};
ghost use Rattle.spread.specs.Spread.{between_turn, place_between, place_group};
ghost use Rattle.spread.specs.Parts.{place_around};

use base::Times;
use base::timed_words::TimedWords;

pub mod by_letters;
pub mod inside;

// Puts word i between its neighbours, where it is not inside.
fn place_stray(w: &mut TimedWords<'_>, span: Times, i: usize)
    requires { (0 < i) × (i + 1 < length w.old.starts.now) }
    ensures same { SameLists w.old w.new }
    ensures placed { edges_of w.new ≡ between_turn span.start span.end i (edges_of w.old) }
{
    // The times are only read: lent on their own, they are known to stay.
    let starts = &mut *w.starts;
    let ends = &mut *w.ends;
    if inside::inside_at(starts, ends, span, i) {
        return;
    }
    let start = w.ends[i - 1];
    let end = js::js_max(start, w.starts[i + 1]);
    w.put(i, Times { start, end });
}

// Puts the words that are not inside, from the first inside one to the last, between their neighbours.
fn place_between(w: &mut TimedWords<'_>, span: Times, first: usize, last: usize)
    requires { (first < length w.old.starts.now) × (last < length w.old.starts.now) }
    ensures same { SameLists w.old w.new }
    ensures placed { edges_of w.new ≡ place_between span.start span.end first last (edges_of w.old) }
{
    for i in first + 1..last {
        place_stray(w, span, i);
    }
}

// Places the words of a phrase of which word `first` is the first inside one.
fn place_around(w: &mut TimedWords<'_>, span: Times, first: usize)
    requires { (first < length w.old.starts.now) × (length w.old.starts.now ≤ 4096) }
    ensures same { SameLists w.old w.new }
    ensures placed { edges_of w.new ≡ place_around w.old.weights.now span.start span.end first (edges_of w.old) }
{
    // The times are only read: lent on their own, they are known to stay.
    let starts = &mut *w.starts;
    let ends = &mut *w.ends;
    let last = inside::last_inside(starts, ends, span);
    by_letters::spread_before(w, span.start, first);
    by_letters::spread_after(w, span.end, last);
    place_between(w, span, first, last);
}

// Places the words of one phrase in its span.
pub fn place_group(starts: &mut [f64], ends: &mut [f64], letters: &[u32], span: Times)
    requires { (length starts.old ≡ length letters.now) × ((length ends.old ≡ length letters.now) × (length letters.now ≤ 4096)) }
    ensures { let before = edges starts.old ends.old in
        let after = edges starts.new ends.new in
        after ≡ place_group letters.now span.start span.end before }
{
    match inside::first_inside(starts, ends, span) {
        Some(first) => {
            let mut w = TimedWords {
                starts,
                ends,
                weights: letters,
            };
            place_around(&mut w, span, first)
        }
        None => by_letters::spread(starts, ends, letters, span.start, span.end),
    }
}
