// Loose ends, moved to where the sound stops (onsets.rs, snap_ends).
#![tactic(auto)]

ghost use Rattle.std.specs.Prelude.{◌≡◌, ◌+◌, ◌<◌, length};
ghost use Rattle.base.specs.Words.{words};
ghost use Rattle.base.specs.TimedWords.{edges_of, SameLists};
ghost use Rattle.word_calls.specs.Calls.{output};
ghost use Rattle.ends.specs.Ends.{end_turn, snap_ends, ends_call, set_pair};
ghost use Rattle.envelope.specs.Frames.{loud_in};

use base::timed_words::TimedWords;
use base::word_lists::WordLists;
use base::{Refusal, Times};
use envelope::view::Envelope;

pub mod one_word;
pub mod sound;

// Stores the times of the first of two words, and the edge as the second's start.
#[tactic(auto, unfolding(crate::specs::Ends::set_pair))]
fn set_pair(w: &mut TimedWords<'_>, i: usize, t: Times)
    requires { i + 1 < length w.old.starts.now }
    ensures same { SameLists w.old w.new }
    ensures stored { edges_of w.new ≡ set_pair (edges_of w.old) i t }
{
    w.put(i, t);
    w.starts[i + 1] = t.end;
}

// Word i: it ends where its sound stops, or shares an edge with the next. Words weigh by their units.
fn snap_end(w: &mut TimedWords<'_>, e: Envelope<'_>, duration: f64, i: usize)
    requires { i < length w.old.starts.now }
    ensures same { SameLists w.old w.new }
    ensures snapped { edges_of w.new ≡ end_turn (loud_in e.entry) duration w.old.weights.now i (edges_of w.old) }
{
    let t = w.at(i);
    let next = one_word::start_after(w, i);
    if one_word::is_pair(next, t) {
        let edge = one_word::pair_of(e, t, w.ends[i + 1], w.weights[i], w.weights[i + 1]);
        set_pair(w, i, edge);
        return;
    }
    let cut = one_word::end_of(e, duration, next, t);
    w.ends[i] = cut.end;
}

// Moves each loose end to where the sound stops (onsets.rs, snap_ends), of words that weigh by their units; nothing is checked.
pub fn move_ends(w: &mut TimedWords<'_>, e: Envelope<'_>, duration: f64)
    ensures same { SameLists w.old w.new }
    ensures snapped { edges_of w.new ≡ snap_ends (loud_in e.entry) duration w.old.weights.now (edges_of w.old) }
{
    for i in 0..w.starts.len() {
        snap_end(w, e, duration, i);
    }
}

// Moves loose ends to where the sound stops, of words, levels and a duration within the limits (onsets.rs, snap_ends).
pub fn snap_ends(
    e: Envelope<'_>,
    starts: &mut [f64],
    ends: &mut [f64],
    letters: &[u32],
    units: &[u32],
    keys: &[u32],
    duration: f64,
) -> Result<(), Refusal>
    ensures { let before = words starts.old ends.old letters.now units.now keys.now in
        let after = words starts.new ends.new letters.now units.now keys.now in
        output result after ≡ ends_call before e.entry.levels.now e.entry.floor e.entry.count duration }
{
    word_calls::timed_rule(
        WordLists {
            starts,
            ends,
            letters,
            units,
            keys,
        },
        e.levels.len(),
        e.count,
        duration,
    )?;
    let mut w = TimedWords {
        starts,
        ends,
        weights: units,
    };
    move_ends(&mut w, e, duration);
    Ok(())
}
