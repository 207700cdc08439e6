// Words fitted to their sound (fit.rs, fit_to_sound).
#![tactic(auto)]

ghost use Rattle.std.specs.Prelude.{◌≡◌, ◌≤◌, length};
ghost use Rattle.base.specs.Words.{words};
ghost use Rattle.base.specs.TimedWords.{edges_of, SameLists};
ghost use Rattle.word_calls.specs.Calls.{output};
ghost use Rattle.fit_to_sound.specs.FitToSound.{fit_to_sound, fit_call};
ghost use Rattle.envelope.specs.Frames.{loud_in};

use base::Refusal;
use base::timed_words::TimedWords;
use base::word_lists::WordLists;
use envelope::view::Envelope;

pub mod word_ends;
pub mod word_starts;

// Fits words to their sound (fit.rs, fit_to_sound); nothing is checked.
pub fn fit_words(w: &mut TimedWords<'_>, e: Envelope<'_>, duration: f64)
    requires { length w.old.starts.now ≤ 4096 }
    ensures same { SameLists w.old w.new }
    ensures fitted { edges_of w.new ≡ fit_to_sound (loud_in e.entry) duration w.old.weights.now (edges_of w.old) }
{
    word_starts::put_in_order(w.starts, w.ends, duration);
    word_starts::move_to_rise(w.starts, w.ends, e);
    // Here and below the starts are only read: lent on their own, they are known to stay.
    let starts = &mut *w.starts;
    word_starts::clip(starts, w.ends);
    even::even_words(w, f64::INFINITY);
    let starts = &mut *w.starts;
    word_ends::settle_ends(starts, w.ends, w.weights, e, duration);
    even::even_words(w, duration);
}

// Fits words to their sound, of words, levels and a duration within the limits (fit.rs, fit_to_sound).
pub fn fit_to_sound(
    e: Envelope<'_>,
    starts: &mut [f64],
    ends: &mut [f64],
    letters: &[u32],
    units: &[u32],
    keys: &[u32],
    duration: f64,
) -> Result<(), Refusal>
    ensures { let before = words starts.old ends.old letters.now units.now keys.now in
        let after = words starts.new ends.new letters.now units.now keys.now in
        output result after ≡ fit_call before e.entry.levels.now e.entry.floor e.entry.count duration }
{
    word_calls::timed_rule(
        WordLists {
            starts,
            ends,
            letters,
            units,
            keys,
        },
        e.levels.len(),
        e.count,
        duration,
    )?;
    let mut w = TimedWords {
        starts,
        ends,
        weights: letters,
    };
    fit_words(&mut w, e, duration);
    Ok(())
}
