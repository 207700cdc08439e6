// Tails of sound handed back to the word before (onsets.rs, hand_back_tails).
#![tactic(auto)]

ghost use Rattle.std.specs.Prelude.{◌≡◌, ℕ, ◌≤◌, get_or};
ghost use Rattle.base.specs.Words.{words};
ghost use Rattle.base.specs.TimedWords.{edges_of, SameLists};
ghost use Rattle.word_calls.specs.Calls.{output};
ghost use Rattle.tails.specs.Tails.{hand_back_tails, tails_call};
ghost use Rattle.envelope.specs.Frames.{loud_in};

use base::Refusal;
use base::timed_words::TimedWords;
use base::word_lists::WordLists;
use envelope::view::Envelope;
use one_word::Neighbours;

pub mod one_word;

// Hands each tail of sound back to the word before, where a word starts on it (onsets.rs, hand_back_tails); nothing is checked.
pub fn move_tails(w: &mut TimedWords<'_>, e: Envelope<'_>)
    requires { (i : ℕ) → get_or w.old.weights.now i 0 ≤ 1000 }
    ensures same { SameLists w.old w.new }
    ensures handed { edges_of w.new ≡ hand_back_tails (loud_in e.entry) w.old.weights.now (edges_of w.old) }
{
    for i in 1..w.starts.len() {
        let pair = Neighbours {
            prev: w.at(i - 1),
            w: w.at(i),
        };
        let p = one_word::hand_back(e, pair, w.weights[i]);
        w.put(i - 1, p.prev);
        w.put(i, p.w);
    }
}

// Hands tails of sound back to the words before, of words and levels within the limits (onsets.rs, hand_back_tails).
pub fn hand_back_tails(
    e: Envelope<'_>,
    starts: &mut [f64],
    ends: &mut [f64],
    letters: &[u32],
    units: &[u32],
    keys: &[u32],
) -> Result<(), Refusal>
    ensures { let before = words starts.old ends.old letters.now units.now keys.now in
        let after = words starts.new ends.new letters.now units.now keys.now in
        output result after ≡ tails_call before e.entry.levels.now e.entry.floor e.entry.count }
{
    word_calls::sound_rule(
        WordLists {
            starts,
            ends,
            letters,
            units,
            keys,
        },
        e.levels.len(),
        e.count,
    )?;
    let mut w = TimedWords {
        starts,
        ends,
        weights: letters,
    };
    move_tails(&mut w, e);
    Ok(())
}
