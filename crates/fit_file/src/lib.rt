// Words fitted to their sound, phrase by phrase: the call (fit.rs, fit_file).
#![tactic(auto)]

ghost use Rattle.std.specs.Prelude.{◌≡◌, ◌≤◌, length};
ghost use Rattle.base.specs.Words.{words};
ghost use Rattle.base.specs.Spans.{spans_of};
ghost use Rattle.base.specs.Refusals.{Unchanged};
ghost use Rattle.word_calls.specs.Calls.{output};
ghost use Rattle.fit_file.specs.FitFile.{duration_of, work_places, fit_file_call};

use base::Refusal;
use base::spans::Spans;
use base::word_lists::WordLists;
use envelope::view::Envelope;
use frames::RATE;
use phrased_words::PhrasedWords;

pub mod each_phrase;
pub mod group;
pub mod one_phrase;
pub mod phrased_words;

// How long a recording of so many samples is, in seconds.
#[tactic(auto, unfolding(crate::specs::FitFile::duration_of))]
pub fn duration_of(count: usize) -> f64
    requires { count ≤ 57600000 }
    ensures { result ≡ duration_of count }
{
    count as f64 / RATE
}

// Fits words to their sound, phrase by phrase, all within the limits (fit.rs, fit_file).
pub fn fit_file(
    e: Envelope<'_>,
    starts: &mut [f64],
    ends: &mut [f64],
    letters: &[u32],
    units: &[u32],
    keys: &[u32],
    phrases: &[u32],
    spans: Spans<'_>,
    work_starts: &mut [f64],
    work_ends: &mut [f64],
    work_letters: &mut [u32],
) -> Result<(), Refusal>
    ensures { let before = words starts.old ends.old letters.now units.now keys.now in
        let after = words starts.new ends.new letters.now units.now keys.now in
        let all_spans = spans_of spans.entry in
        let room = work_places (length work_starts.old) (length work_ends.old) (length work_letters.old) in
        (output result after ≡ fit_file_call before phrases.now all_spans e.entry.levels.now e.entry.floor e.entry.count room)
        × (Unchanged result work_starts.old work_starts.new
        × (Unchanged result work_ends.old work_ends.new
        × Unchanged result work_letters.old work_letters.new)) }
{
    let places = work_starts
        .len()
        .min(work_ends.len())
        .min(work_letters.len());
    word_calls::phrases_rule(
        WordLists {
            starts,
            ends,
            letters,
            units,
            keys,
        },
        phrases.len(),
        spans,
        e.levels.len(),
        e.count,
        places,
        keys.len(),
    )?;
    let mut w = PhrasedWords {
        starts,
        ends,
        letters,
        phrases,
        work_starts,
        work_ends,
        work_letters,
    };
    each_phrase::fit_phrases(&mut w, spans.starts, spans.ends, e, duration_of(e.count));
    Ok(())
}
