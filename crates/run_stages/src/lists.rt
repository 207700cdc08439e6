// The core calls of the stages, of lists that are lent one by one: here they become one value. A run hands on the first words of its lists, and a
// part of a value's lists can be lent, but makes no value (the borrow checker does not cover it).
ghost use Rattle.std.specs.Prelude.{◌≡◌, ℕ, ◌≤◌, Ok, length, get_or};
ghost use Rattle.base.specs.Words.{words, edges};
ghost use Rattle.base.specs.SpanList.{spans_of};
ghost use Rattle.base.specs.Parts.{OneLength};
ghost use Rattle.loops.specs.Parts.{Collapsing};
ghost use Rattle.tails.specs.Tails.{hand_back_tails};
ghost use Rattle.ends.specs.Ends.{snap_ends};
ghost use Rattle.phrase_align.specs.PhraseAlign.{align_phrases, output, accepted};
ghost use Rattle.fit_to_sound.specs.FitToSound.{fit_to_sound};
ghost use Rattle.fit_file.specs.FitFile.{fit_file};
ghost use Rattle.envelope.specs.Frames.{loud_in};

use base::span_list::SpanList;
use base::timed_words::TimedWords;
use base::word_lists_mut::WordListsMut;
use envelope::view::Envelope;
use fit_file::phrased_words::PhrasedWords;
use loops::Left;

// Collapses all loops in place.
pub(crate) fn collapse(
    starts: &mut [f64],
    ends: &mut [f64],
    letters: &mut [u32],
    units: &mut [u32],
    keys: &mut [u32],
) -> Left
    requires { OneLength (length keys.old) (words starts.old ends.old letters.old units.old keys.old) }
    ensures { let before = words starts.old ends.old letters.old units.old keys.old in
        let after = words starts.new ends.new letters.new units.new keys.new in
        Collapsing result before after }
{
    let mut w = WordListsMut {
        starts,
        ends,
        letters,
        units,
        keys,
    };
    loops::collapse(&mut w)
}

// Hands tails of sound back to the words before.
pub(crate) fn move_tails(starts: &mut [f64], ends: &mut [f64], letters: &[u32], e: Envelope<'_>)
    requires { (length ends.old ≡ length starts.old)
        × ((length letters.now ≡ length starts.old) × ((i : ℕ) → get_or letters.now i 0 ≤ 1000)) }
    ensures { let before = edges starts.old ends.old in
        let after = edges starts.new ends.new in
        after ≡ hand_back_tails (loud_in e.entry) letters.now before }
{
    let mut w = TimedWords {
        starts,
        ends,
        weights: letters,
    };
    tails::move_tails(&mut w, e);
}

// Moves loose ends to where the sound stops.
pub(crate) fn move_ends(
    starts: &mut [f64],
    ends: &mut [f64],
    units: &[u32],
    e: Envelope<'_>,
    duration: f64,
)
    requires { (length ends.old ≡ length starts.old) × (length units.now ≡ length starts.old) }
    ensures { let before = edges starts.old ends.old in
        let after = edges starts.new ends.new in
        after ≡ snap_ends (loud_in e.entry) duration units.now before }
{
    let mut w = TimedWords {
        starts,
        ends,
        weights: units,
    };
    ends::move_ends(&mut w, e, duration);
}

// Fits words to their sound.
pub(crate) fn fit_words(
    starts: &mut [f64],
    ends: &mut [f64],
    letters: &[u32],
    e: Envelope<'_>,
    duration: f64,
)
    requires { (length ends.old ≡ length starts.old) × ((length letters.now ≡ length starts.old) × (length starts.old ≤ 4096)) }
    ensures { let before = edges starts.old ends.old in
        let after = edges starts.new ends.new in
        after ≡ fit_to_sound (loud_in e.entry) duration letters.now before }
{
    let mut w = TimedWords {
        starts,
        ends,
        weights: letters,
    };
    fit_to_sound::fit_words(&mut w, e, duration);
}

// Places words in the spans of their phrases, and makes the places of surplus words zero.
pub(crate) fn place_words(
    starts: &mut [f64],
    ends: &mut [f64],
    letters: &mut [u32],
    units: &mut [u32],
    keys: &mut [u32],
    phrases: &mut [u32],
    spans: SpanList<'_>,
) -> usize
    requires { (OneLength (length keys.old) (words starts.old ends.old letters.old units.old keys.old))
        × ((length keys.old ≤ 4096) × (length keys.old ≤ length phrases.old)) }
    ensures { let before = words starts.old ends.old letters.old units.old keys.old in
        let after = words starts.new ends.new letters.new units.new keys.new in
        let all_spans = spans_of spans.entry in
        output (Ok result) after phrases.new
        ≡ accepted (align_phrases before all_spans) (length keys.old) phrases.old }
{
    let mut w = WordListsMut {
        starts,
        ends,
        letters,
        units,
        keys,
    };
    phrase_align::place_words(&mut w, phrases, spans)
}

// Fits words to their sound, phrase by phrase.
pub(crate) fn fit_phrases(
    starts: &mut [f64],
    ends: &mut [f64],
    letters: &[u32],
    phrases: &[u32],
    spans: SpanList<'_>,
    e: Envelope<'_>,
    duration: f64,
    work_starts: &mut [f64],
    work_ends: &mut [f64],
    work_letters: &mut [u32],
)
    requires { (length ends.old ≡ length starts.old)
        × ((length letters.now ≡ length starts.old)
        × ((length phrases.now ≡ length starts.old)
        × ((length starts.old ≤ 4096)
        × ((length starts.old ≤ length work_starts.old)
        × ((length starts.old ≤ length work_ends.old) × (length starts.old ≤ length work_letters.old)))))) }
    ensures { let before = edges starts.old ends.old in
        let after = edges starts.new ends.new in
        let loud_frames = loud_in e.entry in
        after
        ≡ fit_file loud_frames duration letters.now phrases.now
        (edges spans.entry.starts.now spans.entry.ends.now) before }
{
    let mut w = PhrasedWords {
        starts,
        ends,
        letters,
        phrases,
        work_starts,
        work_ends,
        work_letters,
    };
    fit_file::each_phrase::fit_phrases(&mut w, spans.starts, spans.ends, e, duration);
}
