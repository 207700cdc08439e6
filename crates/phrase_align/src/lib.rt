// Words placed in the spans of their phrases (phrase_align.rs, align_phrases).
#![tactic(auto)]

ghost use Rattle.std.specs.Prelude.{◌≡◌, ◌≤◌, length};
ghost use Rattle.base.specs.Words.{words};
ghost use Rattle.base.specs.SpanList.{spans_of as list_of};
ghost use Rattle.base.specs.Spans.{spans_of};
ghost use Rattle.base.specs.WordListsMut.{words_of, SameLists};
ghost use Rattle.phrase_align.specs.PhraseAlign.{align_phrases, output, accepted, align_call};

use base::Refusal;
use base::span_list::SpanList;
use base::spans::Spans;
use base::word_lists::WordLists;
use base::word_lists_mut::WordListsMut;

pub mod place;

// Places words in the spans of their phrases, and makes the places of surplus words zero (phrase_align.rs, align_phrases); nothing is checked.
pub fn place_words(w: &mut WordListsMut<'_>, phrases: &mut [u32], spans: SpanList<'_>) -> usize
    requires { (length w.old.keys.now ≤ 4096) × (length w.old.keys.now ≤ length phrases.old) }
    ensures same { SameLists w.old w.new }
    ensures as_many { length w.new.keys.now ≡ length w.old.keys.now }
    ensures placed { let all_spans = list_of spans.entry in
        output (Ok result) (words_of w.new) phrases.new
        ≡ accepted (align_phrases (words_of w.old) all_spans) (length w.old.keys.now) phrases.old }
{
    // The letters are only read: lent on their own, they are known to stay.
    let letters = &mut *w.letters;
    let at = place::place_spans(w.starts, w.ends, letters, phrases, spans);
    place::number_words(phrases, at, w.keys.len(), 0);
    w.clear(at);
    at
}

// Places words in the spans of their phrases, all within the limits (phrase_align.rs, align_phrases).
pub fn align_phrases(
    starts: &mut [f64],
    ends: &mut [f64],
    letters: &mut [u32],
    units: &mut [u32],
    keys: &mut [u32],
    spans: Spans<'_>,
    phrases: &mut [u32],
) -> Result<usize, Refusal>
    ensures { let before = words starts.old ends.old letters.old units.old keys.old in
        let after = words starts.new ends.new letters.new units.new keys.new in
        let all_spans = spans_of spans.entry in
        output result after phrases.new ≡ align_call before all_spans phrases.old }
{
    word_calls::spans_rule(
        WordLists {
            starts,
            ends,
            letters,
            units,
            keys,
        },
        spans,
        phrases.len(),
        keys.len(),
    )?;
    let mut w = WordListsMut {
        starts,
        ends,
        letters,
        units,
        keys,
    };
    let spans = SpanList {
        starts: spans.starts,
        ends: spans.ends,
        counts: spans.counts,
    };
    let n = place_words(&mut w, phrases, spans);
    Ok(n)
}
