// Which refusals apply to a full run, and the first of them (document 01, "Full run").
ghost use Rattle.std.specs.Prelude.{◌≡◌};
ghost use Rattle.base.specs.WordLists.{words_of};
ghost use Rattle.base.specs.Spans.{spans_of};
ghost use Rattle.limits.specs.Order.{chain};
ghost use Rattle.full_run.specs.Parts.{applies_to};

use base::spans::Spans;
use base::word_lists::WordLists;
use base::{HOP, Refusal};

// The first refusal that applies, of 3, 4, 1, 2, 6.
pub fn judge(
    samples: usize,
    words: WordLists<'_>,
    spans: Spans<'_>,
    phrases: usize,
    levels: usize,
    pieces: usize,
    work: usize,
) -> Result<(), Refusal>
    ensures { let before = words_of words.entry in
        let all_spans = spans_of spans.entry in
        result ≡ chain (applies_to samples before all_spans phrases levels pieces work) }
{
    let listed = word_calls::of_words(words);
    let placed = word_calls::of_spans(spans);
    let given = limits::also(
        listed,
        limits::also(placed, word_calls::of_samples(samples)),
    );
    let heard = word_calls::of_places(levels, samples / HOP);
    let cut = word_calls::of_places(pieces, pieces::places_needed(samples / HOP));
    let numbered = word_calls::of_places(phrases, words.keys.len());
    let fitted = word_calls::of_places(work, words.keys.len());
    let lent = limits::also(heard, limits::also(cut, limits::also(numbered, fitted)));
    limits::chain(limits::also(given, lent))
}
