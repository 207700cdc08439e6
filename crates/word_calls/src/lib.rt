// What calls on words test: which refusals apply, and the first of them.
#![tactic(auto)]

ghost use Rattle.std.specs.Prelude.{◌≡◌, ℕ};
ghost use Rattle.base.specs.WordLists.{words_of};
ghost use Rattle.base.specs.Spans.{spans_of};
ghost use Rattle.limits.specs.Limits.{any, differ};
ghost use Rattle.word_calls.specs.Calls.{of_words, of_samples, of_levels, of_time, of_limit, many_spans, of_spans, of_places, of_list};
ghost use Rattle.word_calls.specs.Calls.{sound_rule, timed_rule, limit_rule, spans_rule, phrases_rule};

use base::Refusal;
use base::spans::Spans;
use base::word_lists::WordLists;
use limits::Applies;

// Whether another of the lists is not as long as the starts (refusal 3).
fn lists_differ(starts: usize, others: &[usize]) -> bool
    ensures { result ≡ any (λ (n : ℕ). differ n starts) others.now }
{
    others
        .iter()
        .any(|n| limits::sizes::differ_in_length(*n, starts))
}

// What applies of a word list: 3, 4, 1, 2.
pub fn of_words(words: WordLists<'_>) -> Applies
    ensures { result ≡ of_words (words_of words.entry) }
{
    let others = [
        words.ends.len(),
        words.letters.len(),
        words.units.len(),
        words.keys.len(),
    ];
    let uneven = lists_differ(words.starts.len(), &others);
    let times = limits::when(limits::bad_edges(words.starts, words.ends), Refusal::Time);
    let letters = limits::when(
        limits::bad_letters(words.letters, words.units),
        Refusal::Letters,
    );
    let counts = limits::when(limits::sizes::many(words.starts.len()), Refusal::Counts);
    limits::also(
        limits::when(uneven, Refusal::Lengths),
        limits::also(counts, limits::also(times, letters)),
    )
}

// What applies of so many samples: 4.
pub fn of_samples(samples: usize) -> Applies
    ensures { result ≡ of_samples samples }
{
    limits::when(limits::sizes::many_samples(samples), Refusal::Counts)
}

// What applies of so many levels, of a recording of so many samples: 4, 7.
pub fn of_levels(levels: usize, samples: usize) -> Applies
    ensures { result ≡ of_levels levels samples }
{
    let other = limits::sizes::other_levels(levels, samples);
    limits::also(of_samples(samples), limits::when(other, Refusal::Levels))
}

// What applies of a time that is no word's, as a duration: 1.
pub fn of_time(t: f64) -> Applies
    ensures { result ≡ of_time t }
{
    limits::when(limits::times::bad_time(t), Refusal::Time)
}

// What applies of a limit for evening: 1.
pub fn of_limit(t: f64) -> Applies
    ensures { result ≡ of_limit t }
{
    limits::when(limits::times::bad_limit(t), Refusal::Time)
}

// Too many spans, or too large a span count (refusal 4).
fn many_spans(spans: Spans<'_>) -> bool
    ensures { result ≡ many_spans (spans_of spans.entry) }
{
    limits::sizes::many(spans.starts.len()) | limits::bad_counts(spans.counts)
}

// What applies of a list of spans: 3, 4, 1.
pub fn of_spans(spans: Spans<'_>) -> Applies
    ensures { result ≡ of_spans (spans_of spans.entry) }
{
    let uneven = lists_differ(spans.starts.len(), &[spans.ends.len(), spans.counts.len()]);
    let times = limits::when(limits::bad_edges(spans.starts, spans.ends), Refusal::Time);
    let many = limits::when(many_spans(spans), Refusal::Counts);
    limits::also(
        limits::when(uneven, Refusal::Lengths),
        limits::also(many, times),
    )
}

// What applies of so many places, of which so many are needed: 6.
pub fn of_places(places: usize, need: usize) -> Applies
    ensures { result ≡ of_places places need }
{
    limits::when(limits::sizes::few_places(places, need), Refusal::Places)
}

// What applies of one list more that belongs to the words: 3.
pub fn of_list(list: usize, words: usize) -> Applies
    ensures { result ≡ of_list list words }
{
    limits::when(
        limits::sizes::differ_in_length(list, words),
        Refusal::Lengths,
    )
}

// What the tests find of a stage on sound: 3, 4, 1, 2, 7.
pub fn sound_rule(words: WordLists<'_>, levels: usize, samples: usize) -> Result<(), Refusal>
    ensures { let before = words_of words.entry in
        result ≡ sound_rule before levels samples }
{
    let a = of_words(words);
    limits::chain(limits::also(a, of_levels(levels, samples)))
}

// What the tests find of a stage on sound that takes a duration: 3, 4, 1, 2, 7.
pub fn timed_rule(
    words: WordLists<'_>,
    levels: usize,
    samples: usize,
    duration: f64,
) -> Result<(), Refusal>
    ensures { let before = words_of words.entry in
        result ≡ timed_rule before levels samples duration }
{
    let a = of_words(words);
    let b = limits::also(a, of_levels(levels, samples));
    limits::chain(limits::also(b, of_time(duration)))
}

// What the tests find of words and a limit for evening: 3, 4, 1, 2.
pub fn limit_rule(words: WordLists<'_>, limit: f64) -> Result<(), Refusal>
    ensures { let before = words_of words.entry in
        result ≡ limit_rule before limit }
{
    let a = of_words(words);
    limits::chain(limits::also(a, of_limit(limit)))
}

// What the tests find of words, spans, and so many places where so many are needed: 3, 4, 1, 2, 6.
pub fn spans_rule(
    words: WordLists<'_>,
    spans: Spans<'_>,
    places: usize,
    need: usize,
) -> Result<(), Refusal>
    ensures { let before = words_of words.entry in
        let all_spans = spans_of spans.entry in
        result ≡ spans_rule before all_spans places need }
{
    let a = of_words(words);
    let b = limits::also(of_spans(spans), of_places(places, need));
    limits::chain(limits::also(a, b))
}

// What the tests find of words in phrases, spans, levels, and so many places where so many are needed: 3, 4, 1, 2, 7, 6.
pub fn phrases_rule(
    words: WordLists<'_>,
    phrases: usize,
    spans: Spans<'_>,
    levels: usize,
    samples: usize,
    places: usize,
    need: usize,
) -> Result<(), Refusal>
    ensures { let before = words_of words.entry in
        let all_spans = spans_of spans.entry in
        result ≡ phrases_rule before phrases all_spans levels samples places need }
{
    let a = of_words(words);
    let b = limits::also(a, of_levels(levels, samples));
    let d = limits::also(of_spans(spans), of_places(places, need));
    limits::chain(limits::also(b, limits::also(of_list(phrases, words.starts.len()), d)))
}
