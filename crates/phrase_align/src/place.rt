// Each span takes its words, in place (phrase_align.rs, align_phrases); nothing is checked.
ghost use Rattle.std.specs.Prelude.{◌≡◌, ◌+◌, ◌-◌, ◌<◌, ◌≤◌, length, replicate};
ghost use Rattle.base.specs.Words.{with_part};
ghost use Rattle.base.specs.SpanList.{spans_of};
ghost use Rattle.base.specs.TimedWords.{SameLists};
ghost use Rattle.phrase_align.specs.Parts.{held, held_span, held_spans};

use base::Times;
use base::span_list::SpanList;
use base::timed_words::TimedWords;

// Gives words a to e the phrase number p.
pub fn number_words(phrases: &mut [u32], a: usize, e: usize, p: u32)
    requires { (a ≤ e) × (e ≤ length phrases.old) }
    ensures { phrases.new ≡ with_part a e phrases.old (replicate (e - a) p) }
{
    phrases[a..e].fill(p);
}

// Places words a to e in span number p.
fn place_span(w: &mut TimedWords<'_>, phrases: &mut [u32], span: Times, a: usize, e: usize, p: u32)
    requires { (length w.old.starts.now ≤ length phrases.old)
        × ((a ≤ e) × ((e ≤ length w.old.starts.now) × (length w.old.starts.now ≤ 4096))) }
    ensures same { SameLists w.old w.new }
    ensures placed { held w.new.starts.now w.new.ends.now phrases.new e
        ≡ held_span w.old.weights.now span.start span.end a e p (held w.old.starts.now w.old.ends.now phrases.old a) }
{
    spread::place_group(
        &mut w.starts[a..e],
        &mut w.ends[a..e],
        &w.weights[a..e],
        span,
    );
    number_words(phrases, a, e, p);
}

// Each span takes its count of words, in order, until words run out; how many words were placed.
pub fn place_spans(
    starts: &mut [f64],
    ends: &mut [f64],
    letters: &[u32],
    phrases: &mut [u32],
    spans: SpanList<'_>,
) -> usize
    requires { (length starts.old ≡ length letters.now)
        × ((length ends.old ≡ length letters.now)
        × ((length letters.now ≤ 4096) × (length letters.now ≤ length phrases.old))) }
    ensures { let all_spans = spans_of spans.entry in
        (held starts.new ends.new phrases.new result
        ≡ held_spans letters.now all_spans (held starts.old ends.old phrases.old 0))
        × (result ≤ length letters.now) }
{
    let mut w = TimedWords {
        starts,
        ends,
        weights: letters,
    };
    let mut at = 0;
    for p in 0..spans.counts.len() {
        let e = letters.len().min(at + spans.counts[p] as usize);
        let span = Times {
            start: spans.starts[p],
            end: spans.ends[p],
        };
        place_span(&mut w, phrases, span, at, e, p as u32);
        at = e;
    }
    at
}
