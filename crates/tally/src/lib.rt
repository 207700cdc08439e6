// The loud frames under each span's words: document 01's tally.
#![tactic(auto)]

ghost use Rattle.std.specs.Prelude.{◌≡◌, ◌<◌, ◌≤◌, ◌^◌, length, get_or};
ghost use Rattle.base.specs.Words.{words, edges};
ghost use Rattle.base.specs.Spans.{spans_of};
ghost use Rattle.tally.specs.Tally.{loud_under, tallies, output, tally_call};
ghost use Rattle.tally.specs.Parts.{loud_between, added_at};
ghost use Rattle.envelope.specs.Frames.{loud_in};

use base::spans::Spans;
use base::word_lists::WordLists;
use base::{Refusal, Times};
use envelope::frame_range::FrameRange;
use envelope::view::Envelope;

// How many of these frames are loud.
fn loud_count(e: Envelope<'_>, r: FrameRange) -> usize
    requires { r.hi ≤ length e.levels.now }
    ensures { (result ≡ loud_between (loud_in e.entry) r.lo r.hi) × (result ≤ r.hi) }
{
    let mut n = 0;
    // A filter and count in its place is no loop that the compiler unrolls, and takes longer; `loud` would look at each frame whether there is one.
    for k in r.lo..r.hi {
        if e.levels[k] > e.floor {
            n += 1;
        }
    }
    n
}

// The loud frames under a word: from its start's frame to before its end's, both from zero.
fn loud_under(e: Envelope<'_>, w: Times) -> usize
    ensures { (result ≡ loud_under (loud_in e.entry) w) × (result ≤ length e.entry.levels.now) }
{
    loud_count(e, e.between(w.start, w.end))
}

// Adds a word's loud frames at the place of its number p, where one of the spans has that number.
#[tactic(auto, unfolding(crate::specs::Parts::added_at))]
fn add_word(e: Envelope<'_>, w: Times, p: u32, places: &mut [usize])
    requires { (length e.levels.now ≤ 2 ^ 40) × (p < length places.old → get_or places.old p 0 ≤ 2 ^ 52) }
    ensures { places.new ≡ added_at (length places.old) p (loud_under (loud_in e.entry) w) places.old }
{
    let at = p as usize;
    if at < places.len() {
        places[at] += loud_under(e, w);
    }
}

// Sums every word's loud frames at the place of its number: there is one place for each span.
fn sum_words(e: Envelope<'_>, starts: &[f64], ends: &[f64], phrases: &[u32], places: &mut [usize])
    requires { (length e.levels.now ≤ 2 ^ 40)
        × ((length starts.now ≤ 4096)
        × ((length ends.now ≡ length starts.now) × (length phrases.now ≡ length starts.now))) }
    ensures { let before = edges starts.now ends.now in
        places.new ≡ tallies (loud_in e.entry) phrases.now before (length places.old) }
{
    places.fill(0);
    for i in 0..starts.len() {
        let w = Times {
            start: starts[i],
            end: ends[i],
        };
        add_word(e, w, phrases[i], places);
    }
}

// The tally of each span's words, of words and spans within the limits (document 01, Tally).
pub fn tally(
    e: Envelope<'_>,
    starts: &[f64],
    ends: &[f64],
    letters: &[u32],
    units: &[u32],
    keys: &[u32],
    phrases: &[u32],
    spans: Spans<'_>,
    places: &mut [usize],
) -> Result<(), Refusal>
    ensures { let before = words starts.now ends.now letters.now units.now keys.now in
        let all_spans = spans_of spans.entry in
        output result places.new
        ≡ tally_call before phrases.now all_spans e.entry.levels.now e.entry.floor e.entry.count places.old }
{
    word_calls::phrases_rule(
        WordLists {
            starts,
            ends,
            letters,
            units,
            keys,
        },
        phrases.len(),
        spans,
        e.levels.len(),
        e.count,
        places.len(),
        spans.starts.len(),
    )?;
    sum_words(e, starts, ends, phrases, &mut places[..spans.starts.len()]);
    Ok(())
}
