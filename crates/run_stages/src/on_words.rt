// The stages of a full run on the words that loops left (document 01, "Full run"); nothing is checked.
ghost use Rattle.std.specs.Prelude.{length};
ghost use Rattle.base.specs.Words.{words};
ghost use Rattle.base.specs.SpanList.{spans_of};
ghost use Rattle.run_stages.specs.Stages.{snapped, by_phrase, settled};
ghost use Rattle.run_stages.specs.Parts.{Ready, FewLetters, Settling};
ghost use Rattle.envelope.specs.Frames.{loud_in};

use base::span_list::SpanList;
use envelope::view::Envelope;

// Placing, then the fit by phrase; gives back how many words are left.
fn place_and_fit(
    starts: &mut [f64],
    ends: &mut [f64],
    letters: &mut [u32],
    units: &mut [u32],
    keys: &mut [u32],
    phrases: &mut [u32],
    spans: SpanList<'_>,
    e: Envelope<'_>,
    duration: f64,
    work_starts: &mut [f64],
    work_ends: &mut [f64],
    work_letters: &mut [u32],
) -> usize
    requires { Ready (words starts.old ends.old letters.old units.old keys.old)
        (length phrases.old) (length work_starts.old) (length work_ends.old) (length work_letters.old) }
    ensures { let before = words starts.old ends.old letters.old units.old keys.old in
        let after = words starts.new ends.new letters.new units.new keys.new in
        let all_spans = spans_of spans.entry in
        let loud_frames = loud_in e.entry in
        Settling (by_phrase loud_frames duration all_spans phrases.old before) (length keys.old) result after phrases.new }
{
    let n = super::lists::place_words(starts, ends, letters, units, keys, phrases, spans);
    super::lists::fit_phrases(
        &mut starts[0..n],
        &mut ends[0..n],
        &letters[0..n],
        &phrases[0..n],
        spans,
        e,
        duration,
        work_starts,
        work_ends,
        work_letters,
    );
    n
}

// All stages on the words that loops left, without spans with one fit over the whole recording; gives back how many words are left.
pub fn time_words(
    starts: &mut [f64],
    ends: &mut [f64],
    letters: &mut [u32],
    units: &mut [u32],
    keys: &mut [u32],
    phrases: &mut [u32],
    spans: SpanList<'_>,
    e: Envelope<'_>,
    duration: f64,
    work_starts: &mut [f64],
    work_ends: &mut [f64],
    work_letters: &mut [u32],
) -> usize
    requires { Ready (words starts.old ends.old letters.old units.old keys.old)
        (length phrases.old) (length work_starts.old) (length work_ends.old) (length work_letters.old)
        × FewLetters letters.old }
    ensures { let before = words starts.old ends.old letters.old units.old keys.old in
        let after = words starts.new ends.new letters.new units.new keys.new in
        let all_spans = spans_of spans.entry in
        let loud_frames = loud_in e.entry in
        Settling
        (settled loud_frames duration all_spans phrases.old (snapped loud_frames duration before))
        (length keys.old) result after phrases.new }
{
    super::snap::snap(starts, ends, letters, units, e, duration);
    if spans.starts.len() == 0 {
        super::lists::fit_words(starts, ends, letters, e, duration);
        return keys.len();
    }
    place_and_fit(
        starts,
        ends,
        letters,
        units,
        keys,
        phrases,
        spans,
        e,
        duration,
        work_starts,
        work_ends,
        work_letters,
    )
}
