// A full run on levels that were heard before, by the tests and the stages of `full_run`.
ghost use Rattle.std.specs.Prelude.{◌≡◌, ◌/◌, length};
ghost use Rattle.base.specs.Words.{words};
ghost use Rattle.base.specs.Spans.{spans_of};
ghost use Rattle.limits.specs.Order.{chain};
ghost use Rattle.envelope.specs.Envelope.{floor as floor_of, loud_row, quiet_row};
ghost use Rattle.full_run.specs.Parts.{applies_to, Heard};
ghost use Rattle.run_stages.specs.Stages.{run_on};

use super::Report;
use base::Refusal;
use base::span_list::SpanList;
use base::spans::Spans;
use base::word_lists::WordLists;
use envelope::view::Envelope;

// The full run of `count` samples, from their levels; piece places and work places of one kind are equally many.
pub fn run_heard(
    levels: &[f64],
    count: usize,
    starts: &mut [f64],
    ends: &mut [f64],
    letters: &mut [u32],
    units: &mut [u32],
    keys: &mut [u32],
    spans: Spans<'_>,
    phrases: &mut [u32],
    piece_starts: &mut [usize],
    piece_ends: &mut [usize],
    work_starts: &mut [f64],
    work_ends: &mut [f64],
    work_letters: &mut [u32],
) -> Result<Report, Refusal>
    requires { (length levels.now ≡ count / 160)
        × ((length piece_ends.old ≡ length piece_starts.old)
        × ((length work_ends.old ≡ length work_starts.old)
        × (length work_letters.old ≡ length work_starts.old))) }
    ensures { let before = words starts.old ends.old letters.old units.old keys.old in
        let after = words starts.new ends.new letters.new units.new keys.new in
        let all_spans = spans_of spans.entry in
        let loud_frames = loud_row (floor_of levels.now) levels.now in
        let quiet_frames = quiet_row (floor_of levels.now) levels.now in
        Heard
        (chain
        (applies_to count before all_spans (length phrases.old) (length levels.now)
        (length piece_starts.old) (length work_starts.old)))
        (floor_of levels.now)
        (run_on loud_frames quiet_frames count all_spans phrases.old before) result before after
        phrases.new piece_starts.old piece_ends.old
        piece_starts.new piece_ends.new }
{
    super::rule::judge(
        count,
        WordLists {
            starts,
            ends,
            letters,
            units,
            keys,
        },
        spans,
        phrases.len(),
        levels.len(),
        piece_starts.len(),
        work_starts.len(),
    )?;
    let floor = envelope::floor::floor_of(levels);
    let tested = SpanList {
        starts: spans.starts,
        ends: spans.ends,
        counts: spans.counts,
    };
    let out = run_stages::after_levels(
        Envelope {
            levels,
            floor,
            count,
        },
        starts,
        ends,
        letters,
        units,
        keys,
        tested,
        phrases,
        piece_starts,
        piece_ends,
        work_starts,
        work_ends,
        work_letters,
    );
    Ok(Report {
        floor,
        pieces: out.pieces,
        words: out.words,
        found: out.found,
    })
}
