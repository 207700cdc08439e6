// The full run (document 01, "Full run").
#![tactic(auto)]

ghost use Rattle.std.specs.Prelude.{◌≡◌, length};
ghost use Rattle.base.specs.Words.{words};
ghost use Rattle.base.specs.Spans.{spans_of};
ghost use Rattle.base.specs.Refusals.{Unchanged};
ghost use Rattle.fit_file.specs.FitFile.{work_places};
ghost use Rattle.full_run.specs.FullRun.{input, output, full_run};

use base::span_list::SpanList;
use base::spans::Spans;
use base::word_lists::WordLists;
use base::{HOP, Refusal};
use envelope::view::Envelope;

pub mod heard;
pub mod rule;

// What an accepted run gives back: the floor, how many pieces and words there are, and whether a loop was found.
#[derive(Clone, Copy)]
pub struct Report {
    pub floor: f64,
    pub pieces: usize,
    pub words: usize,
    pub found: bool,
}

// Finds the pieces of a recording and where each of its words begins and ends (document 01, "Full run").
pub fn full_run(
    samples: &[f32],
    starts: &mut [f64],
    ends: &mut [f64],
    letters: &mut [u32],
    units: &mut [u32],
    keys: &mut [u32],
    spans: Spans<'_>,
    phrases: &mut [u32],
    levels: &mut [f64],
    piece_starts: &mut [usize],
    piece_ends: &mut [usize],
    work_starts: &mut [f64],
    work_ends: &mut [f64],
    work_letters: &mut [u32],
) -> Result<Report, Refusal>
    ensures { let before = words starts.old ends.old letters.old units.old keys.old in
        let after = words starts.new ends.new letters.new units.new keys.new in
        let all_spans = spans_of spans.entry in
        let room = work_places (length work_starts.old) (length work_ends.old) (length work_letters.old) in
        let given = input samples.now before all_spans phrases.old levels.old
        piece_starts.old piece_ends.old room in
        let left = output result after phrases.new levels.new piece_starts.new piece_ends.new in
        (left ≡ full_run given)
        × (Unchanged result work_starts.old work_starts.new
        × (Unchanged result work_ends.old work_ends.new
        × Unchanged result work_letters.old work_letters.new)) }
{
    rule::judge(
        samples.len(),
        WordLists {
            starts,
            ends,
            letters,
            units,
            keys,
        },
        spans,
        phrases.len(),
        levels.len(),
        piece_starts.len().min(piece_ends.len()),
        work_starts
            .len()
            .min(work_ends.len().min(work_letters.len())),
    )?;
    let floor = envelope::hear(samples, levels);
    let n = samples.len() / HOP;
    let tested = SpanList {
        starts: spans.starts,
        ends: spans.ends,
        counts: spans.counts,
    };
    let out = run_stages::after_levels(
        Envelope {
            levels: &levels[0..n],
            floor,
            count: samples.len(),
        },
        starts,
        ends,
        letters,
        units,
        keys,
        tested,
        phrases,
        piece_starts,
        piece_ends,
        work_starts,
        work_ends,
        work_letters,
    );
    Ok(Report {
        floor,
        pieces: out.pieces,
        words: out.words,
        found: out.found,
    })
}
