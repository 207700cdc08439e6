// A full run after its levels (document 01, "Full run"): the pieces, and the words through all stages; nothing is checked.
#![tactic(auto)]

ghost use Rattle.std.specs.Prelude.{◌≡◌, length};
ghost use Rattle.base.specs.Words.{words};
ghost use Rattle.base.specs.SpanList.{spans_of};
ghost use Rattle.pieces.specs.Pieces.{Ready as PiecesReady};
ghost use Rattle.loops.specs.Loops.{collapse_loops};
ghost use Rattle.run_stages.specs.Stages.{snapped, settled, run_on};
ghost use Rattle.run_stages.specs.Parts.{Ready, FewLetters, Settling, Running};
ghost use Rattle.envelope.specs.Frames.{loud_in, quiet_in};

use base::span_list::SpanList;
use envelope::view::Envelope;
use loops::Left;

pub mod lists;
pub mod on_words;
pub mod snap;

// What is given back: how many pieces and words there are, and whether a loop was found.
#[derive(Drop)]
pub struct Outcome {
    pub pieces: usize,
    pub words: usize,
    pub found: bool,
}

// Loops, then all other stages on the words that they left; gives back how many words are left, and whether a loop was found.
fn run_on_words(
    starts: &mut [f64],
    ends: &mut [f64],
    letters: &mut [u32],
    units: &mut [u32],
    keys: &mut [u32],
    phrases: &mut [u32],
    spans: SpanList<'_>,
    e: Envelope<'_>,
    duration: f64,
    work_starts: &mut [f64],
    work_ends: &mut [f64],
    work_letters: &mut [u32],
) -> Left
    requires { Ready (words starts.old ends.old letters.old units.old keys.old)
        (length phrases.old) (length work_starts.old) (length work_ends.old) (length work_letters.old)
        × FewLetters letters.old }
    ensures { let before = words starts.old ends.old letters.old units.old keys.old in
        let after = words starts.new ends.new letters.new units.new keys.new in
        let all_spans = spans_of spans.entry in
        let loud_frames = loud_in e.entry in
        Settling
        (settled loud_frames duration all_spans phrases.old (snapped loud_frames duration (collapse_loops before).words))
        (length keys.old) result.count after phrases.new
        × (result.found ≡ (collapse_loops before).found) }
{
    let left = lists::collapse(starts, ends, letters, units, keys);
    let n = left.count;
    let words = on_words::time_words(
        &mut starts[0..n],
        &mut ends[0..n],
        &mut letters[0..n],
        &mut units[0..n],
        &mut keys[0..n],
        phrases,
        spans,
        e,
        duration,
        work_starts,
        work_ends,
        work_letters,
    );
    Left {
        count: words,
        found: left.found,
    }
}

// The pieces of a recording, and its words through all stages, from its levels, their floor and the sample count.
pub fn after_levels(
    e: Envelope<'_>,
    starts: &mut [f64],
    ends: &mut [f64],
    letters: &mut [u32],
    units: &mut [u32],
    keys: &mut [u32],
    spans: SpanList<'_>,
    phrases: &mut [u32],
    piece_starts: &mut [usize],
    piece_ends: &mut [usize],
    work_starts: &mut [f64],
    work_ends: &mut [f64],
    work_letters: &mut [u32],
) -> Outcome
    requires { Ready (words starts.old ends.old letters.old units.old keys.old)
        (length phrases.old) (length work_starts.old) (length work_ends.old) (length work_letters.old)
        × (FewLetters letters.old
        × PiecesReady (length e.levels.now) e.count (length piece_starts.old) (length piece_ends.old)) }
    ensures { let before = words starts.old ends.old letters.old units.old keys.old in
        let after = words starts.new ends.new letters.new units.new keys.new in
        let all_spans = spans_of spans.entry in
        let loud_frames = loud_in e.entry in
        let quiet_frames = quiet_in e.entry in
        Running (run_on loud_frames quiet_frames e.entry.count all_spans phrases.old before)
        (length keys.old) result after phrases.new piece_starts.old
        piece_ends.old piece_starts.new piece_ends.new }
{
    let pieces = pieces::count_pieces(e);
    pieces::write_pieces(e, piece_starts, piece_ends);
    let left = run_on_words(
        starts,
        ends,
        letters,
        units,
        keys,
        phrases,
        spans,
        e,
        fit_file::duration_of(e.count),
        work_starts,
        work_ends,
        work_letters,
    );
    Outcome {
        pieces,
        words: left.count,
        found: left.found,
    }
}
