// The calls of this library for C, C++ and Rust, as include/qiluvrait.h declares them. Each hands
// its arguments on to the function it names, and has that function's contract. Lists side by side,
// numbers for refusals, and answers with a number beside the values are what the C interface needs.
#![tactic(auto)]

ghost use Rattle.std.specs.Prelude.{◌≡◌, length};
ghost use Rattle.std.specs.Float.{binary64};
ghost use Rattle.js.specs.Js.{js_min, js_max, js_to_fixed};
ghost use Rattle.roots.specs.Sqrt.{sqrt as sqrt_of};
ghost use Rattle.envelope.specs.Envelope.{own_floor, envelope_call};
ghost use Rattle.pieces.specs.Pieces.{pieces_call};
ghost use Rattle.base.specs.Words.{words, spans};
ghost use Rattle.loops.specs.Loops.{collapse_call};
ghost use Rattle.tails.specs.Tails.{tails_call};
ghost use Rattle.onsets.specs.Onsets.{onsets_call};
ghost use Rattle.ends.specs.Ends.{ends_call};
ghost use Rattle.phrase_align.specs.PhraseAlign.{align_call};
ghost use Rattle.even.specs.Even.{even_call};
ghost use Rattle.peak.specs.Peak.{peak_call};
ghost use Rattle.last_run.specs.LastRun.{last_run_call};
ghost use Rattle.fit_to_sound.specs.FitToSound.{fit_call};
ghost use Rattle.fit_file.specs.FitFile.{work_places, fit_file_call};
ghost use Rattle.tally.specs.Tally.{tally_call};
ghost use Rattle.full_run.specs.FullRun.{input, full_run};
ghost use Rattle.c_api.specs.Answers.{heard_of, cut_of, level_of, left_of, leaves, leaves_of, moved_of, reply, reply_of, placed_of, placement, placement_of};
ghost use Rattle.c_api.specs.Answers.{report_of, full_run_with, full_run_of, run_of, searched_of, tallied, tallied_of, Unchanged};
ghost use Rattle.frames.specs.Frames.{frame_at, frame_ceil, frame_from_zero, frame_seconds};

use base::spans::Spans;
use base::{Refusal, Times};
use envelope::view::Envelope;
use full_run::Report;
use loops::Left;

#[unsafe(no_mangle)]
pub extern "C" fn qiluvrait_js_min(a: f64, b: f64) -> f64
    ensures { result ≡ js_min a b }
{
    js::js_min(a, b)
}

#[unsafe(no_mangle)]
pub extern "C" fn qiluvrait_js_max(a: f64, b: f64) -> f64
    ensures { result ≡ js_max a b }
{
    js::js_max(a, b)
}

#[unsafe(no_mangle)]
pub extern "C" fn qiluvrait_js_to_fixed(x: f64) -> f64
    ensures { result ≡ js_to_fixed x }
{
    js::js_to_fixed(x)
}

#[unsafe(no_mangle)]
pub extern "C" fn qiluvrait_sqrt(x: f64) -> f64
    ensures { result ≡ sqrt_of binary64 x }
{
    roots::sqrt(x)
}

#[unsafe(no_mangle)]
pub extern "C" fn qiluvrait_frame_at(t: f64) -> i64
    ensures { result ≡ frame_at t }
{
    frames::frame_at(t)
}

#[unsafe(no_mangle)]
pub extern "C" fn qiluvrait_frame_ceil(t: f64) -> i64
    ensures { result ≡ frame_ceil t }
{
    frames::frame_ceil(t)
}

#[unsafe(no_mangle)]
pub extern "C" fn qiluvrait_frame_from_zero(t: f64) -> i64
    ensures { result ≡ frame_from_zero t }
{
    frames::frame_from_zero(t)
}

#[unsafe(no_mangle)]
pub extern "C" fn qiluvrait_frame_seconds(k: i64) -> f64
    ensures { result ≡ frame_seconds k }
{
    frames::frame_seconds(k)
}

// What qiluvrait_envelope answers: refusal 0 and the floor, or the number of the refusal.
#[repr(C)]
#[derive(Drop)]
pub struct QiluvraitHeard {
    pub refusal: u32,
    pub floor: f64,
}

impl From<Result<f64, Refusal>> for QiluvraitHeard {
    ghost from_gives = { λ answer numbers. numbers ≡ heard_of answer };

    fn from(answer: Result<f64, Refusal>) -> QiluvraitHeard {
        match answer {
            Ok(floor) => QiluvraitHeard { refusal: 0, floor },
            Err(why) => QiluvraitHeard {
                refusal: u32::from(why),
                floor: 0.0,
            },
        }
    }
}

#[unsafe(no_mangle)]
pub extern "C" fn qiluvrait_envelope(samples: &[f32], levels: &mut [f64]) -> QiluvraitHeard
    ensures { (result ≡ heard_of (envelope_call samples.now levels.old).answer)
        × (levels.new ≡ (envelope_call samples.now levels.old).places) }
{
    QiluvraitHeard::from(envelope::envelope(samples, levels))
}

#[unsafe(no_mangle)]
pub extern "C" fn qiluvrait_own_floor(levels: &[f64], floor: f64) -> bool
    ensures { result ≡ own_floor levels.now floor }
{
    envelope::floor::own_floor(levels, floor)
}

// What qiluvrait_pieces answers: refusal 0 and the number of pieces, or the number of the refusal.
#[repr(C)]
#[derive(Drop)]
pub struct QiluvraitCut {
    pub refusal: u32,
    pub pieces: usize,
}

impl From<Result<usize, Refusal>> for QiluvraitCut {
    ghost from_gives = { λ answer numbers. numbers ≡ cut_of answer };

    fn from(answer: Result<usize, Refusal>) -> QiluvraitCut {
        match answer {
            Ok(pieces) => QiluvraitCut { refusal: 0, pieces },
            Err(why) => QiluvraitCut {
                refusal: u32::from(why),
                pieces: 0,
            },
        }
    }
}

#[unsafe(no_mangle)]
pub extern "C" fn qiluvrait_pieces(
    levels: &[f64],
    floor: f64,
    count: usize,
    starts: &mut [usize],
    ends: &mut [usize],
) -> QiluvraitCut
    ensures { (result ≡ cut_of (pieces_call levels.now floor count starts.old ends.old).answer)
        × ((starts.new
        ≡ (pieces_call levels.now floor count starts.old ends.old).starts)
        × (ends.new
        ≡ (pieces_call levels.now floor count starts.old ends.old).ends)) }
{
    QiluvraitCut::from(pieces::pieces(
        Envelope {
            levels,
            floor,
            count,
        },
        starts,
        ends,
    ))
}

// What qiluvrait_peak answers: refusal 0 and the level, or the number of the refusal.
#[repr(C)]
#[derive(Drop)]
pub struct QiluvraitLevel {
    pub refusal: u32,
    pub level: f64,
}

impl From<Result<f64, Refusal>> for QiluvraitLevel {
    ghost from_gives = { λ answer numbers. numbers ≡ level_of answer };

    fn from(answer: Result<f64, Refusal>) -> QiluvraitLevel {
        match answer {
            Ok(level) => QiluvraitLevel { refusal: 0, level },
            Err(why) => QiluvraitLevel {
                refusal: u32::from(why),
                level: 0.0,
            },
        }
    }
}

#[unsafe(no_mangle)]
pub extern "C" fn qiluvrait_peak(samples: &[f32], start: f64, end: f64) -> QiluvraitLevel
    ensures { result ≡ level_of (peak_call samples.now start end) }
{
    QiluvraitLevel::from(peak::peak(samples, Times { start, end }))
}

// What qiluvrait_collapse_loops answers: refusal 0, the words left and 1 where a loop was found, or the number of the refusal.
#[repr(C)]
#[derive(Drop)]
pub struct QiluvraitLeft {
    pub refusal: u32,
    pub found: u32,
    pub count: usize,
}

impl From<Result<Left, Refusal>> for QiluvraitLeft {
    ghost from_gives = { λ answer numbers. numbers ≡ left_of answer };

    fn from(answer: Result<Left, Refusal>) -> QiluvraitLeft {
        match answer {
            Ok(left) => QiluvraitLeft {
                refusal: 0,
                found: u32::from(left.found),
                count: left.count,
            },
            Err(why) => QiluvraitLeft {
                refusal: u32::from(why),
                found: 0,
                count: 0,
            },
        }
    }
}

#[unsafe(no_mangle)]
pub extern "C" fn qiluvrait_collapse_loops(
    starts: &mut [f64],
    ends: &mut [f64],
    letters: &mut [u32],
    units: &mut [u32],
    keys: &mut [u32],
) -> QiluvraitLeft
    ensures { let before = words starts.old ends.old letters.old units.old keys.old in
        let after = words starts.new ends.new letters.new units.new keys.new in
        leaves result after ≡ leaves_of (collapse_call before) }
{
    let answer = loops::collapse_loops(starts, ends, letters, units, keys);
    QiluvraitLeft::from(answer)
}

// An answer of a stage that moves the times of words, as a number: 0, or the refusal's.
fn moved(answer: Result<(), Refusal>) -> u32
    ensures { result ≡ moved_of answer }
{
    match answer {
        Ok(()) => 0,
        Err(why) => u32::from(why),
    }
}

#[unsafe(no_mangle)]
pub extern "C" fn qiluvrait_hand_back_tails(
    starts: &mut [f64],
    ends: &mut [f64],
    letters: &[u32],
    units: &[u32],
    keys: &[u32],
    levels: &[f64],
    floor: f64,
    count: usize,
) -> u32
    ensures { let before = words starts.old ends.old letters.now units.now keys.now in
        let after = words starts.new ends.new letters.now units.now keys.now in
        reply result after ≡ reply_of (tails_call before levels.now floor count) }
{
    let answer = tails::hand_back_tails(
        Envelope {
            levels,
            floor,
            count,
        },
        starts,
        ends,
        letters,
        units,
        keys,
    );
    moved(answer)
}

#[unsafe(no_mangle)]
pub extern "C" fn qiluvrait_snap_onsets(
    starts: &mut [f64],
    ends: &[f64],
    letters: &[u32],
    units: &[u32],
    keys: &[u32],
    levels: &[f64],
    floor: f64,
    count: usize,
) -> u32
    ensures { let before = words starts.old ends.now letters.now units.now keys.now in
        let after = words starts.new ends.now letters.now units.now keys.now in
        reply result after ≡ reply_of (onsets_call before levels.now floor count) }
{
    let answer = onsets::snap_onsets(
        Envelope {
            levels,
            floor,
            count,
        },
        starts,
        ends,
        letters,
        units,
        keys,
    );
    moved(answer)
}

#[unsafe(no_mangle)]
pub extern "C" fn qiluvrait_snap_ends(
    starts: &mut [f64],
    ends: &mut [f64],
    letters: &[u32],
    units: &[u32],
    keys: &[u32],
    levels: &[f64],
    floor: f64,
    count: usize,
    duration: f64,
) -> u32
    ensures { let before = words starts.old ends.old letters.now units.now keys.now in
        let after = words starts.new ends.new letters.now units.now keys.now in
        reply result after ≡ reply_of (ends_call before levels.now floor count duration) }
{
    let answer = ends::snap_ends(
        Envelope {
            levels,
            floor,
            count,
        },
        starts,
        ends,
        letters,
        units,
        keys,
        duration,
    );
    moved(answer)
}

// What qiluvrait_align_phrases answers: refusal 0 and the number of words placed, or the number of the refusal.
#[repr(C)]
#[derive(Drop)]
pub struct QiluvraitPlaced {
    pub refusal: u32,
    pub count: usize,
}

impl From<Result<usize, Refusal>> for QiluvraitPlaced {
    ghost from_gives = { λ answer numbers. numbers ≡ placed_of answer };

    fn from(answer: Result<usize, Refusal>) -> QiluvraitPlaced {
        match answer {
            Ok(count) => QiluvraitPlaced { refusal: 0, count },
            Err(why) => QiluvraitPlaced {
                refusal: u32::from(why),
                count: 0,
            },
        }
    }
}

#[unsafe(no_mangle)]
pub extern "C" fn qiluvrait_align_phrases(
    starts: &mut [f64],
    ends: &mut [f64],
    letters: &mut [u32],
    units: &mut [u32],
    keys: &mut [u32],
    span_starts: &[f64],
    span_ends: &[f64],
    counts: &[u32],
    phrases: &mut [u32],
) -> QiluvraitPlaced
    ensures { let before = words starts.old ends.old letters.old units.old keys.old in
        let after = words starts.new ends.new letters.new units.new keys.new in
        let all_spans = spans span_starts.now span_ends.now counts.now in
        placement result after phrases.new ≡ placement_of (align_call before all_spans phrases.old) }
{
    let answer = phrase_align::align_phrases(
        starts,
        ends,
        letters,
        units,
        keys,
        Spans {
            starts: span_starts,
            ends: span_ends,
            counts,
        },
        phrases,
    );
    QiluvraitPlaced::from(answer)
}

#[unsafe(no_mangle)]
pub extern "C" fn qiluvrait_even_out(
    starts: &mut [f64],
    ends: &mut [f64],
    letters: &[u32],
    units: &[u32],
    keys: &[u32],
    limit: f64,
) -> u32
    ensures { let before = words starts.old ends.old letters.now units.now keys.now in
        let after = words starts.new ends.new letters.now units.now keys.now in
        reply result after ≡ reply_of (even_call before limit) }
{
    let answer = even::even_out(starts, ends, letters, units, keys, limit);
    moved(answer)
}

// What qiluvrait_last_run answers: refusal 0, 1 where there is sound, and its two times, or the number of the refusal.
#[repr(C)]
#[derive(Drop)]
pub struct QiluvraitRun {
    pub refusal: u32,
    pub found: u32,
    pub start: f64,
    pub end: f64,
}

impl From<Option<Times>> for QiluvraitRun {
    ghost from_gives = { λ run numbers. numbers ≡ run_of run };

    fn from(run: Option<Times>) -> QiluvraitRun {
        match run {
            Some(w) => QiluvraitRun {
                refusal: 0,
                found: 1,
                start: w.start,
                end: w.end,
            },
            None => QiluvraitRun {
                refusal: 0,
                found: 0,
                start: 0.0,
                end: 0.0,
            },
        }
    }
}

impl From<Result<Option<Times>, Refusal>> for QiluvraitRun {
    ghost from_gives = { λ answer numbers. numbers ≡ searched_of answer };

    fn from(answer: Result<Option<Times>, Refusal>) -> QiluvraitRun {
        match answer {
            Ok(run) => QiluvraitRun::from(run),
            Err(why) => QiluvraitRun {
                refusal: u32::from(why),
                found: 0,
                start: 0.0,
                end: 0.0,
            },
        }
    }
}

#[unsafe(no_mangle)]
pub extern "C" fn qiluvrait_last_run(
    levels: &[f64],
    floor: f64,
    count: usize,
    from: f64,
    to: f64,
) -> QiluvraitRun
    ensures { result ≡ searched_of (last_run_call levels.now floor count from to) }
{
    QiluvraitRun::from(last_run::last_run(
        Envelope {
            levels,
            floor,
            count,
        },
        from,
        to,
    ))
}

#[unsafe(no_mangle)]
pub extern "C" fn qiluvrait_fit_to_sound(
    starts: &mut [f64],
    ends: &mut [f64],
    letters: &[u32],
    units: &[u32],
    keys: &[u32],
    levels: &[f64],
    floor: f64,
    count: usize,
    duration: f64,
) -> u32
    ensures { let before = words starts.old ends.old letters.now units.now keys.now in
        let after = words starts.new ends.new letters.now units.now keys.now in
        reply result after ≡ reply_of (fit_call before levels.now floor count duration) }
{
    let answer = fit_to_sound::fit_to_sound(
        Envelope {
            levels,
            floor,
            count,
        },
        starts,
        ends,
        letters,
        units,
        keys,
        duration,
    );
    moved(answer)
}

#[unsafe(no_mangle)]
pub extern "C" fn qiluvrait_fit_file(
    starts: &mut [f64],
    ends: &mut [f64],
    letters: &[u32],
    units: &[u32],
    keys: &[u32],
    phrases: &[u32],
    span_starts: &[f64],
    span_ends: &[f64],
    counts: &[u32],
    levels: &[f64],
    floor: f64,
    count: usize,
    work_starts: &mut [f64],
    work_ends: &mut [f64],
    work_letters: &mut [u32],
) -> u32
    ensures { let before = words starts.old ends.old letters.now units.now keys.now in
        let after = words starts.new ends.new letters.now units.now keys.now in
        let all_spans = spans span_starts.now span_ends.now counts.now in
        let room = work_places (length work_starts.old) (length work_ends.old) (length work_letters.old) in
        (reply result after
        ≡ reply_of (fit_file_call before phrases.now all_spans levels.now floor count room))
        × (Unchanged result work_starts.old work_starts.new
        × (Unchanged result work_ends.old work_ends.new
        × Unchanged result work_letters.old work_letters.new)) }
{
    let answer = fit_file::fit_file(
        Envelope {
            levels,
            floor,
            count,
        },
        starts,
        ends,
        letters,
        units,
        keys,
        phrases,
        Spans {
            starts: span_starts,
            ends: span_ends,
            counts,
        },
        work_starts,
        work_ends,
        work_letters,
    );
    moved(answer)
}

// What qiluvrait_full_run answers: refusal 0, the counts of pieces and words, the floor and 1 where a loop was found, or the number of the refusal.
#[repr(C)]
#[derive(Drop)]
pub struct QiluvraitReport {
    pub refusal: u32,
    pub found: u32,
    pub pieces: usize,
    pub words: usize,
    pub floor: f64,
}

impl From<Result<Report, Refusal>> for QiluvraitReport {
    ghost from_gives = { λ answer numbers. numbers ≡ report_of answer };

    fn from(answer: Result<Report, Refusal>) -> QiluvraitReport {
        match answer {
            Ok(report) => QiluvraitReport {
                refusal: 0,
                found: u32::from(report.found),
                pieces: report.pieces,
                words: report.words,
                floor: report.floor,
            },
            Err(why) => QiluvraitReport {
                refusal: u32::from(why),
                found: 0,
                pieces: 0,
                words: 0,
                floor: 0.0,
            },
        }
    }
}

#[unsafe(no_mangle)]
pub extern "C" fn qiluvrait_full_run(
    samples: &[f32],
    starts: &mut [f64],
    ends: &mut [f64],
    letters: &mut [u32],
    units: &mut [u32],
    keys: &mut [u32],
    span_starts: &[f64],
    span_ends: &[f64],
    counts: &[u32],
    phrases: &mut [u32],
    levels: &mut [f64],
    piece_starts: &mut [usize],
    piece_ends: &mut [usize],
    work_starts: &mut [f64],
    work_ends: &mut [f64],
    work_letters: &mut [u32],
) -> QiluvraitReport
    ensures { let before = words starts.old ends.old letters.old units.old keys.old in
        let after = words starts.new ends.new letters.new units.new keys.new in
        let all_spans = spans span_starts.now span_ends.now counts.now in
        let room = work_places (length work_starts.old) (length work_ends.old) (length work_letters.old) in
        (full_run_with result after phrases.new levels.new piece_starts.new piece_ends.new
        ≡ full_run_of
        (full_run
        (input samples.now before all_spans phrases.old levels.old
        piece_starts.old piece_ends.old room)))
        × (Unchanged result.refusal work_starts.old work_starts.new
        × (Unchanged result.refusal work_ends.old work_ends.new
        × Unchanged result.refusal work_letters.old work_letters.new)) }
{
    let answer = full_run::full_run(
        samples,
        starts,
        ends,
        letters,
        units,
        keys,
        Spans {
            starts: span_starts,
            ends: span_ends,
            counts,
        },
        phrases,
        levels,
        piece_starts,
        piece_ends,
        work_starts,
        work_ends,
        work_letters,
    );
    QiluvraitReport::from(answer)
}

#[unsafe(no_mangle)]
pub extern "C" fn qiluvrait_tally(
    starts: &[f64],
    ends: &[f64],
    letters: &[u32],
    units: &[u32],
    keys: &[u32],
    phrases: &[u32],
    span_starts: &[f64],
    span_ends: &[f64],
    counts: &[u32],
    levels: &[f64],
    floor: f64,
    count: usize,
    places: &mut [usize],
) -> u32
    ensures { let before = words starts.now ends.now letters.now units.now keys.now in
        let all_spans = spans span_starts.now span_ends.now counts.now in
        tallied result places.new
        ≡ tallied_of (tally_call before phrases.now all_spans levels.now floor count places.old) }
{
    let answer = tally::tally(
        Envelope {
            levels,
            floor,
            count,
        },
        starts,
        ends,
        letters,
        units,
        keys,
        phrases,
        Spans {
            starts: span_starts,
            ends: span_ends,
            counts,
        },
        places,
    );
    moved(answer)
}
