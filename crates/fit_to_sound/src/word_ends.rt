// Ends settled on their sound (fit.rs, fit_to_sound, steps 5 and 6).
ghost use Rattle.std.specs.Prelude.{◌≡◌, ◌<◌, pos, length, Float, Bool, List};
ghost use Rattle.base.specs.Words.{edges};
ghost use Rattle.fit_to_sound.specs.FitToSound.{sound_end_in, quiet_between, quiet_run, cut_back, lasts_to, ended_by, end_of, settle_ends};
ghost use Rattle.fit_to_sound.specs.Parts.{counted as counted_of, is_loose};
ghost use Rattle.envelope.specs.Frames.{loud_in};

use base::{END_SILENCE, LOOSE, MIN_LETTER, Times};
use envelope::frame_range::FrameRange;
use envelope::view::Envelope;

// A cut leaves a word so much, in seconds, or what its letters need.
const MAX_NEED: f64 = 0.3;

// Where the sound that starts between two times ends, or no sound (fit.rs, sound_end).
fn sound_end_in(e: Envelope<'_>, from: f64, to: f64) -> Option<f64>
    ensures { result ≡ sound_end_in (loud_in e.entry) from to }
{
    ends::sound::sound_end_in(e, END_SILENCE, e.between(from, to))
}

// So many quiet frames in a row, with one frame more.
#[tactic(auto, unfolding(crate::specs::Parts::counted))]
fn counted(run: usize, loud: bool) -> usize
    requires { run < 15 }
    ensures { result ≡ counted_of loud run }
{
    if loud {
        return 0;
    }
    run + 1
}

// Whether 15 quiet frames in a row are among these.
fn quiet_between(e: Envelope<'_>, r: FrameRange) -> bool
    ensures { result ≡ quiet_between (loud_in e.entry) (pos r.lo) (pos r.hi) }
{
    let mut run = 0;
    for k in r.lo..r.hi {
        run = counted(run, e.loud(k));
        if run >= END_SILENCE {
            return true;
        }
    }
    false
}

// Whether 150 ms of silence lie between two times (fit.rs, quiet_run).
fn quiet_run(e: Envelope<'_>, from: f64, to: f64) -> bool
    ensures { result ≡ quiet_run (loud_in e.entry) from to }
{
    quiet_between(e, e.between(from, to))
}

// Whether a word's end lies too far past its sound's end, and the sound is long enough for its letters.
#[tactic(auto, unfolding(crate::specs::Parts::is_loose))]
fn is_loose(letters: u32, end: f64, w: Times) -> bool
    ensures { result ≡ is_loose letters end w }
{
    w.end > end + LOOSE && end - w.start >= js::js_min(MAX_NEED, MIN_LETTER * (letters as f64))
}

// A loose end is cut back to its sound's end (fit_to_sound, step 5).
#[tactic(auto, unfolding(crate::specs::FitToSound::cut_back, crate::specs::Parts::is_loose))]
fn cut_back(letters: u32, end: f64, w: Times) -> Times
    ensures { result ≡ cut_back letters end w }
{
    if is_loose(letters, end, w) {
        return Times {
            start: w.start,
            end,
        };
    }
    w
}

// A word whose next one starts at `next` lasts until that, where no silence lies between.
#[tactic(auto, unfolding(crate::specs::FitToSound::lasts_to))]
fn lasts_to_next(e: Envelope<'_>, next: f64, w: Times) -> Times
    ensures { (end : Float) → result ≡ lasts_to (loud_in e.entry) (Some next) end w }
{
    if next > w.end && !quiet_run(e, w.end, next) {
        return Times {
            start: w.start,
            end: next,
        };
    }
    w
}

// The last word lasts until its sound's end.
#[tactic(auto, unfolding(crate::specs::FitToSound::lasts_to))]
fn lasts_to_end(end: f64, w: Times) -> Times
    ensures { (row : List Bool) → result ≡ lasts_to row None end w }
{
    if end > w.end {
        return Times {
            start: w.start,
            end,
        };
    }
    w
}

// A word lasts until the next one, where no silence lies between; the last one until its sound's end (fit_to_sound, step 6).
fn lasts_to(e: Envelope<'_>, next: Option<f64>, end: f64, w: Times) -> Times
    ensures { result ≡ lasts_to (loud_in e.entry) next end w }
{
    match next {
        Some(s) => lasts_to_next(e, s, w),
        None => lasts_to_end(end, w),
    }
}

// A word's times, by where its sound ends.
fn ended_by(e: Envelope<'_>, next: Option<f64>, letters: u32, sound: Option<f64>, w: Times) -> Times
    ensures { result ≡ ended_by (loud_in e.entry) next letters sound w }
{
    match sound {
        None => w,
        Some(end) => lasts_to(e, next, end, cut_back(letters, end, w)),
    }
}

// A word's times, its end settled on its sound.
fn end_of(e: Envelope<'_>, duration: f64, next: Option<f64>, letters: u32, w: Times) -> Times
    ensures { result ≡ end_of (loud_in e.entry) duration next letters w }
{
    let sound = sound_end_in(e, w.start, ends::one_word::or_duration(next, duration));
    ended_by(e, next, letters, sound, w)
}

// Settles each word's end on its sound.
pub fn settle_ends(
    starts: &[f64],
    ends: &mut [f64],
    letters: &[u32],
    e: Envelope<'_>,
    duration: f64,
)
    requires { (length ends.old ≡ length starts.now) × (length letters.now ≡ length starts.now) }
    ensures { let before = edges starts.now ends.old in
        let after = edges starts.now ends.new in
        after ≡ settle_ends (loud_in e.entry) duration letters.now before }
{
    for i in 0..starts.len() {
        let w = Times {
            start: starts[i],
            end: ends[i],
        };
        let next = ends::one_word::next_start(starts, i);
        let settled = end_of(e, duration, next, letters[i], w);
        ends[i] = settled.end;
    }
}
