// Starts in order, and moved to their sound; no word runs into the next (fit.rs, fit_to_sound, steps 1 to 3).
ghost use Rattle.std.specs.Prelude.{◌≡◌, ◌+◌, ◌<◌, ◌≤◌, ◌^◌, pos, length};
ghost use Rattle.base.specs.Words.{edges};
ghost use Rattle.fit_to_sound.specs.FitToSound.{step_start, in_order, put_in_order, is_loud_run, rise_frame, moved_to, rise_of, move_to_rise};
ghost use Rattle.fit_to_sound.specs.FitToSound.{clipped, clip as clip_all};
ghost use Rattle.fit_to_sound.specs.Parts.{stop_index, rise_from};
ghost use Rattle.envelope.specs.Frames.{loud_in};

use base::Times;
use envelope::frame_range::FrameRange;
use envelope::view::Envelope;

// From a word's start to the next, in seconds, it is no less.
const MIN_STEP: f64 = 0.02;
// A start in silence looks so far ahead for its sound, in seconds.
const SEARCH_AHEAD: f64 = 1.5;
// It stops so long before the next word's start, in seconds.
const BEFORE_NEXT: f64 = 0.05;
// A moved word keeps at most so much of its length, in seconds.
const MAX_KEEP: f64 = 0.5;
// So many loud frames in a row make a sound's start.
const LOUD_RUN: usize = 3;
// Word i's start, 0.02 s after the start before it at the least.
#[tactic(auto, unfolding(crate::specs::FitToSound::step_start))]
fn step_start(starts: &[f64], i: usize) -> f64
    requires { i < length starts.now }
    ensures { result ≡ step_start starts.now i }
{
    if 0 < i {
        return js::js_max(starts[i], starts[i - 1] + MIN_STEP);
    }
    starts[i]
}

// A word that ends no sooner than it starts, and no later than the duration.
#[tactic(auto, unfolding(crate::specs::FitToSound::in_order))]
fn in_order(duration: f64, w: Times) -> Times
    ensures { result ≡ in_order duration w }
{
    Times {
        start: w.start,
        end: js::js_min(duration, js::js_max(w.end, w.start)),
    }
}

// Puts starts in order, and ends behind them (fit_to_sound, step 1).
pub fn put_in_order(starts: &mut [f64], ends: &mut [f64], duration: f64)
    requires { length ends.old ≡ length starts.old }
    ensures { edges starts.new ends.new ≡ put_in_order duration (edges starts.old ends.old) }
{
    for i in 0..starts.len() {
        let w = in_order(
            duration,
            Times {
                start: step_start(starts, i),
                end: ends[i],
            },
        );
        starts[i] = w.start;
        ends[i] = w.end;
    }
}

// Whether frames k to k + 2, of which there are levels, are loud.
fn is_loud_run(e: Envelope<'_>, k: usize) -> bool
    requires { k + 2 < length e.levels.now }
    ensures { result ≡ is_loud_run (loud_in e.entry) (pos k) }
{
    // Each frame of a search comes here: all() over a range takes twice the instructions, and `loud` would look whether there is such a frame.
    e.levels[k] > e.floor && e.levels[k + 1] > e.floor && e.levels[k + 2] > e.floor
}

// The first of these frames at which a sound starts; where there is none, the end of the search, as the Rust's loop leaves its
// frame (an `Option` would be no plainer: its definition is that frame).
fn rise_frame(e: Envelope<'_>, r: FrameRange) -> usize
    requires { r.hi + 2 ≤ length e.levels.now }
    ensures { pos result ≡ rise_frame (loud_in e.entry) (pos r.lo) (pos r.hi) }
{
    for k in r.lo..r.hi {
        if is_loud_run(e, k) {
            return k;
        }
    }
    r.lo.max(r.hi)
}

// The frame at which a word's search stops before the next word; `last` where there is none.
#[tactic(auto, unfolding(crate::specs::Parts::stop_index))]
fn stop_before(next: Option<f64>, last: usize) -> usize
    ensures { result ≡ stop_index next last }
{
    next.map_or(last, |s| frames::index_at(s - BEFORE_NEXT))
}

// The word with another start; it keeps at most 0.5 s of its length, and ends no sooner than it did.
#[tactic(auto, unfolding(crate::specs::FitToSound::moved_to))]
fn moved_to(start: f64, w: Times) -> Times
    ensures { result ≡ moved_to start w }
{
    Times {
        start,
        end: js::js_max(w.end, start + js::js_min(MAX_KEEP, w.end - w.start)),
    }
}

// A word whose first frame f, of which three more follow, is quiet: it starts where its sound does, if that is soon enough.
fn rise_from(e: Envelope<'_>, f: usize, next: Option<f64>, w: Times) -> Times
    requires { f + 3 < length e.levels.now }
    ensures { result ≡ rise_from (loud_in e.entry) (pos f) next w }
{
    let last = e.levels.len() - LOUD_RUN;
    let ahead = last.min(frames::index_at(w.start + SEARCH_AHEAD));
    let stop = ahead.min(stop_before(next, last));
    let k = rise_frame(e, FrameRange { lo: f, hi: stop });
    if k < stop {
        return moved_to(frames::index_seconds(k), w);
    }
    w
}

// A word that starts in silence starts where its sound does (fit_to_sound, step 2).
fn rise_of(e: Envelope<'_>, next: Option<f64>, w: Times) -> Times
    ensures { result ≡ rise_of (loud_in e.entry) next w }
{
    let f = frames::index_at(w.start);
    if e.levels.len().saturating_sub(LOUD_RUN) <= f {
        return w;
    }
    if e.loud(f) {
        return w;
    }
    rise_from(e, f, next, w)
}

// Moves starts in silence to their sound.
pub fn move_to_rise(starts: &mut [f64], ends: &mut [f64], e: Envelope<'_>)
    requires { length ends.old ≡ length starts.old }
    ensures { edges starts.new ends.new ≡ move_to_rise (loud_in e.entry) (edges starts.old ends.old) }
{
    for i in 0..starts.len() {
        let next = ends::one_word::next_start(starts, i);
        let w = rise_of(
            e,
            next,
            Times {
                start: starts[i],
                end: ends[i],
            },
        );
        starts[i] = w.start;
        ends[i] = w.end;
    }
}

// A word that runs into the next one ends where that starts, but not before its own start.
#[tactic(auto, unfolding(crate::specs::FitToSound::clipped))]
fn clipped_to(next: f64, w: Times) -> Times
    ensures { result ≡ clipped next w }
{
    if w.end > next {
        return Times {
            start: w.start,
            end: js::js_max(w.start, next),
        };
    }
    w
}

// No word runs into the next one (fit_to_sound, step 3).
pub fn clip(starts: &[f64], ends: &mut [f64])
    requires { length ends.old ≡ length starts.now }
    ensures { edges starts.now ends.new ≡ clip_all (edges starts.now ends.old) }
{
    for i in 0..starts.len().saturating_sub(1) {
        let w = Times {
            start: starts[i],
            end: ends[i],
        };
        ends[i] = clipped_to(starts[i + 1], w).end;
    }
}
