// Starts after a pause, moved back to where the sound rises (onsets.rs, snap_onsets).
#![tactic(auto)]

ghost use Rattle.std.specs.Prelude.{◌≡◌, max, ◌-◌, ◌≤◌, pos, length};
ghost use Rattle.base.specs.Words.{words, edges};
ghost use Rattle.word_calls.specs.Calls.{output};
ghost use Rattle.onsets.specs.Onsets.{onset_frame, onset_of, prev_end, snap_onsets, onsets_call};
ghost use Rattle.onsets.specs.Parts.{onset_seconds, goes_on};
ghost use Rattle.envelope.specs.Frames.{loud_in};

use base::word_lists::WordLists;
use base::{EDGE_QUIET, Refusal, Times};
use envelope::view::Envelope;

// From so many seconds on, what lies between two words is a pause.
const PAUSE: f64 = 0.15;
// So many frames before its own a start may reach.
const MAX_BACK: usize = 60;

// So many frames before frame f, but not before frame lo.
fn frames_back(lo: usize, f: usize, back: usize) -> usize
    ensures { result ≡ max lo (f - back) }
{
    lo.max(f.saturating_sub(back))
}

// The earliest loud frame before f that is reached, down to lo, without 8 quiet ones in a row; f where there is none.
fn onset_back(e: Envelope<'_>, lo: usize, f: usize) -> usize
    ensures { pos result ≡ onset_frame (loud_in e.entry) (pos f) (pos lo) }
{
    let mut onset = f;
    while lo < onset {
        let from = frames_back(lo, onset, EDGE_QUIET);
        let Some(k) = e.first_frame(true, from, onset) else {
            return onset;
        };
        onset = k;
    }
    onset
}

// The time at which the sound of a start rises; a start before frame 0 has its own frame's time.
fn onset_seconds(e: Envelope<'_>, prev_end: f64, start: f64) -> f64
    ensures { result ≡ onset_seconds (loud_in e.entry) prev_end start }
{
    let z = frames::frame_at(start);
    if frames::before_zero(z) {
        return frames::frame_seconds(z);
    }
    let f = frames::to_index(z);
    let lo = frames_back(frames::index_ceil(prev_end), f, MAX_BACK);
    frames::index_seconds(onset_back(e, lo, f))
}

// A word that follows no pause.
#[tactic(auto, unfolding(crate::specs::Parts::goes_on))]
fn goes_on(i: usize, prev_end: f64, start: f64) -> bool
    ensures { result ≡ goes_on i prev_end start }
{
    i > 0 && start - prev_end < PAUSE
}

// Word i's times, its start where its sound rises.
#[tactic(auto, unfolding(crate::specs::Onsets::onset_of, crate::specs::Parts::goes_on, crate::specs::Parts::onset_seconds))]
fn snap_onset(e: Envelope<'_>, i: usize, prev_end: f64, w: Times) -> Times
    ensures { result ≡ onset_of (loud_in e.entry) i prev_end w }
{
    if goes_on(i, prev_end, w.start) {
        return w;
    }
    let start = onset_seconds(e, prev_end, w.start);
    Times {
        start: js::js_min(w.start, start),
        end: w.end,
    }
}

// Where the word before word i ends; 0 for the first word, as the Rust has it (an `Option` would be no plainer: the search goes back to that 0).
#[tactic(auto, unfolding(crate::specs::Onsets::prev_end))]
fn prev_end_at(ends: &[f64], i: usize) -> f64
    requires { i ≤ length ends.now }
    ensures { result ≡ prev_end ends.now i }
{
    if i > 0 { ends[i - 1] } else { 0.0 }
}

// Moves the start of each word after a pause back to where its sound rises (onsets.rs, snap_onsets); nothing is checked.
pub fn move_onsets(starts: &mut [f64], ends: &[f64], e: Envelope<'_>)
    requires { length ends.now ≡ length starts.old }
    ensures { let before = edges starts.old ends.now in
        let after = edges starts.new ends.now in
        after ≡ snap_onsets (loud_in e.entry) before }
{
    for i in 0..starts.len() {
        let w = Times {
            start: starts[i],
            end: ends[i],
        };
        let t = snap_onset(e, i, prev_end_at(ends, i), w);
        starts[i] = t.start;
    }
}

// Moves starts back to where the sound rises, of words and levels within the limits (onsets.rs, snap_onsets).
pub fn snap_onsets(
    e: Envelope<'_>,
    starts: &mut [f64],
    ends: &[f64],
    letters: &[u32],
    units: &[u32],
    keys: &[u32],
) -> Result<(), Refusal>
    ensures { let before = words starts.old ends.now letters.now units.now keys.now in
        let after = words starts.new ends.now letters.now units.now keys.now in
        output result after ≡ onsets_call before e.entry.levels.now e.entry.floor e.entry.count }
{
    word_calls::sound_rule(
        WordLists {
            starts,
            ends,
            letters,
            units,
            keys,
        },
        e.levels.len(),
        e.count,
    )?;
    move_onsets(starts, ends, e);
    Ok(())
}
