// The tail of sound that one word hands back to the word before, if there is one (onsets.rs, hand_back_tails).
ghost use Rattle.std.specs.Prelude.{◌≡◌, ◌<◌, ◌≤◌, ◌^◌, pos};
ghost use Rattle.std.specs.Float.Ieee.{le};
ghost use Rattle.base.specs.Floats.{◌⊗◌, num};
ghost use Rattle.frames.specs.Frames.{frame_seconds};
ghost use Rattle.tails.specs.Tails.{min_letter, hand_back};
ghost use Rattle.tails.specs.Parts.{across as across_at, lands as lands_at, below, three};
ghost use Rattle.envelope.specs.Frames.{loud_in};

use base::{EDGE_QUIET, LOOSE, MIN_LETTER, Times};
use envelope::view::Envelope;

// No word's letters need a sound of so many frames: 1,000 letters need 50 s.
const MAX_TAIL: usize = 5001;
// So many loud frames in a row, 30 ms, are a word's own sound.
const MIN_RUN: usize = 3;

// Two words in a row: the times of the one before, and of the word itself.
#[derive(Drop)]
pub struct Neighbours {
    pub prev: Times,
    pub w: Times,
}

// The sound runs across the start of a frame.
#[tactic(auto, unfolding(crate::specs::Parts::across))]
fn across(e: Envelope<'_>, f: usize) -> bool
    ensures { result ≡ across_at (loud_in e.entry) f }
{
    f > 0 && e.loud(f - 1) && e.loud(f)
}

// A word that starts on the tail of the word before it, in frame f.
#[tactic(auto, unfolding(crate::specs::Parts::lands))]
fn lands(e: Envelope<'_>, prev_end: f64, start: f64, f: usize) -> bool
    ensures { result ≡ lands_at (loud_in e.entry) prev_end start f }
{
    let is_loose = start - prev_end >= LOOSE;
    !is_loose && across(e, f)
}

// A sound that is as long as the letters need.
fn is_long(n: usize, letters: u32) -> bool
    ensures { result ≡ le (min_letter ⊗ num letters) (frame_seconds (pos n)) }
{
    frames::index_seconds(n) >= MIN_LETTER * (letters as f64)
}

// A loud frame before hi.
#[tactic(auto, unfolding(crate::specs::Parts::below))]
fn loud_below(e: Envelope<'_>, hi: usize, k: usize) -> bool
    ensures { result ≡ below (loud_in e.entry) hi k }
{
    k < hi && e.loud(k)
}

// Three loud frames from k on.
#[tactic(auto, unfolding(crate::specs::Parts::three))]
fn own_sound(e: Envelope<'_>, hi: usize, k: usize) -> bool
    requires { k < 2 ^ 62 }
    ensures { result ≡ three (loud_in e.entry) hi k }
{
    (k..k + MIN_RUN).all(|j| loud_below(e, hi, j))
}

// A word hands its tail of sound back to the word before it, if it starts on one.
pub fn hand_back(e: Envelope<'_>, p: Neighbours, letters: u32) -> Neighbours
    requires { letters ≤ 1000 }
    ensures { result ≡ hand_back (loud_in e.entry) p letters }
{
    let f = frames::index_at(p.w.start);
    if !lands(e, p.prev.end, p.w.start, f) {
        return p;
    }
    let hi = e.levels.len().min(frames::index_at(p.w.end));
    let far = hi.min(f + MAX_TAIL);
    // The frame past the tail, or where the search for it ends.
    let t = e.first_frame(false, f, far).unwrap_or(far.max(f));
    if MAX_TAIL <= t - f {
        return p;
    }
    if is_long(t - f, letters) {
        return p;
    }
    let Some(k) = e.first_frame(true, t, hi) else {
        return p;
    };
    if k - t < EDGE_QUIET {
        return p;
    }
    if !own_sound(e, hi, k) {
        return p;
    }
    let prev = Times {
        start: p.prev.start,
        end: js::js_max(p.prev.end, frames::index_seconds(t)),
    };
    let w = Times {
        start: frames::index_seconds(k),
        end: p.w.end,
    };
    Neighbours { prev, w }
}
