// The levels of a recording: one for each frame (envelope.rs, envelope).
ghost use Rattle.std.specs.Prelude.{◌≡◌, ◌+◌, ◌-◌, ◌*◌, ◌≤◌, true, ◌++◌, length, drop};
ghost use Rattle.std.specs.Float.{binary64};
ghost use Rattle.std.specs.Float.Ieee.{div};
ghost use Rattle.base.specs.Loop.{each};
ghost use Rattle.roots.specs.Sqrt.{sqrt as sqrt_of};
ghost use Rattle.envelope.specs.Envelope.{squares as squares_of, level as level_of, levels as levels_of, frames, hop_f};
ghost use Rattle.envelope.specs.Parts.{NoNan, Summed, stored};
ghost use Rattle.envelope.specs.Sound.{SameLists};

use super::sound::{FourFrames, Sound};
use base::HOP;
use std::num::f32_to_f64_with_nan;

// Samples in four frames.
const FOUR_HOPS: usize = 4 * HOP;

// The sums of squares of four neighbouring frames.
#[derive(Drop)]
struct Four {
    first: f64,
    second: f64,
    third: f64,
    fourth: f64,
}

// The squares of a frame's samples, widened and added in order from 0 (envelope.rs, envelope).
fn squares(frame: &[f32]) -> f64
    ensures { result ≡ squares_of frame.now }
{
    let mut e = 0.0;
    for s in frame {
        let s = f32_to_f64_with_nan(*s);
        e += s * s;
    }
    e
}

// No sample of four frames is a NaN: a test of each, for by `all`, which ends early, it took nearly a third longer.
fn no_nan(part: FourFrames<'_>) -> bool
    ensures { result ≡ true → NoNan part.entry.samples.now }
{
    let mut ok = true;
    for i in 0..FOUR_HOPS {
        ok &= !part.samples[i].is_nan();
    }
    ok
}

// The squares of four frames that hold no NaN, each frame's added in order from 0, the four sums side by side.
fn squares_side_by_side(part: FourFrames<'_>) -> Four
    requires { NoNan part.samples.now }
    ensures { Summed part.entry.samples.now result }
{
    let mut first = 0.0;
    let mut second = 0.0;
    let mut third = 0.0;
    let mut fourth = 0.0;
    for i in 0..HOP {
        let w = part.samples[i] as f64;
        let x = part.samples[160 + i] as f64;
        let y = part.samples[320 + i] as f64;
        let z = part.samples[480 + i] as f64;
        first += w * w;
        second += x * x;
        third += y * y;
        fourth += z * z;
    }
    Four {
        first,
        second,
        third,
        fourth,
    }
}

// The squares of four frames, one frame after another.
fn squares_in_turn(part: FourFrames<'_>) -> Four
    ensures { Summed part.entry.samples.now result }
{
    let first = squares(&part.samples[0..160]);
    let second = squares(&part.samples[160..320]);
    let third = squares(&part.samples[320..480]);
    let fourth = squares(&part.samples[480..640]);
    Four {
        first,
        second,
        third,
        fourth,
    }
}

// The squares of four frames: in turn where a sample is a NaN, which no plain cast widens.
fn four_squares(part: FourFrames<'_>) -> Four
    ensures { Summed part.entry.samples.now result }
{
    if no_nan(part) {
        return squares_side_by_side(part);
    }
    squares_in_turn(part)
}

// The root of the mean of a frame's squares (envelope.rs, envelope).
fn root_mean(sum: f64) -> f64
    ensures { result ≡ sqrt_of binary64 (div binary64 sum hop_f) }
{
    roots::sqrt(sum / 160.0)
}

// The level of a frame (envelope.rs, envelope).
fn level(frame: &[f32]) -> f64
    ensures { result ≡ level_of frame.now }
{
    root_mean(squares(frame))
}

// Writes the levels of four frames from frame k on to their places.
fn store_four(s: &mut Sound<'_>, k: usize)
    requires { k * 160 + 640 ≤ length s.old.samples.now }
    ensures same { SameLists s.old s.new }
    ensures stored { s.new.levels.now ≡ each (stored s.old.samples.now) 4 k s.old.levels.now }
{
    let from = k * HOP;
    let to = from + FOUR_HOPS;
    let sums = four_squares(FourFrames {
        samples: &s.samples[from..to],
    });
    s.levels[k] = root_mean(sums.first);
    s.levels[k + 1] = root_mean(sums.second);
    s.levels[k + 2] = root_mean(sums.third);
    s.levels[k + 3] = root_mean(sums.fourth);
}

// Writes the levels of the frames, four at a time; how many it wrote.
fn fill_fours(s: &mut Sound<'_>) -> usize
    ensures same { SameLists s.old s.new }
    ensures stored { let samples = s.old.samples.now in
        (result ≤ frames samples)
        × (each (stored samples) (frames samples) 0 s.old.levels.now
        ≡ each (stored samples) (frames samples - result) result s.new.levels.now) }
{
    let fours = s.samples.len() / FOUR_HOPS;
    for i in 0..fours {
        store_four(s, i * 4);
    }
    fours * 4
}

// Writes the levels of the frames from frame `from` on.
fn fill_rest(s: &mut Sound<'_>, from: usize)
    ensures same { SameLists s.old s.new }
    ensures stored { let samples = s.old.samples.now in
        s.new.levels.now ≡ each (stored samples) (frames samples - from) from s.old.levels.now }
{
    for k in from..s.samples.len() / HOP {
        let a = k * HOP;
        let b = a + HOP;
        s.levels[k] = level(&s.samples[a..b]);
    }
}

// Writes the level of each frame to its place.
fn fill_all(s: &mut Sound<'_>)
    ensures same { SameLists s.old s.new }
    ensures filled { let samples = s.old.samples.now in
        s.new.levels.now ≡ levels_of samples ++ drop (frames samples) s.old.levels.now }
{
    let k = fill_fours(s);
    fill_rest(s, k);
}

// Writes the level of each frame to its place (envelope.rs, envelope).
pub fn fill(samples: &[f32], levels: &mut [f64])
    requires { frames samples.now ≤ length levels.old }
    ensures { levels.new ≡ levels_of samples.now ++ drop (frames samples.now) levels.old }
{
    let mut s = Sound { samples, levels };
    fill_all(&mut s);
}
