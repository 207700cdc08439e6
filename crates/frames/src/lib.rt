// Frames of a time, and seconds of a frame (envelope.rs).
#![tactic(auto)]

ghost use Rattle.std.specs.Prelude.{◌≡◌, ◌-◌, ◌*◌, ◌^◌, min, pos, int_lt};
ghost use Rattle.std.specs.Float.{binary64};
ghost use Rattle.std.specs.Float.Ieee.{of_int};
ghost use Rattle.base.specs.Whole.{to_nat};
ghost use Rattle.frames.specs.Frames.{in_frames, floor_i64, ceil_i64, frame_at, frame_ceil, frame_from_zero, frame_seconds};
ghost use Rattle.frames.specs.Parts.{ceil_unsigned};

use std::num::saturating_f64_to_u64;

// Samples in a second.
pub const RATE: f64 = 16000.0;

// Samples in a frame.
const HOP: f64 = base::HOP as f64;

// The largest i64, where `frame_at` and `frame_ceil` end.
const LARGEST: u64 = i64::MAX as u64;

// A time in frames: times the rate, rounded once, divided by the hop, rounded once (envelope.rs).
fn in_frames(t: f64) -> f64
    ensures { result ≡ in_frames t }
{
    (t * RATE) / HOP
}

// x rounded up, from 0 to 2^64 - 1; from 2^53 on every f64 is a whole number. By std's ceil it would be slower, as `floor_i64` says.
fn ceil_whole(x: f64) -> u64
    ensures { result ≡ ceil_unsigned x }
{
    let k = saturating_f64_to_u64(x);
    if k < 0x20_0000_0000_0000 {
        if (k as f64) < x {
            return k + 1;
        }
        return k;
    }
    k
}

// n, or the largest i64 where n is above it: by a branch, for by i64::try_from each call of `frame_at` took a fifth longer.
fn to_i64(n: u64) -> i64
    ensures { result ≡ pos (min n (2 ^ 63 - 1)) }
{
    if n < 0x8000_0000_0000_0000 {
        n as i64
    } else {
        i64::MAX
    }
}

// Rust's x.floor() as i64, by the sign of x: by std's floor it took nearly three times as long.
pub fn floor_i64(x: f64) -> i64
    ensures { result ≡ floor_i64 x }
{
    if x < 0.0 {
        return 0i64.saturating_sub_unsigned(ceil_whole(-x));
    }
    to_i64(saturating_f64_to_u64(x))
}

// Rust's x.ceil() as i64, by the sign of x: by std's ceil it took nearly twice as long.
pub fn ceil_i64(x: f64) -> i64
    ensures { result ≡ ceil_i64 x }
{
    if x < 0.0 {
        return 0i64.saturating_sub_unsigned(saturating_f64_to_u64(-x));
    }
    to_i64(ceil_whole(x))
}

// Whether a frame lies before frame 0.
pub fn before_zero(k: i64) -> bool
    ensures { result ≡ int_lt k (pos 0) }
{
    k < 0
}

// A frame as an index, raised to 0 (Rust's k.max(0) as usize).
pub fn to_index(k: i64) -> usize
    ensures { result ≡ to_nat k }
{
    usize::try_from(k).unwrap_or(0)
}

// floor(t * 16000 / 160) (envelope.rs, frame_at).
pub fn frame_at(t: f64) -> i64
    ensures { result ≡ frame_at t }
{
    floor_i64(in_frames(t))
}

// ceil(t * 16000 / 160) (envelope.rs, frame_ceil).
pub fn frame_ceil(t: f64) -> i64
    ensures { result ≡ frame_ceil t }
{
    ceil_i64(in_frames(t))
}

// The frame of a time, never before frame 0 (envelope.rs, frame_from_zero).
pub fn frame_from_zero(t: f64) -> i64
    ensures { result ≡ frame_from_zero t }
{
    frame_at(t).max(0)
}

// The frame of a time, as an index: a frame before frame 0 is raised to it.
pub fn index_at(t: f64) -> usize
    ensures { result ≡ to_nat (frame_at t) }
{
    saturating_f64_to_u64(in_frames(t)).min(LARGEST) as usize
}

// The frame of a time, rounded up, as an index.
pub fn index_ceil(t: f64) -> usize
    ensures { result ≡ to_nat (frame_ceil t) }
{
    ceil_whole(in_frames(t)).min(LARGEST) as usize
}

// The samples before frame n, rounded once: both halves of n * 160 are exact, and only their sum rounds.
fn samples(n: u64) -> f64
    ensures { result ≡ of_int binary64 (pos (n * 160)) }
{
    ((n / 0x1_0000_0000 * 160) as f64) * 4294967296.0 + ((n % 0x1_0000_0000 * 160) as f64)
}

// The time at which the frame of an index starts, in seconds.
pub fn index_seconds(k: usize) -> f64
    ensures { result ≡ frame_seconds (pos k) }
{
    samples(k as u64) / RATE
}

// The time at which frame k starts, in seconds (envelope.rs, frame_seconds).
pub fn frame_seconds(k: i64) -> f64
    ensures { result ≡ frame_seconds k }
{
    let s = index_seconds(k.unsigned_abs() as usize);
    if k < 0 {
        return -s;
    }
    s
}
