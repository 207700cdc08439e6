// What a word's samples hold: the largest magnitude (transcriber.rs, peak).
#![tactic(auto)]

ghost use Rattle.std.specs.Prelude.{◌≡◌, ◌≤◌, min, length, pos, from_bits};
ghost use Rattle.std.specs.Float.{binary64};
ghost use Rattle.base.specs.Whole.{to_nat};
ghost use Rattle.base.specs.Loop.{range};
ghost use Rattle.base.specs.Refusals.{first};
ghost use Rattle.peak.specs.Peak.{peak_turn, word_peak, tests, peak_call};

use base::{Refusal, Times};
use frames::RATE;

// The largest magnitude of the samples from one to before another (transcriber.rs, peak).
fn loudest(samples: &[f32], from: usize, to: usize) -> f64
    requires { to ≤ length samples.now }
    ensures { result ≡ range (peak_turn samples.now) (pos from) (pos to) (from_bits binary64 0) }
{
    let mut peak = 0.0;
    for i in from..to {
        let s = std::num::f32_to_f64_with_nan(samples[i]);
        peak = js::js_max(peak, s.abs());
    }
    peak
}

// The sample that a range ends before: k, or n where there are fewer; 0 where k is before the first sample.
fn end_index(n: usize, k: i64) -> usize
    ensures { result ≡ min n (to_nat k) }
{
    n.min(frames::to_index(k))
}

// The largest magnitude of the samples that a word spans, for any times; NaN where it reaches before sample 0 (transcriber.rs, peak).
fn word_peak(samples: &[f32], w: Times) -> f64
    ensures { result ≡ word_peak samples.now w.start w.end }
{
    let from = frames::floor_i64(w.start * RATE);
    let to = frames::ceil_i64(w.end * RATE);
    if from < 0 {
        if from < to {
            return f64::NAN;
        }
        return 0.0;
    }
    loudest(samples, from as usize, end_index(samples.len(), to))
}

// The first refusal that applies, of 4 and 1.
#[tactic(auto, unfolding(crate::specs::Peak::tests, base::specs::Refusals::first))]
fn judge(samples: &[f32], w: Times) -> Result<(), Refusal>
    ensures { result ≡ first (tests samples.now w.start w.end) }
{
    if limits::sizes::many_samples(samples.len()) {
        return Err(Refusal::Counts);
    }
    if limits::times::bad_time(w.start) || limits::times::bad_time(w.end) {
        return Err(Refusal::Time);
    }
    Ok(())
}

// The largest magnitude of the samples that a word spans, for times within the limits (transcriber.rs, peak).
pub fn peak(samples: &[f32], w: Times) -> Result<f64, Refusal>
    ensures { result ≡ peak_call samples.now w.start w.end }
{
    judge(samples, w)?;
    Ok(word_peak(samples, w))
}
