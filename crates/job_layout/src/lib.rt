// The job file's layout, read from bytes (document 01, "Tally, peak, job file").
#![tactic(auto)]

ghost use Rattle.std.specs.Prelude.{◌≡◌, ◌&&◌, ◌||◌, ◌+◌, ◌*◌, ◌<◌, ◌≤◌, eqb, ltb, length, IfOk};
ghost use Rattle.base.specs.Words.{words, spans};
ghost use Rattle.job_layout.specs.Layout.{u32_at, f64_at, f32_at, contents, words_from, spans_from, samples_from};
ghost use Rattle.job_layout.specs.Parts.{plan_of};

use base::Refusal;
use std::num::{f32_from_bits_with_nan, f64_from_bits_with_nan};

// Bytes of a table, of a word, of a span and of a sample.
pub const TABLE: usize = 24;

pub const WORD: usize = 28;

pub const SPAN: usize = 20;

pub const SAMPLE: usize = 4;

// How many words, spans and samples a job has.
#[derive(Drop)]
pub struct Numbers {
    pub words: usize,
    pub spans: usize,
    pub samples: usize,
}

// The u32 at a byte.
fn u32_at(bytes: &[u8], at: usize) -> u32
    requires { at + 4 ≤ length bytes.now }
    ensures { result ≡ u32_at bytes.now at }
{
    u32::from_le_bytes(bytes[at..at + 4].try_into().unwrap())
}

// The f64 at a byte; a NaN's bits give a NaN.
fn f64_at(bytes: &[u8], at: usize) -> f64
    requires { at + 8 ≤ length bytes.now }
    ensures { result ≡ f64_at bytes.now at }
{
    f64_from_bits_with_nan(u64::from_le_bytes(bytes[at..at + 8].try_into().unwrap()))
}

// The f32 at a byte; a NaN's bits give a NaN.
fn f32_at(bytes: &[u8], at: usize) -> f32
    requires { at + 4 ≤ length bytes.now }
    ensures { result ≡ f32_at bytes.now at }
{
    f32_from_bits_with_nan(u32_at(bytes, at))
}

// More words, spans or samples than a job may have (refusal 4).
fn too_many(words: usize, spans: usize, samples: usize) -> bool
    ensures { result ≡ (ltb 512 words || (ltb 64 spans || ltb 960159 samples)) }
{
    512 < words || 64 < spans || 960159 < samples
}

// Whether spans and samples follow the words, and these the table, without gaps.
fn gapless(words_at: usize, spans_at: usize, samples_at: usize, words: usize, spans: usize) -> bool
    requires { (words ≤ 512) × (spans ≤ 64) }
    ensures { result ≡ (eqb words_at 24 && (eqb spans_at (24 + 28 * words) && eqb samples_at (24 + 28 * words + 20 * spans))) }
{
    words_at == TABLE
        && spans_at == TABLE + WORD * words
        && samples_at == TABLE + WORD * words + SPAN * spans
}

// What a table says: the numbers first (refusal 4), then the offsets (refusal 5).
pub fn read_table(table: &[u8]) -> Result<Numbers, Refusal>
    requires { 24 ≤ length table.now }
    ensures plan { result ≡ plan_of (contents table.now) }
    ensures within { IfOk result (λ numbers. (numbers.words ≤ 512) × ((numbers.spans ≤ 64) × (numbers.samples ≤ 960159))) }
{
    let words = u32_at(table, 4) as usize;
    let spans = u32_at(table, 12) as usize;
    let samples = u32_at(table, 20) as usize;
    if too_many(words, spans, samples) {
        return Err(Refusal::Counts);
    }
    if !gapless(
        u32_at(table, 0) as usize,
        u32_at(table, 8) as usize,
        u32_at(table, 16) as usize,
        words,
        spans,
    ) {
        return Err(Refusal::Layout);
    }
    Ok(Numbers {
        words,
        spans,
        samples,
    })
}

// Reads the words: each list has a place for every word.
pub fn read_words(
    bytes: &[u8],
    starts: &mut [f64],
    ends: &mut [f64],
    letters: &mut [u32],
    units: &mut [u32],
    keys: &mut [u32],
)
    requires { (28 * length starts.old ≤ length bytes.now)
        × ((length ends.old ≡ length starts.old)
        × ((length letters.old ≡ length starts.old)
        × ((length units.old ≡ length starts.old) × (length keys.old ≡ length starts.old)))) }
    ensures { let after = words starts.new ends.new letters.new units.new keys.new in
        after ≡ words_from bytes.now 0 (length starts.old) }
{
    for i in 0..starts.len() {
        let at = WORD * i;
        starts[i] = f64_at(bytes, at);
        ends[i] = f64_at(bytes, at + 8);
        letters[i] = u32_at(bytes, at + 16);
        units[i] = u32_at(bytes, at + 20);
        keys[i] = u32_at(bytes, at + 24);
    }
}

// Reads the spans from a byte on: each list has a place for every span.
pub fn read_spans(
    bytes: &[u8],
    from: usize,
    starts: &mut [f64],
    ends: &mut [f64],
    counts: &mut [u32],
)
    requires { (from + 20 * length starts.old ≤ length bytes.now)
        × ((length ends.old ≡ length starts.old) × (length counts.old ≡ length starts.old)) }
    ensures { let all_spans = spans starts.new ends.new counts.new in
        all_spans ≡ spans_from bytes.now from (length starts.old) }
{
    for i in 0..starts.len() {
        let at = from + SPAN * i;
        starts[i] = f64_at(bytes, at);
        ends[i] = f64_at(bytes, at + 8);
        counts[i] = u32_at(bytes, at + 16);
    }
}

// Reads as many samples as there are places.
pub fn read_samples(bytes: &[u8], samples: &mut [f32])
    requires { 4 * length samples.old ≤ length bytes.now }
    ensures { samples.new ≡ samples_from bytes.now 0 (length samples.old) }
{
    for (i, sample) in samples.iter_mut().enumerate() {
        *sample = f32_at(bytes, SAMPLE * i);
    }
}
