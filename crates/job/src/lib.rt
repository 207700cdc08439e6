// A job, from its bytes to the text that is printed for it (document 01, "Tally, peak, job file").
#![tactic(auto)]

ghost use Rattle.std.specs.Prelude.{◌≡◌, List, ◌++◌, ℕ, ◌+◌, ◌*◌, ◌/◌, ◌≤◌, length, take, drop, IfOk, IfErr, Float};
ghost use Rattle.envelope.specs.Envelope.{levels as levels_of};
ghost use Rattle.job_layout.specs.Layout.{contents, samples_from};
ghost use Rattle.job.specs.Printed.{answer_text, printed};
ghost use Rattle.job.specs.Came.{Came};
ghost use Rattle.job_text.specs.Text.{refused_line};
ghost use Rattle.base.specs.Refusals.{number};
ghost use Rattle.job.specs.Parts.{Printable, Sized, Holding, Whole};

use base::spans::Spans;
use base::{HOP, Refusal};
use full_run::Report;
use job_layout::{Numbers, SAMPLE, SPAN, TABLE, WORD};
use job_text::writer::Writer;

// The levels of samples that are given as bytes; the samples themselves are work space.
pub fn hear(bytes: &[u8], samples: &mut [f32], levels: &mut [f64])
    requires { (4 * length samples.old ≤ length bytes.now) × (length samples.old / 160 ≤ length levels.old) }
    ensures { levels.new
        ≡ levels_of (samples_from bytes.now 0 (length samples.old)) ++ drop
        (length samples.old / 160) levels.old }
{
    job_layout::read_samples(bytes, samples);
    envelope::level::fill(samples, levels);
}

// Writes what is printed for an answer; gives back how many bytes it has.
fn print(
    out: &mut [u8],
    answer: Result<Report, Refusal>,
    spans: usize,
    starts: &[f64],
    ends: &[f64],
    phrases: &[u32],
    piece_starts: &[usize],
    piece_ends: &[usize],
) -> usize
    requires { Printable answer starts.now ends.now phrases.now piece_starts.now piece_ends.now (length out.old) }
    ensures { (take result out.new
        ≡ answer_text spans answer starts.now ends.now phrases.now
        piece_starts.now piece_ends.now)
        × (result ≤ length out.old) }
{
    let mut text = Writer { bytes: out, at: 0 };
    match answer {
        Err(why) => {
            job_text::put_refused(&mut text, u32::from(why));
            text.at
        }
        Ok(report) => {
            job_text::put_pieces(&mut text, piece_starts, piece_ends, report.pieces);
            job_text::put_words(&mut text, spans, starts, ends, phrases, report.words);
            text.at
        }
    }
}

// Writes what is printed for a job whose layout holds: `bodies` are the bytes of its words and spans, `levels` those of its `count` samples.
pub fn answer(
    bodies: &[u8],
    levels: &[f64],
    count: usize,
    starts: &mut [f64],
    ends: &mut [f64],
    letters: &mut [u32],
    units: &mut [u32],
    keys: &mut [u32],
    span_starts: &mut [f64],
    span_ends: &mut [f64],
    counts: &mut [u32],
    phrases: &mut [u32],
    piece_starts: &mut [usize],
    piece_ends: &mut [usize],
    work_starts: &mut [f64],
    work_ends: &mut [f64],
    work_letters: &mut [u32],
    out: &mut [u8],
) -> usize
    requires { Sized (length bodies.now) (length levels.now) count (length starts.old) (length ends.old)
        (length letters.old) (length units.old) (length keys.old) (length span_starts.old)
        (length span_ends.old) (length counts.old) (length phrases.old)
        (length piece_starts.old) (length piece_ends.old) (length work_starts.old)
        (length work_ends.old) (length work_letters.old) (length out.old) }
    ensures { ((file : List ℕ)
        → Holding file bodies.now levels.now (length starts.old) (length span_starts.old) count
        → take result out.new ≡ printed file)
        × (result ≤ length out.old) }
{
    job_layout::read_words(bodies, starts, ends, letters, units, keys);
    job_layout::read_spans(bodies, WORD * starts.len(), span_starts, span_ends, counts);
    phrases.fill(0);
    let answer = full_run::heard::run_heard(
        levels,
        count,
        starts,
        ends,
        letters,
        units,
        keys,
        Spans {
            starts: span_starts,
            ends: span_ends,
            counts,
        },
        phrases,
        piece_starts,
        piece_ends,
        work_starts,
        work_ends,
        work_letters,
    );
    print(
        out,
        answer,
        span_starts.len(),
        starts,
        ends,
        phrases,
        piece_starts,
        piece_ends,
    )
}

// Writes what is printed for a job whose layout holds; gives back how many bytes that has.
fn settle(bodies: &[u8], levels: &[f64], numbers: Numbers, out: &mut [u8]) -> usize
    requires { (28 * numbers.words + 20 * numbers.spans ≤ length bodies.now)
        × ((length levels.now ≡ numbers.samples / 160)
        × ((numbers.words ≤ 512) × ((numbers.spans ≤ 64) × (33088 ≤ length out.old)))) }
    ensures { ((file : List ℕ)
        → Holding file bodies.now levels.now numbers.words numbers.spans numbers.samples
        → take result out.new ≡ printed file)
        × (result ≤ length out.old) }
{
    let w = numbers.words;
    let s = numbers.spans;
    let mut starts = [0.0; 512];
    let mut ends = [0.0; 512];
    let mut letters = [0u32; 512];
    let mut units = [0u32; 512];
    let mut keys = [0u32; 512];
    let mut span_starts = [0.0; 64];
    let mut span_ends = [0.0; 64];
    let mut counts = [0u32; 64];
    let mut phrases = [0u32; 512];
    let mut piece_starts = [0usize; 5];
    let mut piece_ends = [0usize; 5];
    let mut work_starts = [0.0; 512];
    let mut work_ends = [0.0; 512];
    let mut work_letters = [0u32; 512];
    answer(
        bodies,
        levels,
        numbers.samples,
        &mut starts[0..w],
        &mut ends[0..w],
        &mut letters[0..w],
        &mut units[0..w],
        &mut keys[0..w],
        &mut span_starts[0..s],
        &mut span_ends[0..s],
        &mut counts[0..s],
        &mut phrases[0..w],
        &mut piece_starts,
        &mut piece_ends,
        &mut work_starts[0..w],
        &mut work_ends[0..w],
        &mut work_letters[0..w],
        out,
    )
}

// How many words, spans and samples a job has of which so many bytes came, or why it is refused: the table must be whole, it must hold, and
// the file must end where it says (refusal 5).
fn check(came: usize, table: &[u8]) -> Result<Numbers, Refusal>
    requires { length table.now ≡ 24 }
    ensures held { IfOk result (λ numbers. Whole came table.now numbers) }
    ensures refused { IfErr result (λ why. (bodies file : List ℕ) (levels : List Float)
        → Came came table.now bodies levels file
        → printed file ≡ refused_line (number why)) }
{
    if came < TABLE {
        return Err(Refusal::Layout);
    }
    let numbers = job_layout::read_table(table)?;
    let size = WORD * numbers.words + SPAN * numbers.spans;
    if came != TABLE + size + SAMPLE * numbers.samples {
        return Err(Refusal::Layout);
    }
    Ok(numbers)
}

// Judges a job by what came of it: how many bytes, the table, the bytes of words and spans, and the levels of the samples. Writes what is
// printed for it, and gives back how many bytes that has.
pub fn judge(came: usize, table: &[u8], bodies: &[u8], levels: &[f64], out: &mut [u8]) -> usize
    requires { (length table.now ≡ 24)
        × ((15616 ≤ length bodies.now) × ((6000 ≤ length levels.now) × (33088 ≤ length out.old))) }
    ensures { ((file : List ℕ)
        → Came came table.now bodies.now levels.now file
        → take result out.new ≡ printed file)
        × (result ≤ length out.old) }
{
    match check(came, table) {
        Err(why) => {
            let mut text = Writer { bytes: out, at: 0 };
            job_text::put_refused(&mut text, u32::from(why));
            text.at
        }
        Ok(numbers) => {
            let size = WORD * numbers.words + SPAN * numbers.spans;
            let frames = numbers.samples / HOP;
            settle(&bodies[0..size], &levels[0..frames], numbers, out)
        }
    }
}
