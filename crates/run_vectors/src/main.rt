// Replays stored answers of the Rust of voxr: full runs, from samples to word times (compare/README.md
// says how they were made). Standard input has a row of 53 bytes for each:
//
//     K AAAAAAAAAAAAAAAA BBBBBBBBBBBBBBBB RRRRRRRRRRRRRRRR
//
// K is the kind, A and B are the inputs and R is the answer, in upper-case hexadecimal digits. B is a
// recording of 64 frames: the samples of frame k are 0.5 where bit k of B is one, from the lowest on,
// and else 0. A has 16 digits, the highest first: the start and the end of each of four words, then the
// key of each; where the first of two spans ends and the second begins; how many words each takes; and
// what the first sample is: 1 a NaN, 2 an infinity, else as B says. A digit d is the time d / 20 s. The
// words have 4, 3, 2 and 1 letters, and 5 units each. The first span begins at 0 and the second ends at
// 0.64 s. The kinds:
//
//     S four words in two spans
//     W four words without spans
//     Z two spans, and none of the words: their places stay
//     X four words in two spans, one row, with an answer that is one bit off on purpose, so that the
//       output shows that a wrong answer is seen
//
// R is what the run gives back and leaves, folded into 64 bits in this order: found, the number of
// pieces and of words, the floor, of the levels the first and the last, the piece's start and end, and of
// the four words' places their starts, ends, letters, units, keys and phrase numbers, each of which is 9
// before. Folding a number turns what there is by 5 bits to the left and takes the exclusive or. Any NaN
// stands for every NaN. A row is wrong where the call refuses it.
#![tactic(auto)]

ghost use Rattle.std.specs.Prelude.{◌≤◌};

use base::HOP;
use base::spans::Spans;
use std::num::f64_to_bits_with_nan;
use std::{array, io};
use vector_rows::numbers::{DURATION, SAMPLES, digits, is_loud};
use vector_rows::rows::{RowKind, replay};

// What a row asks for.
#[derive(Clone, Copy, Debug, PartialEq, Eq)]
enum Kind {
    InSpans,
    WithoutSpans,
    WithoutWords,
    Planted,
}

// The kinds, in the order of their lines.
const KINDS: [Kind; 4] = [
    Kind::InSpans,
    Kind::WithoutSpans,
    Kind::WithoutWords,
    Kind::Planted,
];

impl RowKind for Kind {
    fn letter(self) -> u8 {
        match self {
            Kind::InSpans => b'S',
            Kind::WithoutSpans => b'W',
            Kind::WithoutWords => b'Z',
            Kind::Planted => b'X',
        }
    }

    fn name(self) -> &'static str {
        match self {
            Kind::InSpans => "full runs in spans",
            Kind::WithoutSpans => "full runs without spans",
            Kind::WithoutWords => "full runs without words",
            Kind::Planted => "planted full run",
        }
    }

    fn is_right(self, a: u64, b: u64, r: u64) -> bool {
        let digits = digits(a);
        let mut samples = [0.0; SAMPLES];
        set_samples(&mut samples, b, digits[15]);
        let folded = match self {
            Kind::InSpans | Kind::Planted => run(&samples, &digits, 4, 2),
            Kind::WithoutSpans => run(&samples, &digits, 4, 0),
            Kind::WithoutWords => run(&samples, &digits, 0, 2),
        };
        folded == Some(r)
    }
}

// The time of a digit.
fn time(digit: u32) -> f64 {
    f64::from(digit) / 20.0
}

// The samples of a recording, over silence: each loud frame's; the first is no number where the row's digit says so.
fn set_samples(samples: &mut [f32; SAMPLES], recording: u64, first: u32) {
    for k in 0..SAMPLES / HOP {
        if is_loud(recording, k) {
            samples[k * HOP..(k + 1) * HOP].fill(0.5);
        }
    }
    match first {
        1 => samples[0] = f32::NAN,
        2 => samples[0] = f32::INFINITY,
        _ => {}
    }
}

// Numbers folded into 64 bits.
#[derive(Clone, Copy, Debug, PartialEq, Eq)]
struct Folded(u64);

impl Folded {
    // Folds one more number.
    fn number(&mut self, x: u64) {
        self.0 = self.0.rotate_left(5) ^ x;
    }

    // The same for a double.
    fn time(&mut self, x: f64) {
        self.number(f64_to_bits_with_nan(x));
    }

    // The same for a list of numbers.
    fn numbers(&mut self, list: &[u32]) {
        for x in list {
            self.number(u64::from(*x));
        }
    }

    // The same for a list of doubles. Kept beside `numbers`: with one for both, each of the seven calls would turn its list into bits first.
    fn times(&mut self, list: &[f64]) {
        for x in list {
            self.time(*x);
        }
    }
}

// What a run of the first so many of four words gives back and leaves, over these samples and the
// first so many of two spans.
fn run(samples: &[f32; SAMPLES], digits: &[u32; 16], words: usize, spans: usize) -> Option<u64>
    requires { (words ≤ 4) × (spans ≤ 2) }
{
    let mut starts: [f64; 4] = array::from_fn(|i| time(digits[2 * i]));
    let mut ends: [f64; 4] = array::from_fn(|i| time(digits[2 * i + 1]));
    let mut letters = [4, 3, 2, 1];
    let mut units = [5; 4];
    let mut keys = [digits[8], digits[9], digits[10], digits[11]];
    let edge = time(digits[12]);
    let span_starts = [0.0, edge];
    let span_ends = [edge, DURATION];
    let counts = [digits[13], digits[14]];
    let mut phrases = [9; 4];
    let mut levels = [0.0; 64];
    let mut piece_starts = [0; 1];
    let mut piece_ends = [0; 1];
    let mut work_starts = [0.0; 4];
    let mut work_ends = [0.0; 4];
    let mut work_letters = [0; 4];
    let report = full_run::full_run(
        samples,
        &mut starts[..words],
        &mut ends[..words],
        &mut letters[..words],
        &mut units[..words],
        &mut keys[..words],
        Spans {
            starts: &span_starts[..spans],
            ends: &span_ends[..spans],
            counts: &counts[..spans],
        },
        &mut phrases,
        &mut levels,
        &mut piece_starts,
        &mut piece_ends,
        &mut work_starts,
        &mut work_ends,
        &mut work_letters,
    )
    .ok()?;
    let mut folded = Folded(0);
    folded.number(u64::from(report.found));
    folded.number(report.pieces as u64);
    folded.number(report.words as u64);
    folded.times(&[report.floor, levels[0], levels[63]]);
    folded.number(piece_starts[0] as u64);
    folded.number(piece_ends[0] as u64);
    folded.times(&starts);
    folded.times(&ends);
    folded.numbers(&letters);
    folded.numbers(&units);
    folded.numbers(&keys);
    folded.numbers(&phrases);
    Some(folded.0)
}

fn main(rt: HostRuntime) -> io::Result<()> {
    replay(&rt, &KINDS, &mut rt.stdin())
}
