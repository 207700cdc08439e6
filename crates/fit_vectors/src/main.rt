// Replays stored answers of the Rust of voxr: last runs of sound, and a word fitted to its sound,
// alone and by phrase (compare/README.md says how they were made). Standard input has a row of 53
// bytes for each:
//
//     K AAAAAAAAAAAAAAAA BBBBBBBBBBBBBBBB RRRRRRRRRRRRRRRR
//
// K is the kind, A and B are the inputs and R is the answer, in upper-case hexadecimal digits. A and
// R are the bits of doubles, and any NaN stands for every NaN. B is a recording of 64 frames: frame k
// is loud where bit k of B is one, from the lowest on. The kinds:
//
//     R, Q last_run from 0 to A: R has the start of the run and Q its end, or a NaN where there is
//       no sound
//     I, J fit_to_sound of one word of 4 letters, 1 unit and the key 1, from A to 0.64 s; the
//       duration is 0.64 s: I has its new start and J its new end
//     M, N fit_file of the same word, in phrase 0, whose span is from 0 to 0.64 s and takes 1 word: M
//       has its new start and N its new end
//     X the start of a last run, one row, with an answer that is one step off on purpose, so that
//       the output shows that a wrong answer is seen
//
// A row is wrong where the call refuses it.
#![tactic(auto)]

use base::spans::Spans;
use envelope::view::Envelope;
use std::io;
use std::num::f64_from_bits_with_nan as float;
use vector_rows::numbers::{DURATION, FLOOR, SAMPLES, has_bits, levels};
use vector_rows::rows::{RowKind, replay};

// Which of two times a row asks for.
#[derive(Clone, Copy, Debug, PartialEq, Eq)]
enum Edge {
    Start,
    End,
}

// What a row asks for.
#[derive(Clone, Copy, Debug, PartialEq, Eq)]
enum Kind {
    LastRun(Edge),
    Fit(Edge),
    Phrase(Edge),
    PlantedLastRun,
}

// The kinds, in the order of their lines.
const KINDS: [Kind; 7] = [
    Kind::LastRun(Edge::Start),
    Kind::LastRun(Edge::End),
    Kind::Fit(Edge::Start),
    Kind::Fit(Edge::End),
    Kind::Phrase(Edge::Start),
    Kind::Phrase(Edge::End),
    Kind::PlantedLastRun,
];

impl RowKind for Kind {
    fn letter(self) -> u8 {
        match self {
            Kind::LastRun(Edge::Start) => b'R',
            Kind::LastRun(Edge::End) => b'Q',
            Kind::Fit(Edge::Start) => b'I',
            Kind::Fit(Edge::End) => b'J',
            Kind::Phrase(Edge::Start) => b'M',
            Kind::Phrase(Edge::End) => b'N',
            Kind::PlantedLastRun => b'X',
        }
    }

    fn name(self) -> &'static str {
        match self {
            Kind::LastRun(Edge::Start) => "last run starts",
            Kind::LastRun(Edge::End) => "last run ends",
            Kind::Fit(Edge::Start) => "fit starts",
            Kind::Fit(Edge::End) => "fit ends",
            Kind::Phrase(Edge::Start) => "phrase starts",
            Kind::Phrase(Edge::End) => "phrase ends",
            Kind::PlantedLastRun => "planted last run",
        }
    }

    fn is_right(self, a: u64, b: u64, r: u64) -> bool {
        let levels = levels(b);
        let time = float(a);
        match self {
            Kind::LastRun(edge) => is_edge(edge, run_times(&levels, time), r),
            Kind::Fit(edge) => is_edge(edge, fitted_times(&levels, time), r),
            Kind::Phrase(edge) => is_edge(edge, filed_times(&levels, time), r),
            Kind::PlantedLastRun => is_edge(Edge::Start, run_times(&levels, time), r),
        }
    }
}

// Whether there are a start and an end, and the one asked for has these bits.
fn is_edge(edge: Edge, times: Option<(f64, f64)>, bits: u64) -> bool {
    match (edge, times) {
        (Edge::Start, Some((start, _))) => has_bits(start, bits),
        (Edge::End, Some((_, end))) => has_bits(end, bits),
        (_, None) => false,
    }
}

// The start and the end of the last run up to a time, each a NaN where there is no sound, as the rows have it.
fn run_times(levels: &[f64; 64], to: f64) -> Option<(f64, f64)> {
    match last_run::last_run(Envelope::new(levels, FLOOR, SAMPLES), 0.0, to).ok()? {
        Some(run) => Some((run.start, run.end)),
        None => Some((f64::NAN, f64::NAN)),
    }
}

// The start and the end of a word that is fitted.
fn fitted_times(levels: &[f64; 64], start: f64) -> Option<(f64, f64)> {
    let mut starts = [start];
    let mut ends = [DURATION];
    let letters = [4];
    let ones = [1];
    fit_to_sound::fit_to_sound(
        Envelope::new(levels, FLOOR, SAMPLES),
        &mut starts,
        &mut ends,
        &letters,
        &ones,
        &ones,
        DURATION,
    )
    .ok()?;
    Some((starts[0], ends[0]))
}

// The start and the end of a word that is fitted in its phrase.
fn filed_times(levels: &[f64; 64], start: f64) -> Option<(f64, f64)> {
    let mut starts = [start];
    let mut ends = [DURATION];
    let letters = [4];
    let ones = [1];
    let phrases = [0];
    let whole = Spans {
        starts: &[0.0],
        ends: &[DURATION],
        counts: &ones,
    };
    let mut work_starts = [0.0];
    let mut work_ends = [0.0];
    let mut work_letters = [0];
    fit_file::fit_file(
        Envelope::new(levels, FLOOR, SAMPLES),
        &mut starts,
        &mut ends,
        &letters,
        &ones,
        &ones,
        &phrases,
        whole,
        &mut work_starts,
        &mut work_ends,
        &mut work_letters,
    )
    .ok()?;
    Some((starts[0], ends[0]))
}

fn main(rt: HostRuntime) -> io::Result<()> {
    replay(&rt, &KINDS, &mut rt.stdin())
}
