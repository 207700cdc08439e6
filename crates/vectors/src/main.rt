// Replays stored answers: a JavaScript engine's toFixed, min and max, exact roots and frames, and
// cuts (compare/README.md says how they were made; `word_vectors` has those of words). Standard
// input has a row of 53 bytes for each:
//
//     K AAAAAAAAAAAAAAAA BBBBBBBBBBBBBBBB RRRRRRRRRRRRRRRR
//
// K is the kind, A and B are the inputs and R is the answer, in upper-case hexadecimal digits: the
// bits of a double, or a whole number in two's complement. Any NaN stands for every NaN. The kinds:
//
//     F toFixed   L min (lower)   H max (higher)   S square root
//     A frame_at  C frame_ceil    Z frame_from_zero  T frame_seconds (time)
//     P pieces: the upper half of A is the number of frames, at most 2,048; B of them from the lower
//       half of A on are quiet, and the others are loud; R is the end of the first piece, in samples
//     X toFixed and Y frame_at, one row each, with an answer that is one step off on purpose, so
//       that the output shows that a wrong answer is seen
#![tactic(auto)]

use base::HOP;
use envelope::view::Envelope;
use std::io;
use std::num::f64_from_bits_with_nan as float;
use vector_rows::numbers::{FLOOR, has_bits};
use vector_rows::rows::{RowKind, replay};

// The most frames of a row of pieces.
const FRAMES: usize = 2048;

// What a row asks for.
#[derive(Clone, Copy, Debug, PartialEq, Eq)]
enum Kind {
    ToFixed,
    Min,
    Max,
    Sqrt,
    FrameAt,
    FrameCeil,
    FrameFromZero,
    FrameSeconds,
    Pieces,
    PlantedToFixed,
    PlantedFrame,
}

// The kinds, in the order of their lines.
const KINDS: [Kind; 11] = [
    Kind::ToFixed,
    Kind::Min,
    Kind::Max,
    Kind::Sqrt,
    Kind::FrameAt,
    Kind::FrameCeil,
    Kind::FrameFromZero,
    Kind::FrameSeconds,
    Kind::Pieces,
    Kind::PlantedToFixed,
    Kind::PlantedFrame,
];

impl RowKind for Kind {
    fn letter(self) -> u8 {
        match self {
            Kind::ToFixed => b'F',
            Kind::Min => b'L',
            Kind::Max => b'H',
            Kind::Sqrt => b'S',
            Kind::FrameAt => b'A',
            Kind::FrameCeil => b'C',
            Kind::FrameFromZero => b'Z',
            Kind::FrameSeconds => b'T',
            Kind::Pieces => b'P',
            Kind::PlantedToFixed => b'X',
            Kind::PlantedFrame => b'Y',
        }
    }

    fn name(self) -> &'static str {
        match self {
            Kind::ToFixed => "toFixed",
            Kind::Min => "min",
            Kind::Max => "max",
            Kind::Sqrt => "sqrt",
            Kind::FrameAt => "frame at",
            Kind::FrameCeil => "frame ceil",
            Kind::FrameFromZero => "frame from zero",
            Kind::FrameSeconds => "frame seconds",
            Kind::Pieces => "pieces",
            Kind::PlantedToFixed => "planted toFixed",
            Kind::PlantedFrame => "planted frame",
        }
    }

    fn has_second(self) -> bool {
        matches!(self, Kind::Min | Kind::Max | Kind::Pieces)
    }

    fn is_right(self, a: u64, b: u64, r: u64) -> bool {
        match self {
            Kind::ToFixed | Kind::PlantedToFixed => has_bits(js::js_to_fixed(float(a)), r),
            Kind::Min => has_bits(js::js_min(float(a), float(b)), r),
            Kind::Max => has_bits(js::js_max(float(a), float(b)), r),
            Kind::Sqrt => has_bits(roots::sqrt(float(a)), r),
            Kind::FrameAt | Kind::PlantedFrame => frames::frame_at(float(a)) == r.cast_signed(),
            Kind::FrameCeil => frames::frame_ceil(float(a)) == r.cast_signed(),
            Kind::FrameFromZero => frames::frame_from_zero(float(a)) == r.cast_signed(),
            Kind::FrameSeconds => has_bits(frames::frame_seconds(a.cast_signed()), r),
            Kind::Pieces => {
                let end = cut((a >> 32) as usize, (a & 0xffff_ffff) as usize, b as usize);
                // A row with no first piece has 0 for its end.
                end.unwrap_or(0) == r as usize
            }
        }
    }
}

// The end of the first of one or two pieces, where the last one ends with the recording.
fn first_end(n: usize, ends: [usize; 2], count: usize) -> Option<usize> {
    match (n, ends) {
        (1, [first, _]) if first == count => Some(first),
        (2, [first, last]) if first < last && last == count => Some(first),
        _ => None,
    }
}

// The end of the first piece of so many frames, of which so many are quiet from the first quiet one
// on.
fn cut(frames: usize, first_quiet: usize, quiet: usize) -> Option<usize> {
    let mut levels = [1.0; FRAMES];
    for level in levels.iter_mut().skip(first_quiet).take(quiet) {
        *level = 0.0;
    }
    let levels = levels.get(..frames)?;
    let mut starts = [0; 2];
    let mut ends = [0; 2];
    let count = frames * HOP;
    let n = pieces::pieces(Envelope::new(levels, FLOOR, count), &mut starts, &mut ends).ok()?;
    first_end(n, ends, count)
}

fn main(rt: HostRuntime) -> io::Result<()> {
    replay(&rt, &KINDS, &mut rt.stdin())
}
