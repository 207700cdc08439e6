// Replays stored answers: words as the Rust of voxr moves them (compare/README.md says how they
// were made; `vectors` has those of numbers and pieces, `fit_vectors` those of fitting). Standard
// input has a row of 53 bytes for each:
//
//     K AAAAAAAAAAAAAAAA BBBBBBBBBBBBBBBB RRRRRRRRRRRRRRRR
//
// K is the kind, A and B are the inputs and R is the answer, in upper-case hexadecimal digits: the
// bits of a double, or a whole number. Any NaN stands for every NaN. The kinds:
//
//     K collapse_loops: A has the keys of B words, at most 16, a digit each and none of them 0, from
//       the highest digit on, and zeros after them; R has the keys that are left in the same way
//     O snap_onsets: R is the new start of a word from A to 0.64 s
//     E snap_ends: R is the new end of a word from A to 0.64 s; the duration is 0.64 s
//     D hand_back_tails: R is the new start of the second of two words of 4 letters each, from 0 to
//       0.1 s and from A to 0.64 s
//     V even_out: B is the limit, R is the time that A asks for
//     G align_phrases: B has the number of spans, at most 5, then the start, end and count of each,
//       a digit each, and zeros after them; R is the time that A asks for, or what is kept
//     W snap_onsets and U even_out, one row each, with an answer that is one step off on purpose, so
//       that the output shows that a wrong answer is seen
//
// O, E, D and W have a recording of 64 frames: frame k is loud where bit k of B is one, from the
// lowest on.
//
// V, G and U have words in the digits of A, from the highest on: their number, from 1 to 7, then
// what is asked for, then the start and the end of each, and zeros after them. A digit d of a word
// or a span is d / 20 s in V and U and d / 50 s in G; F is -0. The words have 1, 2, 1, 2 and so on
// letters, 1 unit and the key 1. Where p is asked for, R is the start of word p / 2, from 0 on, or
// its end if p is odd. In G p may be E: then R has the number of words kept and the phrase number
// of each place, a digit each, and zeros after them; there are as many places as words, and each
// had a 9. A row is wrong where the call refuses it, or where p, the number of words or that of
// spans is out of range.
#![tactic(auto)]

ghost use Rattle.std.specs.Prelude.{◌≤◌};
ghost use Rattle.word_vectors.specs.declared.TheConstants.{TIMED};

use base::spans::Spans;
use envelope::view::Envelope;
use loops::Left;
use std::num::f64_from_bits_with_nan as float;
use std::{array, io};
use vector_rows::numbers::{DURATION, FLOOR, SAMPLES, digits, has_bits, levels};
use vector_rows::rows::{RowKind, replay};

// The places of the keys of a row.
const KEYS: usize = 16;

// The most words of a row of times in digits.
const TIMED: usize = 7;

// The most spans of such a row.
const SPANS: usize = 5;

// The letters of the words of such a row.
const LETTERS: [u32; TIMED] = [1, 2, 1, 2, 1, 2, 1];

// The digit by which a row of placing asks for what is kept, and for no time.
const KEPT: usize = 14;

// The digit of -0.
const MINUS_ZERO: u32 = 15;

// A digit is one of so many parts of a second in a row of evening.
const EVENING: f64 = 20.0;

// The same in a row of placing.
const PLACING: f64 = 50.0;

// What a row asks for.
#[derive(Clone, Copy, Debug, PartialEq, Eq)]
enum Kind {
    Loops,
    Onsets,
    Ends,
    Tails,
    Evening,
    Placing,
    PlantedOnset,
    PlantedEvening,
}

// The kinds, in the order of their lines.
const KINDS: [Kind; 8] = [
    Kind::Loops,
    Kind::Onsets,
    Kind::Ends,
    Kind::Tails,
    Kind::Evening,
    Kind::Placing,
    Kind::PlantedOnset,
    Kind::PlantedEvening,
];

impl RowKind for Kind {
    fn letter(self) -> u8 {
        match self {
            Kind::Loops => b'K',
            Kind::Onsets => b'O',
            Kind::Ends => b'E',
            Kind::Tails => b'D',
            Kind::Evening => b'V',
            Kind::Placing => b'G',
            Kind::PlantedOnset => b'W',
            Kind::PlantedEvening => b'U',
        }
    }

    fn name(self) -> &'static str {
        match self {
            Kind::Loops => "loops",
            Kind::Onsets => "onsets",
            Kind::Ends => "ends",
            Kind::Tails => "tails",
            Kind::Evening => "evening",
            Kind::Placing => "placing",
            Kind::PlantedOnset => "planted onset",
            Kind::PlantedEvening => "planted evening",
        }
    }

    fn is_right(self, a: u64, b: u64, r: u64) -> bool {
        match self {
            Kind::Loops => is_collapsed(a, b as usize, r),
            Kind::Onsets | Kind::PlantedOnset => is_time(onset(&levels(b), float(a)), r),
            Kind::Ends => is_time(end(&levels(b), float(a)), r),
            Kind::Tails => is_time(handed_back(&levels(b), float(a)), r),
            Kind::Evening | Kind::PlantedEvening => is_time(evened(&digits(a), float(b)), r),
            Kind::Placing => is_placed(&digits(a), &digits(b), r),
        }
    }
}

// Whether there is a time, and it has these bits.
fn is_time(time: Option<f64>, bits: u64) -> bool {
    time.is_some_and(|t| has_bits(t, bits))
}

// Whether so many words keep the keys r, and the answer tells their number, and if any word went.
fn is_collapsed(a: u64, words: usize, r: u64) -> bool {
    if words > KEYS {
        return false;
    }
    let mut starts = [0.0; KEYS];
    let mut ends = [0.0; KEYS];
    let mut letters = [1; KEYS];
    let mut units = [1; KEYS];
    let mut keys = digits(a);
    let answer = loops::collapse_loops(
        &mut starts[..words],
        &mut ends[..words],
        &mut letters[..words],
        &mut units[..words],
        &mut keys[..words],
    );
    let left = keys.iter().position(|key| *key == 0).unwrap_or(KEYS);
    match answer {
        Ok(Left { count, found }) => {
            found == (count < words) && left == count && keys == digits(r)
        }
        Err(_) => false,
    }
}

// The new start of one word from `start` on.
fn onset(levels: &[f64; 64], start: f64) -> Option<f64> {
    let mut starts = [start];
    let ends = [DURATION];
    let ones = [1];
    let answer = onsets::snap_onsets(
        Envelope::new(levels, FLOOR, SAMPLES),
        &mut starts,
        &ends,
        &ones,
        &ones,
        &ones,
    )
    .ok()?;
    Some(starts[0])
}

// The new end of one word from `start` on.
fn end(levels: &[f64; 64], start: f64) -> Option<f64> {
    let mut starts = [start];
    let mut ends = [DURATION];
    let ones = [1];
    ends::snap_ends(
        Envelope::new(levels, FLOOR, SAMPLES),
        &mut starts,
        &mut ends,
        &ones,
        &ones,
        &ones,
        DURATION,
    )
    .ok()?;
    Some(ends[0])
}

// The new start of a word from `start` on, after one that ends at 0.1 s.
fn handed_back(levels: &[f64; 64], start: f64) -> Option<f64> {
    let mut starts = [0.0, start];
    let mut ends = [0.1, DURATION];
    let letters = [4; 2];
    let ones = [1; 2];
    tails::hand_back_tails(
        Envelope::new(levels, FLOOR, SAMPLES),
        &mut starts,
        &mut ends,
        &letters,
        &ones,
        &ones,
    )
    .ok()?;
    Some(starts[1])
}

// The time of a digit, so many of which are a second.
fn time(digit: u32, parts: f64) -> f64 {
    if digit == MINUS_ZERO {
        return -0.0;
    }
    f64::from(digit) / parts
}

// Words with times in digits, and what is asked for of them.
struct Words {
    count: usize,
    asked: usize,
    starts: [f64; TIMED],
    ends: [f64; TIMED],
    ghost few: { count ≤ TIMED },
}

impl Words {
    // The words of these digits, so many of which are a second; None where their number is out of
    // range.
    fn from_digits(digits: &[u32; 16], parts: f64) -> Option<Words> {
        let count = digits[0] as usize;
        if count == 0 || count > TIMED {
            return None;
        }
        Some(Words {
            count,
            asked: digits[1] as usize,
            starts: array::from_fn(|i| time(digits[2 + 2 * i], parts)),
            ends: array::from_fn(|i| time(digits[3 + 2 * i], parts)),
        })
    }
}

// The time that is asked for: a start where `asked` is even, an end where it is odd, as the row's digit says it.
fn asked_time(starts: &[f64], ends: &[f64], asked: usize) -> Option<f64> {
    let times = if asked % 2 == 0 { starts } else { ends };
    times.get(asked / 2).copied()
}

// The time that is asked for of words that are evened.
fn evened(digits: &[u32; 16], limit: f64) -> Option<f64> {
    let Words {
        count,
        asked,
        mut starts,
        mut ends,
    } = Words::from_digits(digits, EVENING)?;
    let ones = [1; TIMED];
    even::even_out(
        &mut starts[..count],
        &mut ends[..count],
        &LETTERS[..count],
        &ones[..count],
        &ones[..count],
        limit,
    )
    .ok()?;
    asked_time(&starts[..count], &ends[..count], asked)
}

// Whether r has the number of words kept, and the phrase number of each place.
fn is_kept(kept: usize, phrases: &[u32], r: u64) -> bool {
    let told = digits(r);
    told[0] as usize == kept
        && told[1..]
            .strip_prefix(phrases)
            .is_some_and(|rest| rest.iter().all(|digit| *digit == 0))
}

// Whether r is what is asked for, of words that are placed in these spans.
fn is_placed(digits: &[u32; 16], spans: &[u32; 16], r: u64) -> bool {
    let Some(words) = Words::from_digits(digits, PLACING) else {
        return false;
    };
    let Words {
        count,
        asked,
        mut starts,
        mut ends,
    } = words;
    let span_count = spans[0] as usize;
    if span_count > SPANS {
        return false;
    }
    let span_starts: [f64; SPANS] = array::from_fn(|i| time(spans[1 + 3 * i], PLACING));
    let span_ends: [f64; SPANS] = array::from_fn(|i| time(spans[2 + 3 * i], PLACING));
    let counts: [u32; SPANS] = array::from_fn(|i| spans[3 + 3 * i]);
    let mut letters = LETTERS;
    let mut units = [1; TIMED];
    let mut keys = [1; TIMED];
    let mut phrases = [9; TIMED];
    let answer = phrase_align::align_phrases(
        &mut starts[..count],
        &mut ends[..count],
        &mut letters[..count],
        &mut units[..count],
        &mut keys[..count],
        Spans {
            starts: &span_starts[..span_count],
            ends: &span_ends[..span_count],
            counts: &counts[..span_count],
        },
        &mut phrases[..count],
    );
    match answer {
        Ok(kept) if asked == KEPT => { is_kept(kept, &phrases[..count], r) }
        Ok(_) => { is_time(asked_time(&starts[..count], &ends[..count], asked), r) }
        Err(_) => false,
    }
}

fn main(rt: HostRuntime) -> io::Result<()> {
    replay(&rt, &KINDS, &mut rt.stdin())
}
