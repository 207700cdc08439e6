// What the numbers of a row stand for: whole numbers, doubles, digits and recordings.
ghost use Rattle.std.specs.Prelude.{◌≡◌, ◌<◌, ◌≤◌, length, map, IfSome, IsTrue, ◌↔◌, from_bits};
ghost use Rattle.std.specs.Float.{binary64};
ghost use Rattle.std.specs.List.{range_with_len};
ghost use Rattle.vector_rows.specs.Numbers.{digit_value, number_of, digit_at, is_loud, level_of};

use std::array;
use std::num::{f64_from_bits_with_nan, f64_to_bits_with_nan};

// Samples of the recording of a row: 64 frames.
pub const SAMPLES: usize = 10240;

// How long it is, in seconds.
pub const DURATION: f64 = 0.64;

// A frame above this level is loud.
pub const FLOOR: f64 = 0.5;

// The value of an upper-case hexadecimal digit; std's readers of digits take small letters too.
fn digit(c: u8) -> Option<u64>
    ensures value { result ≡ digit_value c }
    ensures bound { IfSome result (λ d. d < 16) }
{
    match c {
        b'0'..=b'9' => Some(u64::from(c - b'0')),
        b'A'..=b'F' => Some(u64::from(c - b'A') + 10),
        _ => None,
    }
}

// The number that a text of such digits is, the highest first.
pub fn number(text: &[u8]) -> Option<u64>
    requires { length text.now ≤ 16 }
    ensures { result ≡ number_of text.now }
{
    let mut number = 0;
    for c in text {
        number = number * 16 + digit(*c)?;
    }
    Some(number)
}

// The 16 digits of a number, the highest first.
pub fn digits(number: u64) -> [u32; 16]
    ensures { result ≡ map (digit_at number) (range_with_len 0 16) }
{
    array::from_fn(|i| ((number >> (60 - 4 * i)) % 16) as u32)
}

// Whether the bits of x are these, or both are a NaN's.
pub fn has_bits(x: f64, bits: u64) -> bool
    ensures { IsTrue result ↔ (x ≡ from_bits binary64 bits) }
{
    f64_to_bits_with_nan(x) == f64_to_bits_with_nan(f64_from_bits_with_nan(bits))
}

// Whether a frame of a recording is loud: its bit is one, that of the first frame the lowest.
pub fn is_loud(recording: u64, frame: usize) -> bool
    requires { frame < 64 }
    ensures { result ≡ is_loud recording frame }
{
    (recording >> frame) & 1 == 1
}

// The levels of a recording: 1 where a frame is loud, and else 0.
pub fn levels(recording: u64) -> [f64; 64]
    ensures { result ≡ map (level_of recording) (range_with_len 0 64) }
{
    array::from_fn(|frame| if is_loud(recording, frame) { 1.0 } else { 0.0 })
}
