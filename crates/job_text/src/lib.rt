// The lines that the program prints, written into lent places (document 01, "Tally, peak, job file"). Digits and lines are put by hand,
// for std prints through fmt::Write, whose contract never says that a write succeeds.
#![tactic(auto)]

ghost use Rattle.std.specs.Prelude.{◌≡◌, not, ◌+◌, ◌*◌, ◌<◌, ◌≤◌, T, length};
ghost use Rattle.std.specs.Float.Ieee.{is_nan};
ghost use Rattle.job_text.specs.Text.{digit as digit_of, decimal_in, hex_in, bits_of, refused_line, piece_line, phrase_text, word_line, piece_lines, word_lines};
ghost use Rattle.job_text.specs.Parts.{Wrote, NoNans};

use crate::writer::Writer;

pub mod writer;

// Writes some text, from the place that the writer has come to, as all functions here do.
fn put_text(out: &mut Writer<'_>, text: &[u8])
    requires { out.old.at + length text.now ≤ length out.old.bytes.now }
    ensures { Wrote text.now out.old out.new }
{
    let end = out.at + text.len();
    out.bytes[out.at..end].copy_from_slice(text);
    out.at = end;
}

// A digit below 16: `0` to `9`, then `A` to `F`.
#[tactic(auto, unfolding(crate::specs::Text::digit))]
fn digit(d: u64) -> u8
    requires { d < 16 }
    ensures { result ≡ digit_of d }
{
    if d < 10 {
        b'0' + d as u8
    } else {
        b'A' + (d as u8 - 10)
    }
}

// Writes a number in decimal digits, `most` of them at the most.
// By hand, as the hexadecimal ones: std prints only through `fmt::Write`, whose contract never says that a write succeeds.
fn put_decimal(out: &mut Writer<'_>, n: u64, most: usize)
    requires { out.old.at + most ≤ length out.old.bytes.now }
    ensures { Wrote (decimal_in most n) out.old out.new × (out.new.at ≤ out.old.at + most) }
{
    if most == 0 {
        return;
    }
    if n < 10 {
        put_text(out, &[digit(n)]);
        return;
    }
    put_decimal(out, n / 10, most - 1);
    put_text(out, &[digit(n % 10)]);
}

// Writes the last `places` hexadecimal digits of a number.
fn put_hexadecimal(out: &mut Writer<'_>, n: u64, places: usize)
    requires { out.old.at + places ≤ length out.old.bytes.now }
    ensures { Wrote (hex_in places n) out.old out.new × (out.new.at ≡ out.old.at + places) }
{
    if places == 0 {
        return;
    }
    put_hexadecimal(out, n / 16, places - 1);
    put_text(out, &[digit(n % 16)]);
}

// Writes the bits of a time that is no NaN, in 16 hexadecimal digits.
fn put_bits(out: &mut Writer<'_>, time: f64)
    requires { (out.old.at + 16 ≤ length out.old.bytes.now) × T (not (is_nan time)) }
    ensures { Wrote (bits_of time) out.old out.new × (out.new.at ≡ out.old.at + 16) }
{
    put_hexadecimal(out, time.to_bits(), 16);
}

// Writes `refused` and a number.
pub fn put_refused(out: &mut Writer<'_>, n: u32)
    requires { out.old.at + 64 ≤ length out.old.bytes.now }
    ensures { Wrote (refused_line n) out.old out.new × (out.new.at ≤ out.old.at + 64) }
{
    put_text(out, b"refused ");
    put_decimal(out, u64::from(n), 20);
    put_text(out, b"\n");
}

// Writes the line of a piece: its first sample, and its end.
fn put_piece(out: &mut Writer<'_>, first: usize, end: usize)
    requires { out.old.at + 64 ≤ length out.old.bytes.now }
    ensures { Wrote (piece_line first end) out.old out.new × (out.new.at ≤ out.old.at + 64) }
{
    put_text(out, b"piece ");
    put_decimal(out, first as u64, 20);
    put_text(out, b" ");
    put_decimal(out, end as u64, 20);
    put_text(out, b"\n");
}

// Writes a phrase number, or `-` where there are no spans (an `Option` would be no plainer: one count of spans decides for all words).
fn put_phrase(out: &mut Writer<'_>, spans: usize, phrase: u32)
    requires { out.old.at + 20 ≤ length out.old.bytes.now }
    ensures { Wrote (phrase_text spans phrase) out.old out.new × (out.new.at ≤ out.old.at + 20) }
{
    if spans == 0 {
        put_text(out, b"-");
    } else {
        put_decimal(out, u64::from(phrase), 20);
    }
}

// Writes the line of a word: the bits of its start and end, and its phrase.
fn put_word(out: &mut Writer<'_>, spans: usize, start: f64, end: f64, phrase: u32)
    requires { (out.old.at + 64 ≤ length out.old.bytes.now) × (T (not (is_nan start)) × T (not (is_nan end))) }
    ensures { Wrote (word_line spans start end phrase) out.old out.new × (out.new.at ≤ out.old.at + 64) }
{
    put_text(out, b"word ");
    put_bits(out, start);
    put_text(out, b" ");
    put_bits(out, end);
    put_text(out, b" ");
    put_phrase(out, spans, phrase);
    put_text(out, b"\n");
}

// Writes the lines of the first n pieces.
pub fn put_pieces(out: &mut Writer<'_>, starts: &[usize], ends: &[usize], n: usize)
    requires { (n ≤ length starts.now) × ((n ≤ length ends.now) × (out.old.at + 64 * n ≤ length out.old.bytes.now)) }
    ensures { Wrote (piece_lines starts.now ends.now n) out.old out.new × (out.new.at ≤ out.old.at + 64 * n) }
{
    for i in 0..n {
        put_piece(out, starts[i], ends[i]);
    }
}

// Writes the lines of the first n words.
pub fn put_words(
    out: &mut Writer<'_>,
    spans: usize,
    starts: &[f64],
    ends: &[f64],
    phrases: &[u32],
    n: usize,
)
    requires { (n ≤ length starts.now)
        × ((n ≤ length ends.now)
        × ((n ≤ length phrases.now)
        × ((out.old.at + 64 * n ≤ length out.old.bytes.now) × (NoNans n starts.now × NoNans n ends.now)))) }
    ensures { Wrote (word_lines spans starts.now ends.now phrases.now n) out.old out.new
        × (out.new.at ≤ out.old.at + 64 * n) }
{
    for i in 0..n {
        put_word(out, spans, starts[i], ends[i], phrases[i]);
    }
}
