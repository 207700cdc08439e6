// How a program replays its rows: it reads them, judges each, and prints what it found.
ghost use Rattle.std.specs.Prelude.{◌≡◌, ◌<◌, ◌≤◌, length, take, IfOk, IfSome};
ghost use Rattle.std.specs.Io.KnownBytes.{Consumes, IsAtEnd};
ghost use Rattle.vector_rows.specs.Counts.{counted};

use crate::numbers::number;
use std::fmt;
use std::io::{self, Read};

// The bytes of a row.
pub const ROW: usize = 53;

// The kinds of rows of a program.
pub trait RowKind: Copy + Drop {
    // The first byte of its rows.
    fn letter(self) -> u8;

    // What it is called where it is printed.
    fn name(self) -> &'static str;

    // Whether its rows have a second input.
    fn has_second(self) -> bool {
        true
    }

    // Whether r is the answer for a and b.
    fn is_right(self, a: u64, b: u64, r: u64) -> bool;
}

// How many rows of a kind were compared, and how many of them were wrong.
#[derive(Clone, Copy, Debug, Default, PartialEq, Eq)]
struct Counts {
    compared: u64,
    wrong: u64,
}

impl Counts {
    // Counts a row, and counts it as wrong where its answer is.
    fn add(&mut self, right: bool)
        ensures { self.new ≡ counted right self.old }
    {
        self.compared = self.compared.saturating_add(1);
        if !right {
            self.wrong = self.wrong.saturating_add(1);
        }
    }
}

impl fmt::Display for Counts {
    fn fmt<W: fmt::Write>(&self, f: &mut fmt::Formatter<W>) -> fmt::Result {
        write!(f, "{} compared, {} wrong", self.compared, self.wrong)
    }
}

// Reads until the row is full or the input ends, and answers how many bytes it put at the row's
// start.
pub fn read_row<R: Read>(input: &mut R, row: &mut [u8; ROW]) -> io::Result<usize>
    ensures bound { IfOk result (λ n. n ≤ ROW) }
    ensures bytes { IfOk result
        (λ n. Consumes (R.remaining input.old) (R.remaining input.new) (take n row.new)) }
    ensures end { IfOk result (λ n. n < ROW → IsAtEnd (R.remaining input.new)) }
{
    let mut done = 0;
    while done < row.len() {
        let n = input.read(&mut row[done..])?;
        if n == 0 {
            break;
        }
        done += n;
    }
    Ok(done)
}

// Whether the row has spaces before its numbers and a line end after them.
fn is_spaced(row: &[u8; ROW]) -> bool {
    row[1] == b' ' && row[18] == b' ' && row[35] == b' ' && row[52] == b'\n'
}

// The place of the row's kind, and whether its answer is right; None where the row is unreadable.
fn judge<K: RowKind>(kinds: &[K], row: &[u8; ROW]) -> Option<(usize, bool)>
    ensures { IfSome result (λ row. row.0 < length kinds.now) }
{
    if !is_spaced(row) {
        return None;
    }
    let place = kinds.iter().position(|kind| kind.letter() == row[0])?;
    let kind = kinds[place];
    let a = number(&row[2..18])?;
    // 0 where the kind has no second number: it then reads none, so an `Option` would be no plainer.
    let b = if kind.has_second() {
        number(&row[19..35])?
    } else {
        0
    };
    let r = number(&row[36..52])?;
    Some((place, kind.is_right(a, b, r)))
}

// Judges every row and counts it under its kind, and answers how many rows were unreadable. A proved
// loop has to end, and nothing says that the input does, so it has so many turns that no run uses
// them up.
fn count_all<K: RowKind, R: Read>(
    kinds: &[K],
    counts: &mut [Counts],
    input: &mut R,
) -> io::Result<u64>
    requires { length counts.old ≡ length kinds.now }
{
    let mut unreadable = 0u64;
    for _ in 0..u64::MAX {
        let mut row = [0; ROW];
        let judged = match read_row(input, &mut row)? {
            0 => break,
            ROW => judge(kinds, &row),
            _ => {
                // The input ended within this row: it is the last.
                unreadable = unreadable.saturating_add(1);
                break;
            }
        };
        match judged {
            Some((place, right)) => counts[place].add(right),
            None => unreadable = unreadable.saturating_add(1),
        }
    }
    Ok(unreadable)
}

// Judges the rows of the input, and prints a line for each kind and how many rows were unreadable.
pub fn replay<K: RowKind, const N: usize, R: Read>(
    rt: &impl Print,
    kinds: &[K; N],
    input: &mut R,
) -> io::Result<()>
    requires { N ≤ 256 }
{
    let mut counts = [Counts::default(); N];
    let unreadable = count_all(kinds, &mut counts, input)?;
    for (kind, counts) in kinds.iter().zip(&counts) {
        println!(rt; "{} {counts}", kind.name())?;
    }
    println!(rt; "unreadable {unreadable}")
}
