// The run of words that a crushed word shares its time with: where it starts, and where it ends (even.rs, even_out).
ghost use Rattle.std.specs.Prelude.{◌≡◌, ◌&&◌, ◌-◌, ◌<◌, ◌≤◌, ltb, length};
ghost use Rattle.std.specs.Float.Ieee.{lt};
ghost use Rattle.base.specs.Floats.{◌⊗◌};
ghost use Rattle.base.specs.Words.{edges};
ghost use Rattle.even.specs.WeighedWords.{edges_of};
ghost use Rattle.even.specs.Even.{min_letter, max_span, sum as sum_of, crushed, swollen, first_crushed, with_swollen, last_crushed};
ghost use Rattle.even.specs.Even.{grown as grown_to, ceiling_of, borrowed as borrowed_to, end_of, stretch_of};

use crate::weighed_words::WeighedWords;
use base::MIN_LETTER;

// A word of fewer seconds is crushed.
const CRUSHED: f64 = 0.08;
// A word of more seconds than this, and its letters said slowly, is swollen.
const SWOLLEN_BASE: f64 = 0.25;
// What a letter takes, in seconds, when it is said slowly.
const SLOW_LETTER: f64 = 0.12;
// What a slow word takes, in seconds, beyond its letters.
const SLOW_WORD: f64 = 0.1;
// Where the last word of a run stands so many places behind the first, the run takes no more words along.
const MAX_SPAN: usize = 6;

// A run of words: the first, the last, and where the last one ends.
#[derive(Clone, Copy)]
pub struct Stretch {
    pub first: usize,
    pub last: usize,
    pub to: f64,
}

// Words in a row, from the first to the last.
#[derive(Clone, Copy)]
pub struct Row {
    pub first: usize,
    pub last: usize,
    pub ghost ordered: { first ≤ last },
}

// A word that is too short to have been said.
#[tactic(auto, unfolding(crate::specs::Even::crushed))]
pub fn is_crushed(starts: &[f64], ends: &[f64], i: usize) -> bool
    requires { (i < length starts.now) × (i < length ends.now) }
    ensures { result ≡ crushed (edges starts.now ends.now) i }
{
    ends[i] - starts[i] < CRUSHED
}

// A word that lasts longer than its letters can take.
#[tactic(auto, unfolding(crate::specs::Even::swollen))]
fn is_swollen(w: WeighedWords<'_>, i: usize) -> bool
    requires { i < length w.starts.now }
    ensures { result ≡ swollen w.entry.weights.now (edges_of w.entry) i }
{
    w.ends[i] - w.starts[i] > SWOLLEN_BASE + SLOW_LETTER * (w.weights[i] as f64)
}

// The letters of words in a row.
#[tactic(auto, unfolding(crate::specs::Even::sum))]
pub fn sum(letters: &[u32], row: Row) -> f64
    requires { (row.last < length letters.now) × (length letters.now ≤ 4096) }
    ensures { result ≡ sum_of letters.now row.first row.last }
{
    share::total(&letters[row.first..row.last + 1])
}

// The first of the crushed words that stand in a row before word i.
fn first_crushed(w: WeighedWords<'_>, i: usize) -> usize
    requires { i ≤ length w.starts.now }
    ensures { (result ≡ first_crushed (edges_of w.entry) i) × (result ≤ i) }
{
    for a in (1..=i).rev() {
        if !is_crushed(w.starts, w.ends, a - 1) {
            return a;
        }
    }
    0
}

// A run from word a on takes the word before it along where that one is swollen.
#[tactic(auto, unfolding(crate::specs::Even::with_swollen))]
fn with_swollen(w: WeighedWords<'_>, a: usize) -> usize
    requires { a ≤ length w.starts.now }
    ensures { (result ≡ with_swollen w.entry.weights.now (edges_of w.entry) a) × (result ≤ a) }
{
    if a > 0 && is_swollen(w, a - 1) {
        a - 1
    } else {
        a
    }
}

// The last of the crushed words that stand in a row after word i.
fn last_crushed(w: WeighedWords<'_>, i: usize) -> usize
    requires { i < length w.starts.now }
    ensures { let len = length w.entry.starts.now in
        (result ≡ last_crushed (edges_of w.entry) len i) × ((i ≤ result) × (result < len)) }
{
    let end = w.starts.len() - 1;
    for b in i..end {
        if !is_crushed(w.starts, w.ends, b + 1) {
            return b;
        }
    }
    end
}

// So much room is too little for words in a row, which may yet take another word along.
fn cramped(letters: &[u32], room: f64, row: Row) -> bool
    requires { (row.last < length letters.now) × (length letters.now ≤ 4096) }
    ensures { let needed = min_letter ⊗ sum_of letters.now row.first row.last in
        result ≡ (lt room needed && ltb (row.last - row.first) max_span) }
{
    row.last - row.first < MAX_SPAN && room < MIN_LETTER * sum(letters, row)
}

// The last word of a run that takes words after it along while it has too little room before them.
fn grown(w: WeighedWords<'_>, row: Row) -> usize
    requires { (row.last < length w.starts.now) × (length w.starts.now ≤ 4096) }
    ensures { let len = length w.entry.starts.now in
        (result ≡ grown_to w.entry.weights.now (edges_of w.entry) len row.first row.last)
        × ((row.last ≤ result) × (result < len)) }
{
    let first = row.first;
    let from = w.starts[first];
    let end = w.starts.len() - 1;
    for last in row.last..end {
        if !cramped(w.weights, w.starts[last + 1] - from, Row { first, last }) {
            return last;
        }
    }
    end
}

// The time that a run up to word b must not pass: the next word's start, or the limit.
#[tactic(auto, unfolding(crate::specs::Even::ceiling_of))]
fn ceiling(w: WeighedWords<'_>, limit: f64, b: usize) -> f64
    requires { b < length w.starts.now }
    ensures { result ≡ ceiling_of w.entry.weights.now (edges_of w.entry) limit (length w.entry.starts.now) b }
{
    if b + 1 < w.starts.len() {
        return w.starts[b + 1];
    }
    js::js_min(limit, w.ends[b] + SLOW_LETTER * (w.weights[b] as f64))
}

// The first word of a run that takes words before it along while it has too little room up to the ceiling.
fn borrowed(w: WeighedWords<'_>, ceiling: f64, row: Row) -> usize
    requires { (row.last < length w.starts.now) × (length w.starts.now ≤ 4096) }
    ensures { (result ≡ borrowed_to w.entry.weights.now (edges_of w.entry) ceiling row.last row.first) × (result ≤ row.first) }
{
    let last = row.last;
    for first in (1..=row.first).rev() {
        if !cramped(w.weights, ceiling - w.starts[first], Row { first, last }) {
            return first;
        }
    }
    0
}

// Where the last word of a run ends: not past the ceiling nor later than said slowly, and not before it did.
#[tactic(auto, unfolding(crate::specs::Even::end_of))]
fn run_end(w: WeighedWords<'_>, ceiling: f64, row: Row) -> f64
    requires { (row.last < length w.starts.now) × (length w.starts.now ≤ 4096) }
    ensures { result ≡ end_of w.entry.weights.now (edges_of w.entry) ceiling row.first row.last }
{
    let count = (row.last - row.first + 1) as f64;
    let slow = w.starts[row.first] + SLOW_LETTER * sum(w.weights, row) + SLOW_WORD * count;
    js::js_max(w.ends[row.last], js::js_min(ceiling, slow))
}

// The run of the crushed word i.
#[tactic(auto, unfolding(crate::specs::Even::stretch_of))]
pub fn stretch_of(starts: &[f64], ends: &[f64], letters: &[u32], limit: f64, i: usize) -> Stretch
    requires { (i < length starts.now)
        × ((length ends.now ≡ length starts.now)
        × ((length letters.now ≡ length starts.now) × (length starts.now ≤ 4096))) }
    ensures { let before = edges starts.now ends.now in
        (result ≡ stretch_of letters.now before limit i)
        × ((result.first ≤ result.last) × ((i ≤ result.last) × (result.last < length starts.now))) }
{
    let w = WeighedWords {
        starts,
        ends,
        weights: letters,
    };
    let a = with_swollen(w, first_crushed(w, i));
    let b = last_crushed(w, i);
    let last = grown(w, Row { first: a, last: b });
    let top = ceiling(w, limit, last);
    let first = borrowed(w, top, Row { first: a, last });
    let to = run_end(w, top, Row { first, last });
    Stretch { first, last, to }
}
