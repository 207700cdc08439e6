// What a pass does at one place: the copies of a run of keys are looked for, and a word moves up (loops.rs).
ghost use Rattle.std.specs.Prelude.{◌+◌, ◌-◌, ◌≤◌, ◌<◌, ◌≡◌, length, take};
ghost use Rattle.base.specs.WordListsMut.{words_of, SameLists};
ghost use Rattle.loops.specs.Loops.{same as same_of, is_loop, copies_end};
ghost use Rattle.loops.specs.Parts.{moved, only_keys, held_keys, goes_on};

use base::word_lists_mut::WordListsMut;

// So many equal runs side by side, or more, are a loop.
pub const MIN_COPIES: usize = 3;

// Whether two runs of n keys are equal.
fn same(keys: &[u32], n: usize, a: usize, b: usize) -> bool
    requires { (a + n ≤ length keys.now) × (b + n ≤ length keys.now) }
    ensures { result ≡ same_of n (only_keys keys.now) a b }
{
    (0..n).all(|k| keys[a + k] == keys[b + k])
}

// Whether the n keys at i and those from `rest` on begin with three copies.
fn is_loop(keys: &[u32], n: usize, i: usize, rest: usize) -> bool
    requires { (i + n ≤ rest) × (rest ≤ length keys.now) }
    ensures { result ≡ is_loop n i (held_keys (i + n) rest keys.now) }
{
    (MIN_COPIES - 1) * n <= keys.len() - rest
        && same(keys, n, i, rest)
        && same(keys, n, i, rest + n)
}

// Where the copies of the n keys at i end, from `rest` on.
fn copies_end(keys: &[u32], n: usize, i: usize, rest: usize) -> usize
    requires { (0 < n) × ((i + n ≤ rest) × (rest ≤ length keys.now)) }
    ensures { (i + n + (result - rest) ≡ copies_end n (held_keys (i + n) rest keys.now) i) × ((rest ≤ result) × (result ≤ length keys.now)) }
{
    let mut end = rest;
    while n <= keys.len() - end && same(keys, n, i, end) {
        end += n;
    }
    end
}

// Where the first `len` words go on behind the n at i: behind all their copies, if these are a loop.
pub fn past_loop(keys: &[u32], len: usize, n: usize, i: usize, rest: usize) -> usize
    requires { (0 < n) × ((i + n ≤ rest) × ((rest ≤ len) × (len ≤ length keys.now))) }
    ensures { let counted = take len keys.now in
        (i + n + (result - rest) ≡ goes_on n i (held_keys (i + n) rest counted)) × ((rest ≤ result) × (result ≤ len)) }
{
    let keys = &keys[..len];
    if is_loop(keys, n, i, rest) {
        copies_end(keys, n, i, rest)
    } else {
        rest
    }
}

// Puts the word at place `from` at place `to`.
pub fn move_word(w: &mut WordListsMut<'_>, to: usize, from: usize)
    requires { (to < length w.old.keys.now) × (from < length w.old.keys.now) }
    ensures same { SameLists w.old w.new }
    ensures moved { words_of w.new ≡ moved to from (words_of w.old) }
{
    w.starts[to] = w.starts[from];
    w.ends[to] = w.ends[from];
    w.letters[to] = w.letters[from];
    w.units[to] = w.units[from];
    w.keys[to] = w.keys[from];
}
