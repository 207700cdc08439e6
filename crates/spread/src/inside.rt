// Whether a word is inside its span, and the first and the last word inside (phrase_align.rs, align_phrases).
ghost use Rattle.std.specs.Prelude.{◌≡◌, ◌<◌, length, unwrap_or, IfSome};
ghost use Rattle.base.specs.Words.{edges, times_at};
ghost use Rattle.spread.specs.Spread.{inside, first_inside, last_inside};

use base::Times;

// A word so many seconds outside its span, or fewer, is inside.
const EDGE_SLACK: f64 = 0.02;
// A word of fewer seconds is never inside.
const MIN_WORD: f64 = 0.04;

// Whether a word is inside the span.
fn is_inside(span: Times, w: Times) -> bool
    ensures { result ≡ inside span.start span.end w }
{
    w.start >= span.start - EDGE_SLACK
        && w.end <= span.end + EDGE_SLACK
        && w.end - w.start >= MIN_WORD
}

// Whether word i is inside.
pub fn inside_at(starts: &[f64], ends: &[f64], span: Times, i: usize) -> bool
    requires { (i < length starts.now) × (length ends.now ≡ length starts.now) }
    ensures { result ≡ inside span.start span.end (times_at (edges starts.now ends.now) i) }
{
    let w = Times {
        start: starts[i],
        end: ends[i],
    };
    is_inside(span, w)
}

// The first word inside, if there is one.
pub fn first_inside(starts: &[f64], ends: &[f64], span: Times) -> Option<usize>
    requires { length ends.now ≡ length starts.now }
    ensures { let len = length starts.now in
        (unwrap_or result len ≡ first_inside span.start span.end (edges starts.now ends.now)) × IfSome result (λ i. i < len) }
{
    (0..starts.len()).find(|&i| inside_at(starts, ends, span, i))
}

// The last word inside; some word is.
pub fn last_inside(starts: &[f64], ends: &[f64], span: Times) -> usize
    requires { (0 < length starts.now) × (length ends.now ≡ length starts.now) }
    ensures { (result ≡ last_inside span.start span.end (edges starts.now ends.now)) × (result < length starts.now) }
{
    (1..starts.len())
        .rev()
        .find(|&i| inside_at(starts, ends, span, i))
        .unwrap_or(0)
}
